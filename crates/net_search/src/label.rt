// Labels of nodes.
ghost use Rattle.std.specs.Prelude.{◌≡◌, ℕ, ◌<◌, length};

/// What a search knows of a node: its distance, `INFINITY` where none is known, the last arc of a path of that length, and its place
/// among the reached nodes, or the number of all nodes where it is not reached.
#[derive(Clone, Copy, PartialEq, Eq, Debug, Default)]
pub struct Label {
    pub distance: i64,
    pub pred: usize,
    pub place: usize,
}

/// Farther than any node.
pub const INFINITY: i64 = 1 << 62;

ghost use Rattle.net_search.specs.Label.{place_of, IsUnlabelled, AllUnlabelled, Unlabelled, Relabelled, PlacedAt};

impl Label {
    // Of a node, one of `n`, that has none.
    fn unlabelled(n: usize) -> Label
        ensures { IsUnlabelled n result }
    {
        Label {
            distance: INFINITY,
            pred: 0,
            place: n,
        }
    }
}

// Takes all labels away.
pub(crate) fn blank(labels: &mut [Label])
    ensures { AllUnlabelled (length labels.new) labels.new }
{
    labels.fill(Label::unlabelled(labels.len()));
}

// Takes the label of node `v` away.
pub(crate) fn unlabel(labels: &mut [Label], v: usize)
    requires { v < length labels.old }
    ensures { Unlabelled (length labels.old) labels.old labels.new v }
{
    labels[v] = Label::unlabelled(labels.len());
}

// Labels node `v` with the distance `d`, by arc `a`.
pub(crate) fn relabel(labels: &mut [Label], v: usize, a: usize, d: i64)
    requires { v < length labels.old }
    ensures place { (w : ℕ) → place_of labels.new w ≡ place_of labels.old w }
    ensures labelled { Relabelled labels.old labels.new v a d }
{
    labels[v].distance = d;
    labels[v].pred = a;
}

// Gives node `v` the place `k`.
pub(crate) fn put(labels: &mut [Label], v: usize, k: usize)
    requires { v < length labels.old }
    ensures { PlacedAt labels.old labels.new v k }
{
    labels[v].place = k;
}
