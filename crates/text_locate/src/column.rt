// Columns of words.
ghost use Rattle.std.specs.Prelude.{◌≡◌, false};
ghost use Rattle.std.specs.List.{slice_get};
ghost use Rattle.text_locate.specs.Column.{starts};

use text_words::pieces::Mark;

/// The column at which the k-th word of a line begins, both counted from 0.
pub fn column_of(line: &[u8], k: usize) -> Option<usize>
    ensures { result ≡ slice_get (starts 0 false line.now) k }
{
    let mut left = k;
    let mut inside = false;
    for column in 0..line.len() {
        let blank = Mark::Blank.parts(&line[column..]);
        if !blank && !inside {
            if left == 0 {
                return Some(column);
            }
            left -= 1;
        }
        inside = !blank;
    }
    None
}
