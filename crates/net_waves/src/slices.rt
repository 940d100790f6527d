// What waves work on beside the flow.
ghost use Rattle.std.specs.Prelude.{◌≡◌, length};

/// What is left to push along an arc of reduced cost 0, with its head and its pair beside it: 0 where the arc costs more or is full.
#[derive(Clone, Copy, PartialEq, Eq, Debug, Default)]
pub struct Tight {
    pub head: u32,
    pub pair: u32,
    pub rest: i64,
}

/// What waves know of a node: how many arcs lie between it and the nearest deficit, whether it waits in the queue, and a distance, in
/// whose stead the next potential is written.
#[derive(Clone, Copy, PartialEq, Eq, Debug, Default)]
pub struct Height {
    pub level: u32,
    pub waits: bool,
    pub distance: i64,
}

/// The lent slices that waves work on: a `Tight` for each arc, and a height and a slot for each node. What is in them before does not
/// matter.
#[derive(Drop)]
pub struct WaveSlices<'a> {
    pub tight: &'a mut [Tight],
    pub heights: &'a mut [Height],
    pub slots: &'a mut [u32],
}
