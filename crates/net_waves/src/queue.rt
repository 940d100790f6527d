// Nodes that wait, first in, first out.
ghost use Rattle.std.specs.Prelude.{◌≡◌, ◌^◌, ◌<◌, ◌≤◌, length};

use crate::slices::Height;

/// Numbers of nodes that wait, in a ring of lent slots.
#[derive(Drop)]
pub struct Queue<'a> {
    pub slots: &'a mut [u32],
    /// Where the first one waits.
    pub head: usize,
    /// How many wait.
    pub len: usize,
    ghost begins: { head ≤ length slots.now },
    ghost fits: { len ≤ length slots.now },
}

impl<'a> Queue<'a> {
    /// A queue in which nothing waits.
    pub fn new(slots: &'a mut [u32]) -> Queue<'a>
        ensures empty { result.len ≡ 0 }
    {
        Queue {
            slots,
            head: 0,
            len: 0,
        }
    }

    // Forgets all that wait.
    pub(crate) fn clear(&mut self)
        ensures empty { self.new.len ≡ 0 }
    {
        self.len = 0;
        self.head = 0;
    }

    // Puts node `v` behind all others; where no slot is left, it does not wait.
    pub(crate) fn put(&mut self, v: usize)
        requires { v < 2 ^ 32 }
    {
        let slots = self.slots.len();
        if self.len == slots {
            return;
        }
        let mut at = self.head + self.len;
        if at >= slots {
            at -= slots;
        }
        self.slots[at] = v as u32;
        self.len += 1;
    }

    // Takes the first one.
    pub(crate) fn take(&mut self) -> Option<usize> {
        if self.len == 0 {
            return None;
        }
        let mut at = self.head;
        if at == self.slots.len() {
            at = 0;
        }
        let v = self.slots[at];
        self.head = at + 1;
        self.len -= 1;
        Some(v as usize)
    }
}

// Puts node `v` into the queue if it does not wait there yet.
pub(crate) fn wait(heights: &mut [Height], queue: &mut Queue, v: usize)
    requires node { v < length heights.old }
    requires small { v < 2 ^ 32 }
{
    if !heights[v].waits {
        heights[v].waits = true;
        queue.put(v);
    }
}
