//! Vectors that aren't in use.

ghost use Rattle.std.specs.Prelude.{◌≡◌, []};

use spd_nodes::Ref;
use std::alloc::Global;

/// Vectors that aren't in use. A step of a recursion takes its lists from those of steps that are done, so that few are made.
#[derive(Drop)]
pub struct Pool {
    alloc: Global,
    free: Vec<Vec<Ref>>,
}

impl Pool {
    /// A pool without vectors, which takes no memory.
    pub fn new(alloc: Global) -> Pool {
        Pool {
            alloc,
            free: Vec::new(alloc),
        }
    }

    /// An empty vector.
    pub fn take(&mut self) -> Vec<Ref>
        ensures { result.items ≡ [] }
    {
        match self.free.pop() {
            Some(mut list) => {
                list.clear();
                list
            }
            None => Vec::new(self.alloc),
        }
    }

    /// Takes a vector that is done with. Where there is no memory to keep it, it goes.
    pub fn give(&mut self, list: Vec<Ref>) {
        let _ = self.free.push(list);
    }
}
