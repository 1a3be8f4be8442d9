//! Makes memory short and ample again, in two ways: one growth (a request for memory) is refused,
//! or only a few blocks are left.
use crate::drought::Drought;
use crate::fuse;
use atl_world::let_go;
use std::alloc::Global;

/// How memory is short: one growth is refused, or few blocks are left.
#[derive(Clone, Copy, Debug, PartialEq, Eq)]
pub enum Limit {
    /// The growth with this number is refused, by a heap that counts growths (`fuse`).
    Growth(u32),
    /// Only this many blocks are left (`drought`).
    Blocks(u32),
}

/// A shortage of memory that can begin and end, and whether a growth was refused in it.
pub struct Shortage {
    pub limit: Limit,
    /// Whether a growth was refused between the last `begin` and `end`; None if it isn't known.
    pub was_refused: Option<bool>,
    drought: Drought,
}

impl Drop for Shortage {
    fn drop(self) {
        let_go!(self: Shortage { limit, was_refused, drought });
    }
}

impl Shortage {
    /// A shortage that hasn't begun; None if there is no room for the lists of a drought.
    pub fn new(alloc: Global) -> Option<Shortage> {
        Some(Shortage {
            limit: Limit::Blocks(0),
            was_refused: None,
            drought: Drought::new(alloc)?,
        })
    }

    pub fn begin(&mut self, alloc: Global) {
        match self.limit {
            Limit::Growth(growth) => {
                fuse::arm(alloc, growth);
            }
            Limit::Blocks(blocks) => self.drought.begin(alloc, blocks),
        }
    }

    pub fn end(&mut self, alloc: Global) {
        self.was_refused = match self.limit {
            Limit::Growth(_) => Some(fuse::has_refused(alloc)),
            Limit::Blocks(_) => {
                self.drought.end();
                None
            }
        };
    }
}
