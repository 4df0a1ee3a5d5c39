// How far work has come.

ghost use Rattle.std.specs.Prelude.{◌≤◌};

use std::sync::atomic::{AtomicU32, Ordering};

/// How far work has come: how much of it is done, of as much as is known of it.
#[derive(Drop)]
pub struct Progress {
    done: AtomicU32,
    known: AtomicU32,
}

impl Progress {
    /// Nothing is done, and nothing is known.
    pub fn new() -> Progress {
        Progress {
            done: AtomicU32::new(0),
            known: AtomicU32::new(0),
        }
    }

    /// So much is done, of so much that is known.
    pub fn set(&self, done: u32, known: u32) {
        self.known.store(known, Ordering::Relaxed);
        self.done.store(done, Ordering::Relaxed);
    }

    /// How much is done, and how much is known, what is done included.
    pub fn reached(&self) -> (u32, u32)
        ensures { result.0 ≤ result.1 }
    {
        let done = self.done.load(Ordering::Relaxed);
        let known = self.known.load(Ordering::Relaxed);
        (done.min(known), known)
    }
}
