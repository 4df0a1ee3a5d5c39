// The application that does nothing: its invariant always holds.
ghost use Rattle.app_invariants.specs.Counts.{idle_count};
ghost use Rattle.app_invariants.specs.LawsOfCounts.{nothing_wrong};

use crate::invariant::Invariant;
use app_interface::Idle;
use std::alloc::{AllocError, Global};
use topology::Topology;

impl Invariant for Idle {
    ghost counts = { idle_count };

    ghost decides = { nothing_wrong };

    fn words() -> &'static str {
        "faults"
    }

    fn right_count() -> u64 {
        0
    }

    fn count(
        _alloc: Global,
        _topology: &Topology,
        _at: u32,
        _states: &[()],
    ) -> Result<u64, AllocError> {
        Ok(0)
    }
}
