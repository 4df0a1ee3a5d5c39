// A line that goes on in the next read.

ghost use Rattle.std.specs.Prelude.{◌++◌, ℕ, List, OnOk};
ghost use Rattle.live_session.specs.Progress.{IsFront};

use history::MAX_LINE;
use std::alloc::AllocError;

// The most bytes that are kept of a line: a line with so many is bad, whatever follows.
const MOST_KEPT: usize = MAX_LINE + 1;

/// Keeps the next bytes of a line of which these are kept.
pub fn go_on(kept: &mut Vec<u8>, bytes: &[u8]) -> Result<(), AllocError>
    ensures { OnOk result ((line : List ℕ) → IsFront kept.old.items line → IsFront kept.new.items (line ++ bytes.now)) }
{
    let room = MOST_KEPT.saturating_sub(kept.len());
    kept.extend_from_slice(&bytes[..room.min(bytes.len())])
}
