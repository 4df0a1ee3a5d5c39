// The registers at the start.

ghost use Rattle.std.specs.Prelude.{◌≡◌, IfOk, replicate};

use crate::regs::{Phase, WaveRegs};
use std::alloc::{AllocError, Global};

/// The registers of `count` nodes at the start: each normal, in session 0.
pub fn boot_wave(alloc: Global, count: usize) -> Result<Vec<WaveRegs>, AllocError>
    ensures { IfOk result
        (λ regs. regs.items ≡ replicate count (record { phase = Phase.Normal; session = 0 })) }
{
    vec![in alloc; WaveRegs {
        phase: Phase::Normal,
        session: 0
    }; count]
}
