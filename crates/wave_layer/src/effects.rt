// The effects of the wave table.

ghost use Rattle.std.specs.Prelude.{◌≡◌};
ghost use Rattle.wave_layer.specs.WaveTable.{becomes, completes, father_regs, restarts};
ghost use Rattle.wave_layer.specs.Sessions.{next_session};
ghost use Rattle.wave_layer.specs.declared.regs.Phase.TheVariants.{Initiate, Normal, Reset};

use crate::regs::{Phase, WaveMove, WaveRefusal, WaveRegs};
use crate::view::WaveView;

// Rows 1 and 2: the node asks for a reset.
pub(crate) fn asked(view: &WaveView) -> Result<WaveMove, WaveRefusal>
    ensures { result ≡ becomes Initiate view.now.own.session }
{
    becomes(Phase::Initiate, view.own().session)
}

// Row 3: the next session is entered.
pub(crate) fn opened(view: &WaveView) -> Result<WaveMove, WaveRefusal>
    ensures { result ≡ restarts Reset (next_session view.now.modulus view.now.own.session) }
{
    restarts(Phase::Reset, view.modulus().next(view.own().session))
}

// Rows 4 and 5: the father's session is entered.
pub(crate) fn joined(view: &WaveView) -> Result<WaveMove, WaveRefusal>
    ensures { result ≡ restarts Reset (father_regs view.now.own view.now.father).session }
{
    restarts(Phase::Reset, father_regs(view).session)
}

// Row 6: the node's part of the reset is over.
pub(crate) fn finished(view: &WaveView) -> Result<WaveMove, WaveRefusal>
    ensures { result ≡ becomes Normal view.now.own.session }
{
    becomes(Phase::Normal, view.own().session)
}

// Row 7: so is the reset.
pub(crate) fn completed(view: &WaveView) -> Result<WaveMove, WaveRefusal>
    ensures { result ≡ completes Normal view.now.own.session }
{
    Ok(WaveMove {
        regs: WaveRegs {
            phase: Phase::Normal,
            session: view.own().session,
        },
        restarts: false,
        completes: true,
    })
}

// Rows 8 to 11: the registers are the father's.
pub(crate) fn mended(view: &WaveView) -> Result<WaveMove, WaveRefusal>
    ensures { let up = father_regs view.now.own view.now.father in result ≡ becomes up.phase up.session }
{
    let up = father_regs(view);
    becomes(up.phase, up.session)
}

// The father's registers, or the node's own where the father is no neighbour.
pub(crate) fn father_regs(view: &WaveView) -> WaveRegs
    ensures { result ≡ father_regs view.now.own view.now.father }
{
    view.father().regs_or(view.own())
}

// The registers become these.
#[inline(always)]
pub(crate) fn becomes(phase: Phase, session: u32) -> Result<WaveMove, WaveRefusal>
    ensures { result ≡ becomes phase session }
{
    Ok(WaveMove {
        regs: WaveRegs { phase, session },
        restarts: false,
        completes: false,
    })
}

// The same, and the local state becomes the start state.
#[inline(always)]
pub(crate) fn restarts(phase: Phase, session: u32) -> Result<WaveMove, WaveRefusal>
    ensures { result ≡ restarts phase session }
{
    Ok(WaveMove {
        regs: WaveRegs { phase, session },
        restarts: true,
        completes: false,
    })
}
