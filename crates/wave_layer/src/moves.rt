// What the rows of each of the five commands of a wave leave, from the registers that they look at.

ghost use Rattle.std.specs.Prelude.{◌≡◌, ℕ, None, Some};
ghost use Rattle.action_tables.specs.Nodes.{regs_of};
ghost use Rattle.wave_layer.specs.WaveTable.{LocalView, children_done, is_root, or_next, wave_fired};

use crate::effects::{becomes, restarts};
use crate::modulus::Modulus;
use crate::regs::{FatherSeen, Phase, WaveMove, WaveRefusal, WaveRegs};

/// Row 1: the node asks for a reset.
#[inline(always)]
pub fn request(own: WaveRegs) -> Result<WaveMove, WaveRefusal>
    ensures { (v : LocalView) → v.own ≡ own → result ≡ wave_fired v 1 None }
{
    if own.phase.is_normal() {
        becomes(Phase::Initiate, own.session)
    } else {
        Err(WaveRefusal::NotEnabled)
    }
}

/// Row 2: the node passes on what this child asks, if the one that is named is a child.
#[inline(always)]
pub fn relay(own: WaveRegs, child: Option<WaveRegs>) -> Result<WaveMove, WaveRefusal>
    ensures { (v : LocalView) (c : ℕ) → v.own ≡ own → regs_of c v.children ≡ child → result ≡ wave_fired v 2 (Some c) }
{
    let Some(child) = child else {
        return Err(WaveRefusal::NotChild);
    };
    if own.phase.is_normal() && child.phase.is_initiate() {
        becomes(Phase::Initiate, own.session)
    } else {
        Err(WaveRefusal::NotEnabled)
    }
}

/// Row 3: the node opens the next session.
#[inline(always)]
pub fn open(own: WaveRegs, root: bool, modulus: Modulus) -> Result<WaveMove, WaveRefusal>
    ensures { (v : LocalView) → v.own ≡ own → v.modulus ≡ modulus → is_root v.father ≡ root
        → result ≡ wave_fired v 3 None }
{
    if !root || !own.phase.is_initiate() {
        return Err(WaveRefusal::NotEnabled);
    }
    restarts(Phase::Reset, modulus.next(own.session))
}

/// Rows 4 and 5: the node joins its father's session.
#[inline(always)]
pub fn join(own: WaveRegs, father: FatherSeen, modulus: Modulus) -> Result<WaveMove, WaveRefusal>
    ensures { (v : LocalView) → v.own ≡ own → v.modulus ≡ modulus → v.father ≡ father
        → result ≡ or_next (wave_fired v 4 None) (wave_fired v 5 None) }
{
    let FatherSeen::Is(up) = father else {
        return Err(WaveRefusal::NotEnabled);
    };
    if up.phase.is_reset() && !own.phase.is_reset() && modulus.follows(up.session, own.session) {
        restarts(Phase::Reset, up.session)
    } else {
        Err(WaveRefusal::NotEnabled)
    }
}

/// Rows 6 and 7: the node's part of the reset is over and, at a root, the reset.
#[inline(always)]
pub fn finish(own: WaveRegs, root: bool, done: bool) -> Result<WaveMove, WaveRefusal>
    ensures { (v : LocalView) → v.own ≡ own → is_root v.father ≡ root → children_done own.session v.children ≡ done
        → result ≡ or_next (wave_fired v 6 None) (wave_fired v 7 None) }
{
    if !own.phase.is_reset() || !done {
        return Err(WaveRefusal::NotEnabled);
    }
    let regs = WaveRegs {
        phase: Phase::Normal,
        session: own.session,
    };
    Ok(WaveMove {
        regs,
        restarts: false,
        completes: root,
    })
}
