// The guards of the wave table.
//
// The conjunctions are strict: each operand is cheap, and none depends on another.

ghost use Rattle.std.specs.Prelude.{◌≡◌, ◌==◌, ◌&&◌, not};
ghost use Rattle.wave_layer.specs.WaveTable.{any_initiate, children_done, father_awake, father_regs, father_reset};
ghost use Rattle.wave_layer.specs.WaveTable.{is_initiate, is_normal, is_reset, is_root};
ghost use Rattle.wave_layer.specs.Sessions.{next_session};

use crate::effects::father_regs;
use crate::regs::WaveRegs;
use crate::view::WaveView;

// Row 1: the node is normal.
pub(crate) fn is_normal(view: &WaveView) -> bool
    ensures { result ≡ (is_normal view.now.own.phase) }
{
    view.own().phase.is_normal()
}

// Row 2: so it is, and a child that is asked is initiate.
pub(crate) fn is_asked(view: &WaveView, asked: &[(u32, WaveRegs)]) -> bool
    ensures { result ≡ (is_normal view.now.own.phase && any_initiate asked.now) }
{
    view.own().phase.is_normal() & any_initiate(asked)
}

// Row 3: the node is a root and has asked.
pub(crate) fn may_open(view: &WaveView) -> bool
    ensures { result ≡ (is_root view.now.father && is_initiate view.now.own.phase) }
{
    view.father().is_root() & view.own().phase.is_initiate()
}

// Row 4: the father is reset and one session ahead, and the node is normal.
pub(crate) fn joins_normal(view: &WaveView) -> bool
    ensures { result
        ≡ (father_reset view.now.father && is_normal view.now.own.phase
        && (father_regs view.now.own view.now.father).session == next_session view.now.modulus view.now.own.session) }
{
    view.father().is_reset() & view.own().phase.is_normal() & is_behind(view)
}

// Row 5: the same, and the node has asked.
pub(crate) fn joins_asked(view: &WaveView) -> bool
    ensures { result
        ≡ (father_reset view.now.father && is_initiate view.now.own.phase
        && (father_regs view.now.own view.now.father).session == next_session view.now.modulus view.now.own.session) }
{
    view.father().is_reset() & view.own().phase.is_initiate() & is_behind(view)
}

// Row 6: the node is no root, and it is reset while its children are done.
pub(crate) fn may_finish(view: &WaveView) -> bool
    ensures { result
        ≡ (not (is_root view.now.father) && is_reset view.now.own.phase
        && children_done view.now.own.session view.now.children) }
{
    !view.father().is_root() & view.own().phase.is_reset() & children_done(view)
}

// Row 7: the same of a root.
pub(crate) fn may_complete(view: &WaveView) -> bool
    ensures { result
        ≡ (is_root view.now.father && is_reset view.now.own.phase
        && children_done view.now.own.session view.now.children) }
{
    view.father().is_root() & view.own().phase.is_reset() & children_done(view)
}

// Row 8: the node is reset, and the father isn't.
pub(crate) fn resets_alone(view: &WaveView) -> bool
    ensures { result ≡ (father_awake view.now.father && is_reset view.now.own.phase) }
{
    view.father().is_awake() & view.own().phase.is_reset()
}

// Row 9: neither is reset, and they differ in their sessions.
pub(crate) fn differs_awake(view: &WaveView) -> bool
    ensures { result
        ≡ (father_awake view.now.father && not (is_reset view.now.own.phase)
        && not (view.now.own.session == (father_regs view.now.own view.now.father).session)) }
{
    view.father().is_awake() & !view.own().phase.is_reset() & !is_level(view)
}

// Row 10: both are reset, and they differ in their sessions.
pub(crate) fn differs_reset(view: &WaveView) -> bool
    ensures { result
        ≡ (father_reset view.now.father && is_reset view.now.own.phase
        && not (view.now.own.session == (father_regs view.now.own view.now.father).session)) }
{
    view.father().is_reset() & view.own().phase.is_reset() & !is_level(view)
}

// Row 11: the father is reset, the node isn't, and the father isn't one session ahead nor in the node's.
pub(crate) fn is_late(view: &WaveView) -> bool
    ensures { result
        ≡ (father_reset view.now.father && not (is_reset view.now.own.phase)
        && not ((father_regs view.now.own view.now.father).session == view.now.own.session)
        && not ((father_regs view.now.own view.now.father).session == next_session view.now.modulus view.now.own.session)) }
{
    view.father().is_reset() & !view.own().phase.is_reset() & !is_level(view) & !is_behind(view)
}

// Whether some child that is asked is initiate.
fn any_initiate(asked: &[(u32, WaveRegs)]) -> bool
    ensures { result ≡ any_initiate asked.now }
{
    asked.iter().any(|(_, child)| child.phase.is_initiate())
}

// Whether the node has the father's session.
fn is_level(view: &WaveView) -> bool
    ensures value { result ≡ (view.now.own.session == (father_regs view.now.own view.now.father).session) }
    ensures back { result ≡ ((father_regs view.now.own view.now.father).session == view.now.own.session) }
{
    view.own().session == father_regs(view).session
}

// Whether the father is one session ahead.
fn is_behind(view: &WaveView) -> bool
    ensures { result ≡ ((father_regs view.now.own view.now.father).session == next_session view.now.modulus view.now.own.session) }
{
    view.modulus()
        .follows(father_regs(view).session, view.own().session)
}

// Whether every child is done.
fn children_done(view: &WaveView) -> bool
    ensures { result ≡ children_done view.now.own.session view.now.children }
{
    let session = view.own().session;
    view.children()
        .iter()
        .all(|(_, child)| child.is_done(session))
}
