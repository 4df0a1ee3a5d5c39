// The predicate of a node's wave registers and its father's.

ghost use Rattle.std.specs.Prelude.{◌≡◌, ◌↔◌, ℕ, List, IsTrue};
ghost use Rattle.wave_layer.specs.declared.regs.WaveRegs.{WaveRegs};
ghost use Rattle.wave_layer.specs.WaveTable.{FatherHolds, WaveHolds, no_mend, wave_table};

use crate::modulus::Modulus;
use crate::regs::{FatherSeen, WaveRegs};
use crate::view::WaveView;

/// Whether the node's wave registers fit its father's; they do exactly where no mending row is enabled.
pub fn wave_good(view: &WaveView) -> bool
    ensures predicate { IsTrue result ↔ FatherHolds view.now.modulus view.now.own view.now.father }
    ensures table { (asked : List (ℕ × WaveRegs)) → result ≡ no_mend (wave_table view.now asked) }
{
    match view.father() {
        FatherSeen::Is(up) => fits(view.modulus(), view.own(), up),
        FatherSeen::Itself | FatherSeen::Lost => true,
    }
}

// Whether registers fit those of the father, a neighbour.
fn fits(modulus: Modulus, own: WaveRegs, up: WaveRegs) -> bool
    ensures { IsTrue result ↔ WaveHolds modulus own up }
{
    let same = own.session == up.session;
    let behind = !own.phase.is_reset() & modulus.follows(up.session, own.session);
    if up.phase.is_reset() {
        same | behind
    } else {
        !own.phase.is_reset() & same
    }
}
