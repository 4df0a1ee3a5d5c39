// The row that fails at a node, or at its end of a link.

ghost use Rattle.std.specs.Prelude.{◌≡◌, ◌≢◌, ◌<◌, [], ◌∷◌};
ghost use Rattle.action_tables.specs.Table.{enabled_of};
ghost use Rattle.tree_layer.specs.TreeTable.{IsView, tree_table};
ghost use Rattle.link_predicates.specs.Faults.{app_row, first_enabled, mending_row, tree_row, wave_row};

use crate::end::End;
use action_tables::CaseSet;
use app_interface::{Application, Here};
use tree_layer::{TreeRegs, TreeView, tree_enabled};
use wave_layer::{FatherSeen, Modulus, WaveRegs, WaveView, wave_enabled};

// The first of these rows that is enabled.
fn first_enabled(rows: &[u8], enabled: CaseSet) -> Option<u8>
    ensures { result ≡ first_enabled rows.now enabled }
{
    for row in rows {
        if enabled.has(*row) {
            return Some(*row);
        }
    }
    None
}

// Of rows 1 to 4 of the tree table the first that is enabled, where the node sees these neighbours.
pub(crate) fn own_row(k: u32, id: u32, own: TreeRegs, near: &[(u32, TreeRegs)]) -> Option<u8>
    requires { IsView id k near.now }
    ensures { result
        ≡ first_enabled (1 ∷ 2 ∷ 3 ∷ 4 ∷ [])
        (enabled_of (tree_table (record { id = id; bound = k; own = own; near = near.now }) near.now)) }
{
    let view = TreeView::new(id, k, own, near).unwrap();
    first_enabled(&[1, 2, 3, 4], tree_enabled(&view))
}

// The first row of the tree table that fails at a node's end of a link.
pub(crate) fn tree_row<P: Application>(k: u32, own: &End<'_, P>, other: &End<'_, P>) -> Option<u8>
    requires bounded { 0 < k }
    requires others { other.now.id ≢ own.now.id }
    ensures { result ≡ tree_row k own.now other.now }
{
    let near = [(other.id, other.tree)];
    let view = TreeView::new(own.id, k, own.tree, &near).unwrap();
    first_enabled(&[5, 6, 7, 8], tree_enabled(&view))
}

// The first row of the wave table that fails at a node's end of a link.
pub(crate) fn wave_row<P: Application>(
    modulus: Modulus,
    own: &End<'_, P>,
    other: &End<'_, P>,
) -> Option<u8>
    ensures { result ≡ wave_row modulus own.now other.now }
{
    if own.tree.father == other.id {
        mending_row(modulus, own.wave, other.wave)
    } else {
        None
    }
}

// Of rows 8 to 11 of the wave table the first that is enabled, where the father has these registers.
fn mending_row(modulus: Modulus, own: WaveRegs, up: WaveRegs) -> Option<u8>
    ensures { result ≡ mending_row modulus own up }
{
    let view = WaveView::new(own, FatherSeen::Is(up), &[], modulus).unwrap();
    first_enabled(&[8, 9, 10, 11], wave_enabled(&view))
}

// The first row of the application's link table that fails at a node's end of a link.
pub(crate) fn app_row<P: Application>(k: u32, own: &End<'_, P>, other: &End<'_, P>) -> Option<u8>
    ensures { result ≡ app_row P.app k own.now other.now }
{
    if own.wave.session == other.wave.session {
        P::link_ok(Here { id: own.id, k }, own.local, other.id, other.local)
    } else {
        None
    }
}
