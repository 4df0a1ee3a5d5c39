// The tree table, and what is asked of it.

ghost use Rattle.std.specs.Prelude.{◌≡◌, ◌≤◌, ◌↔◌, [], ℕ, List, IsTrue, length, map};
ghost use Rattle.action_tables.specs.RowText.{as_printed};
ghost use Rattle.action_tables.specs.Table.{enabled_of, fired_of, fired_toward, printed};
ghost use Rattle.tree_layer.specs.declared.regs.TreeRefusal.TheVariants.{NoSuchCase, NotEnabled, StrangeNeighbour};
ghost use Rattle.tree_layer.specs.TreeTable.{LocalView, tree_fired, tree_table};
ghost use Rattle.tree_layer.specs.declared.regs.TreeRegs.{TreeRegs};

use crate::effects::{adopted, claimed, followed};
use crate::guards::{
    has_other_dist, has_other_root, is_far, is_low, is_odd_root, is_stray, some_greater_root,
    some_shorter_way,
};
use crate::regs::{TreeRefusal, TreeRegs};
use crate::view::TreeView;
use action_tables::{CaseRow, CaseSet, case_rows, enabled_cases, fire_case, regs_of};

// The rows, for the macro that is named. `$asked` are the neighbours that rows 7 and 8 may adopt.
macro_rules! tree_table {
    ($then:ident!($($args:tt)*); $view:ident, $asked:ident) => {
        $then! {
            ($($args)*)
            1 "claim-low" | "root < id" | "root, father, dist := id, id, 0":
                is_low($view) => Ok(claimed($view));
            2 "claim-self" | "father = id, and root != id or dist != 0" | "root, father, dist := id, id, 0":
                is_odd_root($view) => Ok(claimed($view));
            3 "claim-stray" | "father is neither id nor a neighbour" | "root, father, dist := id, id, 0":
                is_stray($view) => Ok(claimed($view));
            4 "claim-far" | "dist >= K" | "root, father, dist := id, id, 0":
                is_far($view) => Ok(claimed($view));
            5 "follow-root" | "father = j a neighbour, dist < K, root != root.j"
                | "root, dist := root.j, min(dist.j + 1, K)":
                has_other_root($view) => Ok(followed($view));
            6 "follow-dist" | "father = j a neighbour, dist < K, root = root.j, dist != dist.j + 1"
                | "root, dist := root.j, min(dist.j + 1, K)":
                has_other_dist($view) => Ok(followed($view));
            7 "adopt-root" | "j a neighbour, dist.j < K, root < root.j" | "root, father, dist := root.j, j, dist.j + 1":
                some_greater_root($view, $asked) => Ok(adopted($view, $asked));
            8 "adopt-short" | "j a neighbour, dist.j < K, root = root.j, dist.j + 1 < dist"
                | "root, father, dist := root.j, j, dist.j + 1":
                some_shorter_way($view, $asked) => Ok(adopted($view, $asked));
        }
    };
}

/// The rows of the tree table that are enabled. Rows 7 and 8 are where they are at some neighbour.
pub fn tree_enabled(view: &TreeView) -> CaseSet
    ensures { result ≡ enabled_of (tree_table view.now view.now.near) }
{
    let near = view.near();
    tree_table!(enabled_cases!(); view, near)
}

/// Whether no row of the tree table is enabled.
pub fn tree_good(view: &TreeView) -> bool
    ensures { IsTrue result ↔ enabled_of (tree_table view.now view.now.near) ≡ [] }
{
    tree_enabled(view).count() == 0
}

/// Fires row `case`, from 1 to 8, of the tree table: the node's registers afterwards, or the first
/// refusal.
///
/// Rows 7 and 8 name the neighbour that is adopted; no other row names one.
pub fn tree_fire(view: &TreeView, case: u8, from: Option<u32>) -> Result<TreeRegs, TreeRefusal>
    ensures { result ≡ tree_fired view.now case from }
{
    if case < 1 || case > 8 {
        return Err(TreeRefusal::NoSuchCase);
    }
    let names_neighbour = case == 7 || case == 8;
    match from {
        None => {
            if names_neighbour {
                Err(TreeRefusal::StrangeNeighbour)
            } else {
                fire_row(view, case, &[])
            }
        }
        Some(id) => {
            if names_neighbour {
                fire_from(view, case, id, regs_of(view.near(), id))
            } else {
                Err(TreeRefusal::StrangeNeighbour)
            }
        }
    }
}

// Row 7 or 8, with the registers of the neighbour that it names.
fn fire_from(
    view: &TreeView,
    case: u8,
    id: u32,
    regs: Option<TreeRegs>,
) -> Result<TreeRegs, TreeRefusal>
    ensures { result
        ≡ fired_toward StrangeNeighbour (λ asked. fired_of NoSuchCase NotEnabled (tree_table view.now asked) case) id
        regs }
{
    match regs {
        Some(regs) => fire_row(view, case, &[(id, regs)]),
        None => Err(TreeRefusal::StrangeNeighbour),
    }
}

// A row, with the neighbour that it names, if any.
fn fire_row(view: &TreeView, case: u8, asked: &[(u32, TreeRegs)]) -> Result<TreeRegs, TreeRefusal>
    requires { length asked.now ≤ 1 }
    ensures { result ≡ fired_of NoSuchCase NotEnabled (tree_table view.now asked.now) case }
{
    tree_table!(fire_case!(case, TreeRefusal::NoSuchCase, TreeRefusal::NotEnabled); view, asked)
}

/// The rows of the tree table as they are printed.
pub fn tree_rows() -> [CaseRow<'static>; 8]
    ensures { (v : LocalView) (asked : List (ℕ × TreeRegs)) → map as_printed result ≡ map printed (tree_table v asked) }
{
    tree_table!(case_rows!(); view, asked)
}
