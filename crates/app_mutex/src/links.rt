// The link table of neighbour exclusion, and what is asked of it.
ghost use Rattle.std.specs.Prelude.{◌≡◌, ℕ, map};
ghost use Rattle.action_tables.specs.RowText.{as_printed};
ghost use Rattle.action_tables.specs.Table.{printed};
ghost use Rattle.app_mutex.specs.MutexLinks.{mutex_link_fault, mutex_links};
ghost use Rattle.app_mutex.specs.declared.local.MutexLocal.{MutexLocal};

use crate::local::MutexLocal;
use crate::turn::holds_turn;
use action_tables::{CaseRow, case_rows, enabled_cases};

// The rows, for the macro that is named. A row that holds is a fault, and does nothing.
macro_rules! mutex_links {
    ($then:ident!($($args:tt)*); $id:ident, $own:ident, $other:ident, $theirs:ident) => {
        $then! {
            ($($args)*)
            1 "two-in" | "own is in, other is in" | "fault":
                $own.inside & $theirs.inside => ();
            2 "no-turn" | "own is in, the turn is the other's" | "fault":
                $own.inside & holds_turn($other, $theirs.bit, $id, $own.bit) => ();
        }
    };
}

/// The least row of the link table that holds, asked at node `id` of its link to `other`. None where
/// the link is good.
#[tactic(auto, unfolding(action_tables::specs::Numbers::with_number_if, action_tables::specs::Table::enabled_of))]
pub fn link_ok(id: u32, own: &MutexLocal, other: u32, theirs: &MutexLocal) -> Option<u8>
    ensures { result ≡ mutex_link_fault id other own.now theirs.now }
{
    mutex_links!(enabled_cases!(); id, own, other, theirs).first()
}

/// The rows of the link table of neighbour exclusion as they are printed.
pub fn link_rows() -> [CaseRow<'static>; 2]
    ensures { (i j : ℕ) (own theirs : MutexLocal) → map as_printed result ≡ map printed (mutex_links i j own theirs) }
{
    mutex_links!(case_rows!(); id, own, other, theirs)
}
