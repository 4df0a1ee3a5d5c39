// The link table of the token, and what is asked of it.
ghost use Rattle.std.specs.Prelude.{◌≡◌, ℕ, map};
ghost use Rattle.action_tables.specs.RowText.{as_printed};
ghost use Rattle.action_tables.specs.Table.{printed};
ghost use Rattle.app_token.specs.TokenLinks.{is_in_flight, token_link_fault, token_links};
ghost use Rattle.app_token.specs.declared.local.TokenLocal.{TokenLocal};

use crate::local::TokenLocal;
use action_tables::{CaseRow, case_rows, enabled_cases};

// The rows, for the macro that is named. `$leaves` says whether a bit is in flight from the node to
// its neighbour, and `$arrives` whether one is in flight from the neighbour to the node.
macro_rules! token_links {
    ($then:ident!($($args:tt)*); $own:ident, $theirs:ident, $leaves:ident, $arrives:ident) => {
        $then! {
            ($($args)*)
            1 "two-hold" | "own holds, other holds" | "fault":
                $own.hold & $theirs.hold => ();
            2 "hold-and-flight" | "own or other holds, a bit is in flight on the link" | "fault":
                ($own.hold | $theirs.hold) & ($leaves | $arrives) => ();
            3 "two-flights" | "bits are in flight in both directions" | "fault":
                $leaves & $arrives => ();
        }
    };
}

/// The least row of the link table that holds, asked at the node `id` of its link to `other`. None
/// where the link is good.
pub fn link_ok(id: u32, own: &TokenLocal, other: u32, theirs: &TokenLocal) -> Option<u8>
    ensures { result ≡ token_link_fault id other own.now theirs.now }
{
    let leaves = is_in_flight(id, other, own, theirs);
    let arrives = is_in_flight(other, id, theirs, own);
    token_links!(enabled_cases!(); own, theirs, leaves, arrives).first()
}

/// Whether a bit is in flight from the one end of a link to the other.
pub fn is_in_flight(from: u32, to: u32, sender: &TokenLocal, receiver: &TokenLocal) -> bool
    ensures { result ≡ is_in_flight from to sender.now receiver.now }
{
    sender.given.has(to) != receiver.taken.has(from)
}

/// The rows of the token's link table as they are printed.
pub fn link_rows() -> [CaseRow<'static>; 3]
    ensures { (i j : ℕ) (own theirs : TokenLocal) → map as_printed result ≡ map printed (token_links i j own theirs) }
{
    token_links!(case_rows!(); own, theirs, leaves, arrives)
}
