// The routes' link table, and what is asked of it.
ghost use Rattle.std.specs.Prelude.{◌≡◌, ℕ, List, map};
ghost use Rattle.std.specs.List.{list_any};
ghost use Rattle.action_tables.specs.RowText.{as_printed};
ghost use Rattle.action_tables.specs.Table.{printed};
ghost use Rattle.app_routes.specs.RoutesLinks.{leads_no_nearer, leads_nowhere, leads_over};
ghost use Rattle.app_routes.specs.RoutesLinks.{routes_link_fault, routes_links};
ghost use Rattle.app_routes.specs.declared.entry.Entry.{Entry};

use crate::entry::Entry;
use crate::local::RoutesLocal;
use action_tables::{CaseRow, case_rows, enabled_cases};

// The rows, for the macro that is named. A row that holds is a fault, and does nothing.
macro_rules! routes_links {
    ($then:ident!($($args:tt)*); $own:ident, $other:ident, $theirs:ident) => {
        $then! {
            ($($args)*)
            1 "no-entry" | "own entry (d, h, other) with h > 0, other has no entry for d" | "fault":
                some_lead_nowhere($own, $other, $theirs) => ();
            2 "not-nearer"
                | "own entry (d, h, other) with h > 0, other's entry for d has more than h - 1 hops" | "fault":
                some_lead_no_nearer($own, $other, $theirs) => ();
        }
    };
}

/// The least row of the link table that holds, asked at a node of its link to `other`. None where the
/// link is good.
#[tactic(auto, unfolding(action_tables::specs::Numbers::with_number_if, action_tables::specs::Table::enabled_of))]
pub fn link_ok(own: &RoutesLocal, other: u32, theirs: &RoutesLocal) -> Option<u8>
    ensures { result ≡ routes_link_fault other own.now theirs.now }
{
    routes_links!(enabled_cases!(); own, other, theirs).first()
}

// Whether some own entry leads over the neighbour to a destination that it has no entry for.
fn some_lead_nowhere(own: &RoutesLocal, other: u32, theirs: &RoutesLocal) -> bool
    ensures { result ≡ list_any (leads_nowhere other theirs.now) own.now }
{
    own.entries()
        .iter()
        .any(|entry| leads_nowhere(other, theirs, entry))
}

// Whether some own entry leads over the neighbour to a destination that it isn't nearer to.
fn some_lead_no_nearer(own: &RoutesLocal, other: u32, theirs: &RoutesLocal) -> bool
    ensures { result ≡ list_any (leads_no_nearer other theirs.now) own.now }
{
    own.entries()
        .iter()
        .any(|entry| leads_no_nearer(other, theirs, entry))
}

// Whether the entry leads over the neighbour to a destination that it has no entry for.
fn leads_nowhere(other: u32, theirs: &RoutesLocal, entry: &Entry) -> bool
    ensures { result ≡ leads_nowhere other theirs.now entry.now }
{
    leads_over(other, entry) && theirs.hops_to(entry.destination).is_none()
}

// Whether the entry leads over the neighbour to a destination that it isn't nearer to.
fn leads_no_nearer(other: u32, theirs: &RoutesLocal, entry: &Entry) -> bool
    ensures { result ≡ leads_no_nearer other theirs.now entry.now }
{
    // Most entries lead over other neighbours: theirs isn't searched for these.
    if !leads_over(other, entry) {
        return false;
    }
    match theirs.hops_to(entry.destination) {
        // More than `entry.hops - 1`, as it has one hop at least.
        Some(hops) => hops >= entry.hops,
        None => false,
    }
}

// Whether the entry is a way over the neighbour, of one link at least.
fn leads_over(other: u32, entry: &Entry) -> bool
    ensures { result ≡ leads_over other entry.now }
{
    entry.hops > 0 && entry.next == other
}

/// The rows of the routes' link table as they are printed.
pub fn link_rows() -> [CaseRow<'static>; 2]
    ensures { (j : ℕ) (own theirs : List Entry) → map as_printed result ≡ map printed (routes_links j own theirs) }
{
    routes_links!(case_rows!(); own, other, theirs)
}
