// The routes' table: the one row, and what the cases do.
ghost use Rattle.std.specs.Prelude.{◌≡◌, ◌≢◌, ◌↔◌, ℕ, List, None, Some, Err, IfOk, is_some, map, option_map};
ghost use Rattle.std.specs.Result.{result_ok};
ghost use Rattle.action_tables.specs.RowText.{as_printed};
ghost use Rattle.action_tables.specs.Table.{fired_of, printed};
ghost use Rattle.app_interface.specs.Views.{seen_values};
ghost use Rattle.app_interface.specs.declared.refusal.ClockRefusal.TheVariants.{NotEnabled};
ghost use Rattle.topology.specs.Id.{IsId};
ghost use Rattle.app_routes.specs.Entries.{AreRoutes, pulled, some_better};
ghost use Rattle.app_routes.specs.Routes.{entries_of, routes_names, routes_next, routes_table};
ghost use Rattle.app_routes.specs.declared.entry.Entry.{Entry};

use crate::entry::Entry;
use crate::local::RoutesLocal;
use crate::pull;
use action_tables::{CaseRow, case_rows, enabled_cases, fire_case};
use app_interface::{ClockRefusal, Here, Seen, named_id, seen_at};
use std::alloc::Global;

// The row, for the macro that is named. `$better` says whether some entry of the neighbour `$j`, of
// those in `$theirs`, is better than what the node has.
macro_rules! routes_table {
    ($then:ident!($($args:tt)*); $alloc:ident, $bound:ident, $own:ident, $j:ident, $theirs:ident, $better:ident) => {
        $then! {
            ($($args)*)
            1 "pull" | "some entry of j is better" | "each better entry (d, h, n) of j sets own entry (d, h + 1, j)":
                $better => pulled($alloc, $bound, $j, $own, $theirs);
        }
    };
}

/// Whether the case is enabled toward the neighbour that is named.
#[tactic(auto, unfolding(action_tables::specs::Numbers::with_number_if))]
pub fn can(
    here: Here,
    case: u8,
    with: Option<u32>,
    own: &RoutesLocal,
    seen: &[Seen<'_, RoutesLocal>],
) -> bool
    ensures { result ≡ is_some (routes_next here.k case with own.now (seen_values seen.now)) }
{
    match named_id(with) {
        Some(j) => {
            let theirs = entries_of(j, seen);
            let better = pull::some_better(here.k, own, theirs);
            routes_table!(enabled_cases!(); alloc, bound, own, j, theirs, better).has(case)
        }
        None => false,
    }
}

/// What the case leaves, or `NotEnabled` exactly where it isn't enabled.
pub fn on_clock(
    alloc: Global,
    here: Here,
    case: u8,
    with: Option<u32>,
    own: &RoutesLocal,
    seen: &[Seen<'_, RoutesLocal>],
) -> Result<RoutesLocal, ClockRefusal>
    ensures ok { IfOk result (λ new. routes_next here.k case with own.now (seen_values seen.now) ≡ Some new) }
    ensures not_enabled { result ≡ Err ClockRefusal.NotEnabled
        ↔ routes_next here.k case with own.now (seen_values seen.now) ≡ None }
{
    match named_id(with) {
        Some(j) => fire(alloc, here.k, case, own, j, entries_of(j, seen)),
        None => Err(ClockRefusal::NotEnabled),
    }
}

// Fires one row.
fn fire(
    alloc: Global,
    bound: u32,
    case: u8,
    own: &RoutesLocal,
    j: u32,
    theirs: &[Entry],
) -> Result<RoutesLocal, ClockRefusal>
    requires neighbour { IsId j }
    requires theirs { AreRoutes theirs.now }
    ensures ok { IfOk result
        (λ new. result_ok (fired_of NotEnabled NotEnabled (routes_table bound j own.now theirs.now) case) ≡ Some new) }
    ensures not_enabled { result ≡ Err NotEnabled
        ↔ result_ok (fired_of NotEnabled NotEnabled (routes_table bound j own.now theirs.now) case) ≡ None }
{
    let better = pull::some_better(bound, own, theirs);
    routes_table!(fire_case!(case, ClockRefusal::NotEnabled, ClockRefusal::NotEnabled);
        alloc, bound, own, j, theirs, better)
}

// The node's entries after each better one of the neighbour is taken.
fn pulled(
    alloc: Global,
    bound: u32,
    j: u32,
    own: &RoutesLocal,
    theirs: &[Entry],
) -> Result<RoutesLocal, ClockRefusal>
    requires neighbour { IsId j }
    requires theirs { AreRoutes theirs.now }
    ensures ok { IfOk result (λ new. new ≡ pulled bound j own.now theirs.now) }
    ensures err { result ≢ Err NotEnabled }
{
    Ok(pull::pulled(alloc, bound, j, own, theirs)?)
}

// The entries of the neighbour, none where it isn't seen.
fn entries_of<'a>(j: u32, seen: &[Seen<'a, RoutesLocal>]) -> &'a [Entry]
    ensures value { result.now ≡ entries_of j (seen_values seen.now) }
    ensures routes { AreRoutes result.now }
{
    match seen_at(j, seen) {
        Some(theirs) => theirs.entries(),
        None => &[],
    }
}

/// The row of the routes' table as it is printed.
pub fn app_rows() -> [CaseRow<'static>; 1]
    ensures { (bound j : ℕ) (own theirs : List Entry)
        → map as_printed result ≡ map printed (routes_table bound j own theirs) }
{
    routes_table!(case_rows!(); alloc, bound, own, j, theirs, better)
}

/// What a case is called.
pub fn case_name(case: u8) -> Option<&'static str>
    ensures { option_map (λ name. name.now) result ≡ routes_names case }
{
    let [pull] = app_rows();
    match case {
        1 => Some(pull.name),
        _ => None,
    }
}
