// The token table, and what is asked of it.
ghost use Rattle.std.specs.Prelude.{◌≡◌, ◌≢◌, ◌↔◌, ℕ, Bool, None, Some, Err, IfOk, is_some, map, option_map};
ghost use Rattle.std.specs.Result.{result_ok};
ghost use Rattle.action_tables.specs.RowText.{as_printed};
ghost use Rattle.action_tables.specs.Table.{fired_of, printed};
ghost use Rattle.app_interface.specs.Views.{seen_values};
ghost use Rattle.app_interface.specs.declared.refusal.ClockRefusal.TheVariants.{NotEnabled};
ghost use Rattle.topology.specs.Id.{IsId};
ghost use Rattle.app_token.specs.Bits.{toggled};
ghost use Rattle.app_token.specs.Token.{arrives, token_names, token_next, token_table};
ghost use Rattle.app_token.specs.declared.local.TokenLocal.{TokenLocal};

use crate::links::is_in_flight;
use crate::local::TokenLocal;
use action_tables::{CaseRow, case_rows, enabled_cases, fire_case};
use app_interface::{ClockRefusal, Here, Seen, named_id, seen_at};
use std::alloc::Global;

// The rows, for the macro that is named. `$arrives` says whether the token is on its way from the
// neighbour `$j`.
macro_rules! token_table {
    ($then:ident!($($args:tt)*); $alloc:ident, $own:ident, $j:ident, $arrives:ident) => {
        $then! {
            ($($args)*)
            1 "pass" | "hold" | "hold := no; given[j] := not given[j]":
                $own.hold => passed($alloc, $own, $j);
            2 "take" | "not hold, given.j[id] != taken[j]" | "hold := yes; taken[j] := not taken[j]":
                !$own.hold & $arrives => taken($alloc, $own, $j);
        }
    };
}

/// Whether the case is enabled toward the neighbour that is named.
#[tactic(auto, unfolding(action_tables::specs::Numbers::with_number_if))]
pub fn can(
    here: Here,
    case: u8,
    with: Option<u32>,
    own: &TokenLocal,
    seen: &[Seen<'_, TokenLocal>],
) -> bool
    ensures { result ≡ is_some (token_next here.id case with own.now (seen_values seen.now)) }
{
    match named_id(with) {
        Some(j) => {
            let arriving = arrives(here.id, j, own, seen);
            token_table!(enabled_cases!(); alloc, own, j, arriving).has(case)
        }
        None => false,
    }
}

/// What the case leaves, or `NotEnabled` exactly where it isn't enabled.
pub fn on_clock(
    alloc: Global,
    here: Here,
    case: u8,
    with: Option<u32>,
    own: &TokenLocal,
    seen: &[Seen<'_, TokenLocal>],
) -> Result<TokenLocal, ClockRefusal>
    ensures ok { IfOk result (λ new. token_next here.id case with own.now (seen_values seen.now) ≡ Some new) }
    ensures not_enabled { result ≡ Err ClockRefusal.NotEnabled
        ↔ token_next here.id case with own.now (seen_values seen.now) ≡ None }
{
    match named_id(with) {
        Some(j) => fire(alloc, case, own, j, arrives(here.id, j, own, seen)),
        None => Err(ClockRefusal::NotEnabled),
    }
}

// Fires one row.
fn fire(
    alloc: Global,
    case: u8,
    own: &TokenLocal,
    j: u32,
    arriving: bool,
) -> Result<TokenLocal, ClockRefusal>
    requires { IsId j }
    ensures ok { IfOk result
        (λ new. result_ok (fired_of NotEnabled NotEnabled (token_table j own.now arriving) case) ≡ Some new) }
    ensures not_enabled { result ≡ Err NotEnabled
        ↔ result_ok (fired_of NotEnabled NotEnabled (token_table j own.now arriving) case) ≡ None }
{
    token_table!(fire_case!(case, ClockRefusal::NotEnabled, ClockRefusal::NotEnabled); alloc, own, j, arriving)
}

// The node without the token, and its given bit for the neighbour turned over.
fn passed(alloc: Global, own: &TokenLocal, j: u32) -> Result<TokenLocal, ClockRefusal>
    requires { IsId j }
    ensures ok { IfOk result
        (λ new. new ≡ record { hold = Bool.false; given = toggled own.now.given j; taken = own.now.taken }) }
    ensures err { result ≢ Err NotEnabled }
{
    Ok(TokenLocal {
        hold: false,
        given: own.given.toggled(alloc, j)?,
        taken: own.taken.copy(alloc)?,
    })
}

// The node with the token, and its taken bit for the neighbour turned over.
fn taken(alloc: Global, own: &TokenLocal, j: u32) -> Result<TokenLocal, ClockRefusal>
    requires { IsId j }
    ensures ok { IfOk result
        (λ new. new ≡ record { hold = Bool.true; given = own.now.given; taken = toggled own.now.taken j }) }
    ensures err { result ≢ Err NotEnabled }
{
    Ok(TokenLocal {
        hold: true,
        given: own.given.copy(alloc)?,
        taken: own.taken.toggled(alloc, j)?,
    })
}

// Whether the token is on its way here from the neighbour.
fn arrives(id: u32, j: u32, own: &TokenLocal, seen: &[Seen<'_, TokenLocal>]) -> bool
    ensures { result ≡ arrives id j own.now (seen_values seen.now) }
{
    match seen_at(j, seen) {
        Some(theirs) => is_in_flight(j, id, theirs, own),
        None => false,
    }
}

/// The rows of the token table as they are printed.
pub fn app_rows() -> [CaseRow<'static>; 2]
    ensures { (j : ℕ) (own : TokenLocal) (arriving : Bool)
        → map as_printed result ≡ map printed (token_table j own arriving) }
{
    token_table!(case_rows!(); alloc, own, j, arriving)
}

/// What a case is called.
pub fn case_name(case: u8) -> Option<&'static str>
    ensures { option_map (λ name. name.now) result ≡ token_names case }
{
    let [pass, take] = app_rows();
    match case {
        1 => Some(pass.name),
        2 => Some(take.name),
        _ => None,
    }
}
