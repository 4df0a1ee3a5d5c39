// The table of neighbour exclusion, and what is asked of it.
ghost use Rattle.std.specs.Prelude.{◌≡◌, ◌≢◌, ◌↔◌, Bool, None, Some, Err, IfOk, is_some, map, option_map};
ghost use Rattle.action_tables.specs.RowText.{as_printed};
ghost use Rattle.action_tables.specs.Table.{printed};
ghost use Rattle.app_interface.specs.Views.{seen_values};
ghost use Rattle.app_mutex.specs.Mutex.{holds_turns, mutex_names, mutex_next, mutex_table};
ghost use Rattle.app_mutex.specs.declared.local.MutexLocal.{MutexLocal};

use crate::local::MutexLocal;
use crate::turn::holds_turn;
use action_tables::{CaseRow, case_rows, enabled_cases, fire_case};
use app_interface::{ClockRefusal, Seen};

// The rows, for the macro that is named. `$held` says whether the turn of each link is held.
macro_rules! mutex_table {
    ($then:ident!($($args:tt)*); $own:ident, $held:ident) => {
        $then! {
            ($($args)*)
            1 "enter" | "not in, every link's turn is held" | "in := yes":
                !$own.inside & $held => Ok(MutexLocal { inside: true, bit: $own.bit });
            2 "leave" | "in" | "in := no; bit := not bit":
                $own.inside => Ok(MutexLocal { inside: false, bit: !$own.bit });
        }
    };
}

/// Whether the case is enabled, where no neighbour is named.
#[tactic(auto, unfolding(action_tables::specs::Numbers::with_number_if))]
pub fn can(
    id: u32,
    case: u8,
    with: Option<u32>,
    own: &MutexLocal,
    seen: &[Seen<'_, MutexLocal>],
) -> bool
    ensures { result ≡ is_some (mutex_next id case with own.now (seen_values seen.now)) }
{
    let held = holds_turns(id, own.bit, seen);
    with.is_none() && mutex_table!(enabled_cases!(); own, held).has(case)
}

/// What the case leaves, or `NotEnabled` exactly where it isn't enabled. It wants no memory.
pub fn on_clock(
    id: u32,
    case: u8,
    with: Option<u32>,
    own: &MutexLocal,
    seen: &[Seen<'_, MutexLocal>],
) -> Result<MutexLocal, ClockRefusal>
    ensures ok { IfOk result (λ new. mutex_next id case with own.now (seen_values seen.now) ≡ Some new) }
    ensures not_enabled { result ≡ Err ClockRefusal.NotEnabled
        ↔ mutex_next id case with own.now (seen_values seen.now) ≡ None }
    ensures memory { result ≢ Err ClockRefusal.NoMemory }
{
    if with.is_some() {
        return Err(ClockRefusal::NotEnabled);
    }
    let held = holds_turns(id, own.bit, seen);
    mutex_table!(fire_case!(case, ClockRefusal::NotEnabled, ClockRefusal::NotEnabled); own, held)
}

// Whether the node holds the turns of its links to all neighbours that it sees.
fn holds_turns(id: u32, bit: bool, seen: &[Seen<'_, MutexLocal>]) -> bool
    ensures { result ≡ holds_turns id bit (seen_values seen.now) }
{
    for near in seen {
        if !holds_turn(id, bit, near.id, near.local.bit) {
            return false;
        }
    }
    true
}

/// The rows of the table of neighbour exclusion as they are printed.
pub fn app_rows() -> [CaseRow<'static>; 2]
    ensures { (own : MutexLocal) (held : Bool) → map as_printed result ≡ map printed (mutex_table own held) }
{
    mutex_table!(case_rows!(); own, held)
}

/// What a case is called.
pub fn case_name(case: u8) -> Option<&'static str>
    ensures { option_map (λ name. name.now) result ≡ mutex_names case }
{
    let [enter, leave] = app_rows();
    match case {
        1 => Some(enter.name),
        2 => Some(leave.name),
        _ => None,
    }
}
