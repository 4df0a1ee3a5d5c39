// The wave table, and what is asked of it.

ghost use Rattle.std.specs.Prelude.{◌≡◌, ℕ, List, map};
ghost use Rattle.action_tables.specs.RowText.{as_printed};
ghost use Rattle.action_tables.specs.Table.{enabled_of, fired_of, fired_toward, printed};
ghost use Rattle.wave_layer.specs.declared.regs.WaveRegs.{WaveRegs};
ghost use Rattle.wave_layer.specs.declared.regs.WaveRefusal.TheVariants.{NoSuchCase, NotChild, NotEnabled};
ghost use Rattle.wave_layer.specs.declared.table.TheConstants.{RELAY};
ghost use Rattle.wave_layer.specs.WaveTable.{LocalView, wave_fired, wave_table};

use crate::effects::{asked, completed, finished, joined, mended, opened};
use crate::guards::{
    differs_awake, differs_reset, is_asked, is_late, is_normal, joins_asked, joins_normal,
    may_complete, may_finish, may_open, resets_alone,
};
use crate::regs::{WaveMove, WaveRefusal, WaveRegs};
use crate::view::WaveView;
use action_tables::{CaseRow, CaseSet, case_rows, enabled_cases, fire_case, regs_of};

// The only row that names a child, the relay.
const RELAY: u8 = 2;

// The rows, for the macro that is named. `$asked` are the children that the relay may ask.
macro_rules! wave_table {
    ($then:ident!($($args:tt)*); $view:ident, $asked:ident) => {
        $then! {
            ($($args)*)
            1 "request" | "phase = normal" | "phase := initiate":
                is_normal($view) => asked($view);
            2 "relay" | "phase = normal, child c is initiate" | "phase := initiate":
                is_asked($view, $asked) => asked($view);
            3 "open" | "father = id, phase = initiate" | "phase, session := reset, session + 1 mod M; restart":
                may_open($view) => opened($view);
            4 "join-normal" | "father j is reset, phase = normal, session.j = session + 1 mod M"
                | "phase, session := reset, session.j; restart":
                joins_normal($view) => joined($view);
            5 "join-asked" | "father j is reset, phase = initiate, session.j = session + 1 mod M"
                | "phase, session := reset, session.j; restart":
                joins_asked($view) => joined($view);
            6 "finish" | "father != id, phase = reset, every child is not reset and has session" | "phase := normal":
                may_finish($view) => finished($view);
            7 "finish-root" | "father = id, phase = reset, every child is not reset and has session"
                | "phase := normal; complete":
                may_complete($view) => completed($view);
            8 "mend-reset" | "father j is not reset, phase = reset" | "phase, session := phase.j, session.j":
                resets_alone($view) => mended($view);
            9 "mend-number" | "father j is not reset, phase != reset, session != session.j"
                | "phase, session := phase.j, session.j":
                differs_awake($view) => mended($view);
            10 "mend-both" | "father j is reset, phase = reset, session != session.j"
                | "phase, session := phase.j, session.j":
                differs_reset($view) => mended($view);
            11 "mend-late" | "father j is reset, phase != reset, session.j is neither session nor session + 1 mod M"
                | "phase, session := phase.j, session.j":
                is_late($view) => mended($view);
        }
    };
}

/// The rows of the wave table that are enabled. Row 2, the relay, is where it is at some child.
pub fn wave_enabled(view: &WaveView) -> CaseSet
    ensures { result ≡ enabled_of (wave_table view.now view.now.children) }
{
    let children = view.children();
    wave_table!(enabled_cases!(); view, children)
}

/// Fires row `case`, from 1 to 11, of the wave table: what it does to the node, or the first refusal.
///
/// Row 2, the relay, names the child that asks; no other row names one.
pub fn wave_fire(view: &WaveView, case: u8, child: Option<u32>) -> Result<WaveMove, WaveRefusal>
    ensures { result ≡ wave_fired view.now case child }
{
    if case < 1 || case > 11 {
        return Err(WaveRefusal::NoSuchCase);
    }
    match child {
        None => {
            if case == RELAY {
                Err(WaveRefusal::NotChild)
            } else {
                fire_row(view, case, &[])
            }
        }
        Some(id) => {
            if case == RELAY {
                fire_relay(view, id, regs_of(view.children(), id))
            } else {
                Err(WaveRefusal::NotChild)
            }
        }
    }
}

// Row 2, with the registers of the child that it names.
fn fire_relay(view: &WaveView, id: u32, child: Option<WaveRegs>) -> Result<WaveMove, WaveRefusal>
    ensures { result
        ≡ fired_toward NotChild (λ asked. fired_of NoSuchCase NotEnabled (wave_table view.now asked) RELAY) id child }
{
    match child {
        Some(regs) => fire_row(view, RELAY, &[(id, regs)]),
        None => Err(WaveRefusal::NotChild),
    }
}

// A row, with the child that it names, if any.
fn fire_row(
    view: &WaveView,
    case: u8,
    children: &[(u32, WaveRegs)],
) -> Result<WaveMove, WaveRefusal>
    ensures { result ≡ fired_of NoSuchCase NotEnabled (wave_table view.now children.now) case }
{
    wave_table!(fire_case!(case, WaveRefusal::NoSuchCase, WaveRefusal::NotEnabled); view, children)
}

/// The rows of the wave table as they are printed.
pub fn wave_rows() -> [CaseRow<'static>; 11]
    ensures { (v : LocalView) (asked : List (ℕ × WaveRegs)) → map as_printed result ≡ map printed (wave_table v asked) }
{
    wave_table!(case_rows!(); view, children)
}
