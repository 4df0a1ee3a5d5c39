// Why an entry of a history isn't allowed where it stands.

ghost use Rattle.std.specs.Prelude.{◌≡◌, ◌++◌, if◌then◌else◌, IfErr, IfOk, None, OnErr, OnOk, map, option_map};
ghost use Rattle.std.specs.Io.KnownBytes.{Appends};
ghost use Rattle.std.specs.List.{flat_map};
ghost use Rattle.action_tables.specs.RowText.{as_printed};
ghost use Rattle.action_tables.specs.Written.{AppendsPrefix};
ghost use Rattle.tree_layer.specs.TreeTable.{LocalView as TreeView};
ghost use Rattle.wave_layer.specs.WaveTable.{LocalView as WaveView};
ghost use Rattle.reset_model.specs.Planned.{outcome_of};
ghost use Rattle.reset_model.specs.Steps.{is_of_tree};
ghost use Rattle.reset_model.specs.declared.plan.Seen.TheVariants.{Tree, Wave};
ghost use Rattle.reset_model.specs.declared.step.StepRefusal.TheVariants.{NotEnabled};
ghost use Rattle.applications.specs.Meaning.{meaning_of};
ghost use Rattle.history.specs.Entries.{entered};
ghost use Rattle.history.specs.declared.entry.Entry.TheVariants.{Step};
ghost use Rattle.script_replay.specs.Output.{refusal_text};
ghost use Rattle.script_replay.specs.Stops.{IsOutputStop};
ghost use Rattle.reset_service.specs.Asked.{asked_reason};
ghost use Rattle.reset_service.specs.Reasons.{action_guard, action_row, case_name, entry_text, guard_line, guards_of};
ghost use Rattle.reset_service.specs.Reasons.{line_there, named_line, named_lines, near_text, nodes_near, reason_text};
ghost use Rattle.reset_service.specs.Reasons.{refusal_lines, refused_text, row_line};

use action_tables::{CaseRow, Part, WriteFault, put_bytes, put_parts};
use app_interface::Application;
use app_invariants::Invariant;
use history::{Entry, put_entry};
use history_page::{add_neighbours, entry_node};
use reset_machine::{Config, Event, StepRefusal};
use script_replay::{Command, RunStop, answer_command, put_refusal, show_node};
use std::alloc::{AllocError, Global};
use std::io::Write;
use topology::Topology;
use tree_layer::tree_rows;
use wave_layer::wave_rows;

// Writes why an entry isn't allowed here, where that is asked.
pub fn put_asked_reason<P: Invariant, W: Write>(
    alloc: Global,
    why: bool,
    config: &mut Config<P>,
    entry: Entry,
    out: &mut W,
) -> Result<(), RunStop>
    requires { entered P.app P.from_text config.old entry ≡ None }
    ensures ok { OnOk result (Appends (W.contents out.old) (W.contents out.new)
        (asked_reason why (meaning_of P.app P.text P.from_text P.names P.counts) config.old entry)) }
    ensures err { OnErr result (AppendsPrefix (W.contents out.old) (W.contents out.new)
        (asked_reason why (meaning_of P.app P.text P.from_text P.names P.counts) config.old entry)) }
    ensures stop { IfErr result IsOutputStop }
{
    if why {
        return put_reason(alloc, config, entry, out);
    }
    drop(entry);
    Ok(())
}

// Writes why an entry isn't allowed here.
fn put_reason<P: Invariant, W: Write>(
    alloc: Global,
    config: &mut Config<P>,
    entry: Entry,
    out: &mut W,
) -> Result<(), RunStop>
    requires { entered P.app P.from_text config.old entry ≡ None }
    ensures ok { OnOk result (Appends (W.contents out.old) (W.contents out.new)
        (reason_text (meaning_of P.app P.text P.from_text P.names P.counts) config.old entry)) }
    ensures err { OnErr result (AppendsPrefix (W.contents out.old) (W.contents out.new)
        (reason_text (meaning_of P.app P.text P.from_text P.names P.counts) config.old entry)) }
    ensures stop { IfErr result IsOutputStop }
{
    let ids = nodes_near(alloc, config.topology(), &entry)?;
    put_entry_text(out, &entry)?;
    put_refusal_lines(alloc, config, entry, out)?;
    put_nodes(config, &ids, out)?;
    Ok(())
}

// The node of an entry, and its neighbours.
fn nodes_near(alloc: Global, topology: &Topology, entry: &Entry) -> Result<Vec<u32>, AllocError>
    ensures { IfOk result (λ ids. ids.items ≡ nodes_near topology.now entry.now) }
{
    let mut ids = Vec::new(alloc);
    ids.push(entry_node(entry))?;
    add_neighbours(&mut ids, topology, entry_node(entry))?;
    Ok(ids)
}

// Writes the line of an entry.
fn put_entry_text<W: Write>(out: &mut W, entry: &Entry) -> Result<(), WriteFault>
    ensures ok { OnOk result (Appends (W.contents out.old) (W.contents out.new) (entry_text entry.now)) }
    ensures err { OnErr result (AppendsPrefix (W.contents out.old) (W.contents out.new) (entry_text entry.now)) }
{
    put_bytes(out, b"entry ")?;
    put_entry(out, entry)
}

// Writes what a script answers to the command of an entry that isn't allowed, and what the rows of its event ask for.
fn put_refusal_lines<P: Invariant, W: Write>(
    alloc: Global,
    config: &mut Config<P>,
    entry: Entry,
    out: &mut W,
) -> Result<(), RunStop>
    requires { entered P.app P.from_text config.old entry ≡ None }
    ensures same { OnOk result (config.new ≡ config.old) }
    ensures ok { OnOk result (Appends (W.contents out.old) (W.contents out.new)
        (refusal_lines (meaning_of P.app P.text P.from_text P.names P.counts) config.old entry)) }
    ensures err { OnErr result (AppendsPrefix (W.contents out.old) (W.contents out.new)
        (refusal_lines (meaning_of P.app P.text P.from_text P.names P.counts) config.old entry)) }
    ensures stop { IfErr result IsOutputStop }
{
    match entry {
        Entry::Step(event) => put_refused(alloc, config, event, out),
        Entry::Disturbed(fault) => answer_command(alloc, config, Command::Inject(fault), out),
    }
}

// Writes the refusal of an event that isn't allowed and, where none of its rows is enabled, what they ask for.
fn put_refused<P: Application, W: Write>(
    alloc: Global,
    config: &mut Config<P>,
    event: Event,
    out: &mut W,
) -> Result<(), RunStop>
    requires { entered P.app P.from_text config.old (Step event) ≡ None }
    ensures same { OnOk result (config.new ≡ config.old) }
    ensures ok { OnOk result (Appends (W.contents out.old) (W.contents out.new)
        (refused_text P.names config.old event (outcome_of P.app config.old event))) }
    ensures err { OnErr result (AppendsPrefix (W.contents out.old) (W.contents out.new)
        (refused_text P.names config.old event (outcome_of P.app config.old event))) }
    ensures stop { IfErr result IsOutputStop }
{
    match config.step(alloc, event) {
        Err(StepRefusal::NoMemory) => Err(RunStop::NoMemory),
        Err(StepRefusal::NotEnabled) => {
            put_not_met(event, out)?;
            Ok(put_action_guard(case_name::<P>(event), out)?)
        }
        Err(refusal) => Ok(put_refusal(out, refusal)?),
        // Never: it isn't allowed.
        Ok(_) => Ok(()),
    }
}

// Writes that no row of an event is enabled, and what they ask for.
fn put_not_met<W: Write>(event: Event, out: &mut W) -> Result<(), WriteFault>
    ensures ok { OnOk result ((v : TreeView) (w : WaveView) → Appends (W.contents out.old) (W.contents out.new)
        (refusal_text NotEnabled ++ guards_of (if is_of_tree event then Tree v else Wave w) event)) }
    ensures err { OnErr result ((v : TreeView) (w : WaveView) → AppendsPrefix (W.contents out.old) (W.contents out.new)
        (refusal_text NotEnabled ++ guards_of (if is_of_tree event then Tree v else Wave w) event)) }
{
    put_refusal(out, StepRefusal::NotEnabled)?;
    put_guards(event, out)
}

// Writes what the rows of an event ask for: a row prints the same wherever it stands.
fn put_guards<W: Write>(event: Event, out: &mut W) -> Result<(), WriteFault>
    ensures ok { OnOk result ((v : TreeView) (w : WaveView) → Appends (W.contents out.old) (W.contents out.new)
        (guards_of (if is_of_tree event then Tree v else Wave w) event)) }
    ensures err { OnErr result ((v : TreeView) (w : WaveView) → AppendsPrefix (W.contents out.old) (W.contents out.new)
        (guards_of (if is_of_tree event then Tree v else Wave w) event)) }
{
    if is_of_tree(event) {
        put_guards_among(&tree_rows(), event.cases(), out)
    } else {
        put_guards_among(&wave_rows(), event.cases(), out)
    }
}

// Whether an event's rows are those of the tree.
fn is_of_tree(event: Event) -> bool
    ensures { result ≡ is_of_tree event }
{
    matches!(
        event,
        Event::Claim { .. } | Event::Follow { .. } | Event::Adopt { .. }
    )
}

// Writes what those of the rows ask for that have one of the numbers.
fn put_guards_among<W: Write>(
    rows: &[CaseRow<'_>],
    numbers: &[u8],
    out: &mut W,
) -> Result<(), WriteFault>
    ensures ok { OnOk result (Appends (W.contents out.old) (W.contents out.new)
        (flat_map (guard_line numbers.now) (map as_printed rows.now))) }
    ensures err { OnErr result (AppendsPrefix (W.contents out.old) (W.contents out.new)
        (flat_map (guard_line numbers.now) (map as_printed rows.now))) }
{
    for row in rows {
        put_guard(row, numbers, out)?;
    }
    Ok(())
}

// Writes what a row asks for, if it has one of the numbers.
fn put_guard<W: Write>(row: &CaseRow<'_>, numbers: &[u8], out: &mut W) -> Result<(), WriteFault>
    ensures ok { OnOk result (Appends (W.contents out.old) (W.contents out.new) (guard_line numbers.now (as_printed row.now))) }
    ensures err { OnErr result
        (AppendsPrefix (W.contents out.old) (W.contents out.new) (guard_line numbers.now (as_printed row.now))) }
{
    if numbers.contains(&row.number) {
        put_row(row, out)
    } else {
        Ok(())
    }
}

// The name of the case of an action.
fn case_name<P: Application>(event: Event) -> Option<&'static str>
    ensures { option_map (λ name. name.now) result ≡ case_name P.names event }
{
    match event {
        Event::Act { case, .. } => P::case_name(case),
        _ => None,
    }
}

// Writes what the row of an action asks for, which has this name.
fn put_action_guard<W: Write>(name: Option<&str>, out: &mut W) -> Result<(), WriteFault>
    ensures ok { OnOk result (Appends (W.contents out.old) (W.contents out.new)
        (action_guard (option_map (λ name. name.now) name.entry))) }
    ensures err { OnErr result (AppendsPrefix (W.contents out.old) (W.contents out.new)
        (action_guard (option_map (λ name. name.now) name.entry))) }
{
    match name {
        Some(name) => put_action_row(name, out),
        None => Ok(()),
    }
}

// Writes what the row of this name asks for, in whichever table of the applications it is.
fn put_action_row<W: Write>(name: &str, out: &mut W) -> Result<(), WriteFault>
    ensures ok { OnOk result (Appends (W.contents out.old) (W.contents out.new) (action_row name.now)) }
    ensures err { OnErr result (AppendsPrefix (W.contents out.old) (W.contents out.new) (action_row name.now)) }
{
    put_named(&app_token::app_rows(), name, out)?;
    put_named(&app_mutex::app_rows(), name, out)?;
    put_named(&app_routes::app_rows(), name, out)
}

// Writes what those of the rows ask for that have this name.
fn put_named<W: Write>(rows: &[CaseRow<'_>], name: &str, out: &mut W) -> Result<(), WriteFault>
    ensures ok { OnOk result (Appends (W.contents out.old) (W.contents out.new)
        (named_lines name.now (map as_printed rows.now))) }
    ensures err { OnErr result (AppendsPrefix (W.contents out.old) (W.contents out.new)
        (named_lines name.now (map as_printed rows.now))) }
{
    for row in rows {
        put_if_named(row, name, out)?;
    }
    Ok(())
}

// Writes what a row asks for, if it has this name.
fn put_if_named<W: Write>(row: &CaseRow<'_>, name: &str, out: &mut W) -> Result<(), WriteFault>
    ensures ok { OnOk result (Appends (W.contents out.old) (W.contents out.new) (named_line name.now (as_printed row.now))) }
    ensures err { OnErr result
        (AppendsPrefix (W.contents out.old) (W.contents out.new) (named_line name.now (as_printed row.now))) }
{
    if row.name == name {
        put_row(row, out)
    } else {
        Ok(())
    }
}

// Writes what a row asks for.
#[tactic(auto, unfolding(crate::specs::Reasons::row_line))]
fn put_row<W: Write>(row: &CaseRow<'_>, out: &mut W) -> Result<(), WriteFault>
    ensures ok { OnOk result (Appends (W.contents out.old) (W.contents out.new) (row_line (as_printed row.now))) }
    ensures err { OnErr result
        (AppendsPrefix (W.contents out.old) (W.contents out.new) (row_line (as_printed row.now))) }
{
    put_parts(
        out,
        &[
            Part::Text(b"row "),
            Part::Number(u64::from(row.number)),
            Part::Text(b" "),
            Part::Text(row.name.as_bytes()),
            Part::Text(b": "),
            Part::Text(row.guard.as_bytes()),
            Part::Text(b"\n"),
        ],
    )
}

// Writes the lines of those of these nodes that are up.
fn put_nodes<P: Invariant, W: Write>(
    config: &Config<P>,
    ids: &[u32],
    out: &mut W,
) -> Result<(), WriteFault>
    ensures ok { OnOk result (Appends (W.contents out.old) (W.contents out.new)
        (flat_map (line_there (meaning_of P.app P.text P.from_text P.names P.counts) config.now) ids.now)) }
    ensures err { OnErr result (AppendsPrefix (W.contents out.old) (W.contents out.new)
        (flat_map (line_there (meaning_of P.app P.text P.from_text P.names P.counts) config.now) ids.now)) }
{
    for id in ids {
        put_node(config, *id, out)?;
    }
    Ok(())
}

// Writes the line of a node, if it is up.
fn put_node<P: Invariant, W: Write>(
    config: &Config<P>,
    id: u32,
    out: &mut W,
) -> Result<(), WriteFault>
    ensures ok { OnOk result (Appends (W.contents out.old) (W.contents out.new)
        (line_there (meaning_of P.app P.text P.from_text P.names P.counts) config.now id)) }
    ensures err { OnErr result (AppendsPrefix (W.contents out.old) (W.contents out.new)
        (line_there (meaning_of P.app P.text P.from_text P.names P.counts) config.now id)) }
{
    match config.tree_at(id) {
        Some(_) => show_node(config, id, out),
        None => Ok(()),
    }
}
