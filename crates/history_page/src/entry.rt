// The lines of entries.

ghost use Rattle.std.specs.Prelude.{◌≡◌, ◌++◌, [], IfOk, IsSome, OnErr, OnOk, Some, drop, take};
ghost use Rattle.std.specs.List.{flat_map};
ghost use Rattle.std.specs.Io.KnownBytes.{Appends};
ghost use Rattle.action_tables.specs.RowText.{part_text};
ghost use Rattle.action_tables.specs.Written.{AppendsPrefix};
ghost use Rattle.history.specs.Entries.{entered, replayed};
ghost use Rattle.history.specs.HistoryText.{entry_line};
ghost use Rattle.history.specs.Reports.{reports_of};
ghost use Rattle.history_page.specs.Entries.{entries_text, entry_data, entry_fields, event_fields, fault_fields};
ghost use Rattle.history_page.specs.Entries.{opening_text, report_text};
ghost use Rattle.history_page.specs.Cursor.{told_count};
ghost use Rattle.history_page.specs.Known.{IsKnown};

use crate::changes::{Noted, add_changes, note};
use crate::concerned::{entry_node, written_at};
use crate::field::{Field, add_fields};
use crate::line::{add_parts, put_line};
use crate::page::PageStop;
use action_tables::{Part, WriteFault};
use app_interface::Application;
use fault_inject::{Fault, write_fault};
use history::{Entry, Report, play};
use reset_machine::{Config, Event, write_event};
use std::alloc::{AllocError, Global};
use std::io::Write;

// Plays the entries from this configuration on, and writes the line of each.
pub fn put_entries<P: Application, W: Write>(
    alloc: Global,
    config: &mut Config<P>,
    known: &mut [Noted],
    entries: &[Entry],
    reports: &[Report],
    out: &mut W,
) -> Result<(), PageStop>
    requires known { IsKnown P.app config.old known.old }
    requires run { IsSome (replayed P.app P.from_text config.old entries.now) }
    requires reports { reports.now ≡ reports_of P.app P.from_text config.old entries.now }
    ensures ok { OnOk result (Appends (W.contents out.old) (W.contents out.new)
        (entries_text P.app P.text P.from_text config.old [] entries.now)) }
    ensures err { OnErr result (AppendsPrefix (W.contents out.old) (W.contents out.new)
        (entries_text P.app P.text P.from_text config.old [] entries.now)) }
{
    let mut place = 0;
    let mut rest = reports;
    for entry in entries {
        place += 1;
        let told = told_now(rest, place);
        let line = next_line(alloc, config, known, entry, told)?;
        put_line(out, &line)?;
        rest = told_later(rest, place);
    }
    Ok(())
}

// Of these reports, which are in order, those of the entry at this position.
fn told_now(reports: &[Report], place: usize) -> &[Report]
    ensures { result.now ≡ take (told_count place reports.now) reports.now }
{
    match reports {
        [first, ..] if first.finished == place => &reports[..1],
        _ => &[],
    }
}

// Of these reports, which are in order, those after the entry at this position.
fn told_later(reports: &[Report], place: usize) -> &[Report]
    ensures { result.now ≡ drop (told_count place reports.now) reports.now }
{
    match reports {
        [first, rest @ ..] if first.finished == place => rest,
        _ => reports,
    }
}

// Plays the entry, and makes its line, with these reports.
fn next_line<P: Application>(
    alloc: Global,
    config: &mut Config<P>,
    known: &mut [Noted],
    entry: &Entry,
    reports: &[Report],
) -> Result<Vec<u8>, AllocError>
    requires allowed { IsSome (entered P.app P.from_text config.old entry.now) }
    requires known { IsKnown P.app config.old known.old }
    ensures played { OnOk result (entered P.app P.from_text config.old entry.now ≡ Some config.new) }
    ensures line { IfOk result
        (λ line. line.items ≡ entry_data P.app P.text config.old config.new entry.now reports.now) }
    ensures known { OnOk result (IsKnown P.app config.new known.new) }
{
    config.lemma_is_graph();
    let before = note(alloc, config, known, entry)?;
    play(alloc, config, entry)?;
    config.lemma_is_graph();
    let mut line = Vec::new(alloc);
    add_command(&mut line, entry)?;
    add_fields(&mut line, config, entry_node(entry), entry_fields(entry))?;
    add_changes(alloc, &mut line, config, written_at(entry), &before, known)?;
    add_reports(&mut line, reports)?;
    Ok(line)
}

// Adds the command that makes an entry happen.
fn add_command(line: &mut Vec<u8>, entry: &Entry) -> Result<(), AllocError>
    ensures { OnOk result (line.new.items ≡ line.old.items ++ entry_line entry.now) }
{
    match put_command(line, entry) {
        Ok(()) => Ok(()),
        Err(WriteFault) => Err(AllocError),
    }
}

// Writes the command that makes an entry happen.
fn put_command<W: Write>(out: &mut W, entry: &Entry) -> Result<(), WriteFault>
    ensures ok { OnOk result (Appends (W.contents out.old) (W.contents out.new) (entry_line entry.now)) }
    ensures err { OnErr result (AppendsPrefix (W.contents out.old) (W.contents out.new) (entry_line entry.now)) }
{
    match entry {
        Entry::Step(event) => write_event(event, out),
        Entry::Disturbed(fault) => write_fault(fault, out),
    }
}

// What an entry writes at its node.
fn entry_fields(entry: &Entry) -> &'static [Field]
    ensures { result.now ≡ entry_fields entry.now }
{
    match entry {
        Entry::Step(event) => event_fields(*event),
        Entry::Disturbed(fault) => fault_fields(fault),
    }
}

// What an event writes at its node.
fn event_fields(event: Event) -> &'static [Field]
    ensures { result.now ≡ event_fields event }
{
    match event {
        Event::Claim { .. } | Event::Follow { .. } | Event::Adopt { .. } => &[Field::Tree],
        Event::Request { .. } | Event::Relay { .. } => &[Field::Wave],
        Event::Finish { .. } | Event::Mend { .. } => &[Field::Wave],
        Event::Open { .. } | Event::Join { .. } => &[Field::Wave, Field::Local],
        Event::Act { .. } => &[Field::Local],
    }
}

// What a fault writes at its node.
fn fault_fields(fault: &Fault) -> &'static [Field]
    ensures { result.now ≡ fault_fields fault.now }
{
    match fault {
        Fault::SetTree { .. } => &[Field::Tree],
        Fault::SetWave { .. } => &[Field::Wave],
        Fault::SetLocal { .. } => &[Field::Local],
        Fault::NodeUp { .. } => &[Field::Tree, Field::Wave, Field::Local],
        Fault::NodeDown { .. } | Fault::LinkDown { .. } | Fault::LinkUp { .. } => &[],
    }
}

// Adds that sessions were reported complete.
fn add_reports(line: &mut Vec<u8>, reports: &[Report]) -> Result<(), AllocError>
    ensures { OnOk result (line.new.items ≡ line.old.items ++ flat_map report_text reports.now) }
{
    for report in reports {
        add_report(line, *report)?;
    }
    Ok(())
}

// Adds that a session was reported complete, and where it was opened.
fn add_report(line: &mut Vec<u8>, report: Report) -> Result<(), AllocError>
    ensures { OnOk result (line.new.items ≡ line.old.items ++ report_text report) }
{
    add_parts(
        line,
        &[
            Part::Text(b";*"),
            Part::Number(report.number as u64),
            Part::Text(b" "),
            opening_part(report.opened),
        ],
    )
}

// The position of an opening, or a dash where it isn't known.
fn opening_part(opened: Option<usize>) -> Part<'static>
    ensures { part_text result ≡ opening_text opened }
{
    match opened {
        Some(opened) => Part::Number(opened as u64),
        None => Part::Text(b"-"),
    }
}
