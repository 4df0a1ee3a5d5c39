// Sessions that keep a history.

ghost use Rattle.std.specs.Prelude.{◌-◌, length, IfErr, IfOk, OnErr, OnOk};
ghost use Rattle.std.specs.Io.KnownBytes.{Appends, Keeps};
ghost use Rattle.action_tables.specs.Written.{AppendsPrefix};
ghost use Rattle.applications.specs.Meaning.{meaning_of};
ghost use Rattle.live_session.specs.Kept.{HasBegun, HasResumed, IsCutAtBeginning};
ghost use Rattle.history.specs.HistoryText.{ended, first_line};
ghost use Rattle.live_session.specs.Kept.{HasGoneOn, IsCutGoingOn, IsStopped, resumed_text};

use crate::session::run_session;
use action_tables::{Part, WriteFault, put_parts};
use app_invariants::Invariant;
use history::{MAX_ENTRIES, ReaderFault, Resumed, put_first_line, resume_reader};
use reset_machine::Config;
use script_replay::RunStop;
use std::alloc::Global;
use std::io::{Read, Write};

/// Why a session doesn't go on, or not to its end.
#[derive(Clone, Copy, Debug, PartialEq, Eq)]
pub enum ResumeStop {
    /// Its past isn't a history from its opening on, as a verification finds. Nothing was written.
    Past(ReaderFault),
    /// It was cut short.
    Run(RunStop),
}

/// A session with a new history, whose first line is written and flushed before the first read.
pub fn begin_history<P: Invariant, R: Read, H: Write, W: Write>(
    alloc: Global,
    opening: Config<P>,
    input: &mut R,
    log: &mut H,
    out: &mut W,
) -> Result<Config<P>, RunStop>
    ensures done { IfOk result (HasBegun (meaning_of P.app P.text P.from_text P.names P.counts) opening
        (R.remaining input.old) (H.contents log.old) (H.contents log.new) (W.contents out.old) (W.contents out.new)) }
    ensures cut { OnErr result (IsCutAtBeginning (meaning_of P.app P.text P.from_text P.names P.counts) opening
        (R.remaining input.old) (H.contents log.old) (H.contents log.new) (W.contents out.old) (W.contents out.new)) }
{
    match put_beginning(log, opening.modulus().get()) {
        Ok(()) => run_session(alloc, opening, Some(MAX_ENTRIES as u64), input, log, out),
        Err(WriteFault) => {
            drop(opening);
            Err(RunStop::WriteFailed)
        }
    }
}

// Writes and flushes the first line of a history with sessions modulo this number.
fn put_beginning<H: Write>(log: &mut H, modulus: u64) -> Result<(), WriteFault>
    ensures ok { OnOk result (Appends (H.contents log.old) (H.contents log.new) (ended (first_line modulus))) }
    ensures err { OnErr result
        (AppendsPrefix (H.contents log.old) (H.contents log.new) (ended (first_line modulus))) }
{
    match put_first_line(log, modulus) {
        Ok(()) => flush(log),
        Err(fault) => Err(fault),
    }
}

/// A session that goes on after the history that a reader gives, from this opening on: its past is verified first, and
/// how many entries and reports it has is answered before the first read.
pub fn resume_history<P: Invariant, F: Read, R: Read, H: Write, W: Write>(
    alloc: Global,
    opening: Config<P>,
    past: &mut F,
    input: &mut R,
    log: &mut H,
    out: &mut W,
) -> Result<Config<P>, ResumeStop>
    ensures done { IfOk result (HasResumed (meaning_of P.app P.text P.from_text P.names P.counts) opening
        (F.remaining past.old) (R.remaining input.old) (H.contents log.old) (H.contents log.new)
        (W.contents out.old) (W.contents out.new)) }
    ensures err { IfErr result (IsStopped (meaning_of P.app P.text P.from_text P.names P.counts) opening
        (F.remaining past.old) (R.remaining input.old) (H.contents log.old) (H.contents log.new)
        (W.contents out.old) (W.contents out.new)) }
{
    match resume_reader(alloc, opening, past) {
        Ok(resumed) => match go_on(alloc, resumed, input, log, out) {
            Ok(left) => Ok(left),
            Err(stop) => Err(ResumeStop::Run(stop)),
        },
        Err(fault) => Err(ResumeStop::Past(fault)),
    }
}

// A session that goes on where a history leads to.
fn go_on<P: Invariant, R: Read, H: Write, W: Write>(
    alloc: Global,
    resumed: Resumed<P>,
    input: &mut R,
    log: &mut H,
    out: &mut W,
) -> Result<Config<P>, RunStop>
    ensures done { IfOk result (HasGoneOn (meaning_of P.app P.text P.from_text P.names P.counts)
        (1000000 - resumed.summary.entries) resumed.config
        (resumed_text resumed.summary.entries (length resumed.summary.reports.items)) (R.remaining input.old)
        (H.contents log.old) (H.contents log.new) (W.contents out.old) (W.contents out.new)) }
    ensures cut { OnErr result (IsCutGoingOn (meaning_of P.app P.text P.from_text P.names P.counts)
        (1000000 - resumed.summary.entries) resumed.config
        (resumed_text resumed.summary.entries (length resumed.summary.reports.items)) (R.remaining input.old)
        (H.contents log.old) (H.contents log.new) (W.contents out.old) (W.contents out.new)) }
{
    let Resumed { config, summary } = resumed;
    let room = MAX_ENTRIES.saturating_sub(summary.entries) as u64;
    let put = put_resumed(log, out, summary.entries, summary.reports.len());
    drop(summary);
    match put {
        Ok(()) => run_session(alloc, config, Some(room), input, log, out),
        Err(WriteFault) => {
            drop(config);
            Err(RunStop::WriteFailed)
        }
    }
}

// Flushes the history, which a writer may ready by that, and writes and flushes how many entries and reports it has.
fn put_resumed<H: Write, W: Write>(
    log: &mut H,
    out: &mut W,
    entries: usize,
    reports: usize,
) -> Result<(), WriteFault>
    ensures log { Keeps (H.contents log.old) (H.contents log.new) }
    ensures ok { OnOk result (Appends (W.contents out.old) (W.contents out.new) (resumed_text entries reports)) }
    ensures err { OnErr result (AppendsPrefix (W.contents out.old) (W.contents out.new) (resumed_text entries reports)) }
{
    match flush(log) {
        Ok(()) => put_resumed_line(out, entries, reports),
        Err(fault) => Err(fault),
    }
}

fn put_resumed_line<W: Write>(out: &mut W, entries: usize, reports: usize) -> Result<(), WriteFault>
    ensures ok { OnOk result (Appends (W.contents out.old) (W.contents out.new) (resumed_text entries reports)) }
    ensures err { OnErr result (AppendsPrefix (W.contents out.old) (W.contents out.new) (resumed_text entries reports)) }
{
    let put = put_parts(
        out,
        &[
            Part::Text(b"resumed "),
            Part::Number(entries as u64),
            Part::Text(b" entries "),
            Part::Number(reports as u64),
            Part::Text(b" reports\n"),
        ],
    );
    match put {
        Ok(()) => flush(out),
        Err(fault) => Err(fault),
    }
}

fn flush<W: Write>(out: &mut W) -> Result<(), WriteFault>
    ensures { Keeps (W.contents out.old) (W.contents out.new) }
{
    match out.flush() {
        Ok(()) => Ok(()),
        Err(_) => Err(WriteFault),
    }
}
