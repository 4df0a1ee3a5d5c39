// What a run comes to that keeps a history, before anything is written, and how it is written then.

ghost use Rattle.std.specs.Prelude.{◌≡◌, OnErr, OnOk};
ghost use Rattle.std.specs.Io.KnownBytes.{Appends};
ghost use Rattle.action_tables.specs.Written.{AppendsPrefix};
ghost use Rattle.reset_service.specs.Threaded.{threads_line, told_history, told_output};

use crate::counts::put_counts;
use crate::started::{StartFault, put_start_fault};
use action_tables::{Part, WriteFault, put_bytes, put_parts};
use scheduler::DrivenHistory;
use script_replay::{Status, put_topology_fault};
use std::io::Write;
use topology::ReadFault;

// What a run of node threads or of the seeded scheduler comes to, before anything is written.
#[derive(Drop)]
pub enum Told {
    BadTopology(ReadFault),
    BadSnapshot(StartFault),
    StrangeNode,
    TooManyNodes,
    Kept(Kept),
    Driven(DrivenHistory),
}

// The history that node threads kept, as a text, and what it has.
#[derive(Drop)]
pub struct Kept {
    pub history: Vec<u8>,
    pub nodes: usize,
    pub entries: usize,
    pub reports: usize,
}

// Writes the history of a run that kept one.
pub fn put_history<H: Write>(history: &mut H, told: &Told) -> Result<(), WriteFault>
    ensures ok { OnOk result (Appends (H.contents history.old) (H.contents history.new) (told_history told.now)) }
    ensures err { OnErr result
        (AppendsPrefix (H.contents history.old) (H.contents history.new) (told_history told.now)) }
{
    match told {
        Told::Kept(kept) => put_bytes(history, &kept.history),
        Told::Driven(driven) => put_bytes(history, &driven.text),
        Told::BadTopology(_) | Told::BadSnapshot(_) | Told::StrangeNode | Told::TooManyNodes => {
            put_bytes(history, b"")
        }
    }
}

// Writes the line of a run.
pub fn put_told<W: Write>(out: &mut W, told: &Told) -> Result<(), WriteFault>
    ensures ok { OnOk result (Appends (W.contents out.old) (W.contents out.new) (told_output told.now).0) }
    ensures err { OnErr result (AppendsPrefix (W.contents out.old) (W.contents out.new) (told_output told.now).0) }
{
    match told {
        Told::BadTopology(fault) => put_topology_fault(out, *fault),
        Told::BadSnapshot(fault) => put_start_fault(out, *fault),
        Told::StrangeNode => put_bytes(out, b"refused StrangeNode\n"),
        Told::TooManyNodes => put_bytes(out, b"bad topology TooManyForThreads\n"),
        Told::Kept(kept) => put_threads(out, kept.nodes, kept.entries, kept.reports),
        Told::Driven(driven) => put_counts(out, b"drove ", driven.entries, driven.reports),
    }
}

// Writes the line of a run of node threads.
fn put_threads<W: Write>(
    out: &mut W,
    nodes: usize,
    entries: usize,
    reports: usize,
) -> Result<(), WriteFault>
    ensures ok { OnOk result (Appends (W.contents out.old) (W.contents out.new) (threads_line nodes entries reports)) }
    ensures err { OnErr result
        (AppendsPrefix (W.contents out.old) (W.contents out.new) (threads_line nodes entries reports)) }
{
    put_parts(out, &[Part::Text(b"threads "), Part::Number(nodes as u64)])?;
    put_counts(out, b" nodes ", entries, reports)
}

// The status of a run.
pub fn status_of(told: &Told) -> Status
    ensures { result ≡ (told_output told.now).1 }
{
    match told {
        Told::BadTopology(_) | Told::BadSnapshot(_) | Told::StrangeNode | Told::TooManyNodes => {
            Status::BadInput
        }
        Told::Kept(_) | Told::Driven(_) => Status::Good,
    }
}
