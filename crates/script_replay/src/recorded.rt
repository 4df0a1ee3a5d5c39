// The replay of a script whose history is kept.

ghost use Rattle.std.specs.Prelude.{◌≡◌, ℕ, List, Option, Err, IfErr, OnOk};
ghost use Rattle.std.specs.Io.KnownBytes.{Appends};
ghost use Rattle.topology.specs.TopologyText.{IsReadFault};
ghost use Rattle.applications.specs.Choice.{ForApp};
ghost use Rattle.applications.specs.Meaning.{meaning_of};
ghost use Rattle.script_replay.specs.Lines.{GaveText, IsReadFrom};
ghost use Rattle.script_replay.specs.Recorded.{IsHistory, IsRecord, IsRecordFrom, IsRecorded, LeavesRecord};

use crate::input::read_text;
use crate::network::{Network, read_network};
use crate::recording::history_of;
use crate::replays::{refuse_topology, run_script};
use crate::status::{Purpose, RunStop, Status};
use action_tables::put_bytes;
use app_invariants::Invariant;
use applications::with_application;
use reset_machine::Config;
use std::alloc::Global;
use std::io::{Read, Write};
use topology::ReadFault;

/// Writes to one writer the history of the script of a reader, from the booted configuration of a topology text on, and
/// then to the other what `replay` writes: each event that was applied and each fault that was done, in order, is an
/// entry. What was refused, a question or a comment leaves none, and lines after the first bad one aren't reached.
///
/// The topology is judged before the reader is touched. It leaves no history where it is bad, nor does a script that is
/// too long.
pub fn record_text<R: Read, H: Write, W: Write>(
    alloc: Global,
    topology: &[u8],
    script: &mut R,
    history: &mut H,
    out: &mut W,
) -> Result<Status, RunStop>
    ensures leaves { (text : List ℕ) × IsReadFrom (R.remaining script.old) text
        × LeavesRecord (IsRecorded topology.now text) (H.contents history.old) (H.contents history.new)
        (W.contents out.old) (W.contents out.new) result }
    ensures taken { OnOk result (GaveText (R.remaining script.old) (R.remaining script.new)) }
    ensures untouched { (f : ReadFault) → IsReadFault topology.now f → script.new ≡ script.old }
{
    match read_network(alloc, topology) {
        Ok(network) => match read_text(alloc, script) {
            Ok(text) => record_app(alloc, network, &text, history, out),
            Err(stop) => Err(stop),
        },
        Err(refused) => refuse_topology(refused, out),
    }
}

// Records a script on the booted configuration of a network, with the application that it names.
#[tactic(auto, using(applications::proofs::Choosing::by_name))]
fn record_app<H: Write, W: Write>(
    alloc: Global,
    network: Network,
    script: &[u8],
    history: &mut H,
    out: &mut W,
) -> Result<Status, RunStop>
    ensures { ForApp (λ L m. LeavesRecord (IsRecordFrom m network.topology network.modulus script.now)
        (H.contents history.old) (H.contents history.new) (W.contents out.old) (W.contents out.new) result) network.app }
{
    with_application!(
        network.app,
        P => record_booted::<P, H, W>(alloc, network, script, history, out)
    )
}

fn record_booted<P: Invariant, H: Write, W: Write>(
    alloc: Global,
    network: Network,
    script: &[u8],
    history: &mut H,
    out: &mut W,
) -> Result<Status, RunStop>
    ensures { LeavesRecord
        (IsRecordFrom (meaning_of P.app P.text P.from_text P.names P.counts)
        network.topology network.modulus script.now)
        (H.contents history.old) (H.contents history.new) (W.contents out.old) (W.contents out.new) result }
{
    match Config::<P>::boot(alloc, network.topology, network.modulus) {
        Ok(mut config) => record_script(alloc, &mut config, script, history, out),
        Err(_) => Err(RunStop::NoMemory),
    }
}

/// Records a script from this configuration on: its history goes to one writer, and then its answers to the other.
pub fn record_script<P: Invariant, H: Write, W: Write>(
    alloc: Global,
    config: &mut Config<P>,
    script: &[u8],
    history: &mut H,
    out: &mut W,
) -> Result<Status, RunStop>
    ensures { LeavesRecord (IsRecord (meaning_of P.app P.text P.from_text P.names P.counts) config.old script.now)
        (H.contents history.old) (H.contents history.new) (W.contents out.old) (W.contents out.new) result }
{
    match put_history(alloc, config, script, history) {
        Ok(()) => run_script(alloc, Purpose::Replay, config, script, out),
        Err(stop) => Err(stop),
    }
}

// Writes the history of a script. A stop leaves what a recording may that has written no answer yet.
fn put_history<P: Invariant, H: Write>(
    alloc: Global,
    opening: &Config<P>,
    script: &[u8],
    history: &mut H,
) -> Result<(), RunStop>
    ensures ok { OnOk result ((text : List ℕ)
        × IsHistory (meaning_of P.app P.text P.from_text P.names P.counts) opening.now script.now text
        × Appends (H.contents history.old) (H.contents history.new) text) }
    ensures err { IfErr result (λ stop. (output : Option (List ℕ)) → LeavesRecord
        (IsRecord (meaning_of P.app P.text P.from_text P.names P.counts) opening.now script.now)
        (H.contents history.old) (H.contents history.new) output output (Err stop)) }
{
    let text = history_of(alloc, opening, script)?;
    put_bytes(history, &text)?;
    Ok(())
}
