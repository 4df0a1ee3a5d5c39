// Replays that mark their answers.

ghost use Rattle.std.specs.Prelude.{◌≡◌, ℕ, List, option_map, IfErr, OnOk};
ghost use Rattle.topology.specs.TopologyText.{IsReadFault};
ghost use Rattle.applications.specs.Choice.{ForApp};
ghost use Rattle.applications.specs.Meaning.{meaning_of};
ghost use Rattle.script_replay.specs.Lines.{GaveText, IsReadFrom};
ghost use Rattle.script_replay.specs.Marked.{marked_output};
ghost use Rattle.script_replay.specs.Output.{Leaves};
ghost use Rattle.script_replay.specs.Stops.{IsOutputStop};
ghost use Rattle.script_replay.specs.declared.tally.Tally.{Tally};
ghost use Rattle.reset_service.specs.Opened.{IsOpenedFrom, IsOpenedText};
ghost use Rattle.reset_service.specs.Marked.{MarkedReplay};

use crate::started::{open_network, refuse_start};
use app_invariants::Invariant;
use applications::with_application;
use script_replay::{
    Marks, Network, RunStop, Status, Tally, read_network, read_text, refuse_topology, run_marked,
};
use std::alloc::Global;
use std::io::{Read, Write};
use topology::ReadFault;

/// Replays the script of a reader as `replay` or, where a snapshot is given, `replay_from` does, with marks: the number of its
/// line before each answer, or an end at the first refusal, which is `Status::NotEnabled`. Leaves in `tally` how the commands
/// were answered, and as it was where the topology or the snapshot is bad.
pub fn replay_marked<R: Read, W: Write>(
    alloc: Global,
    topology: &[u8],
    snapshot: Option<&[u8]>,
    script: &mut R,
    marks: Marks,
    tally: &mut Tally,
    out: &mut W,
) -> Result<Status, RunStop>
    ensures leaves { (text : List ℕ) × (answered : Tally) × IsReadFrom (R.remaining script.old) text
        × OnOk result (tally.new ≡ answered)
        × Leaves (IsOpenedText (MarkedReplay marks text answered) topology.now (option_map (λ s. s.now) snapshot.entry))
        (W.contents out.old) (W.contents out.new) result }
    ensures taken { OnOk result (GaveText (R.remaining script.old) (R.remaining script.new)) }
    ensures untouched { (f : ReadFault) → IsReadFault topology.now f
        → (script.new ≡ script.old) × (tally.new ≡ tally.old) }
{
    match read_network(alloc, topology) {
        Ok(network) => match read_text(alloc, script) {
            Ok(text) => replay_app(alloc, network, snapshot, &text, marks, tally, out),
            Err(stop) => Err(stop),
        },
        Err(fault) => refuse_topology(fault, out),
    }
}

// Replays a script on a network, with the application that it names.
#[tactic(auto, using(applications::proofs::Choosing::by_name))]
fn replay_app<W: Write>(
    alloc: Global,
    network: Network,
    snapshot: Option<&[u8]>,
    script: &[u8],
    marks: Marks,
    tally: &mut Tally,
    out: &mut W,
) -> Result<Status, RunStop>
    requires { network.topology.nodes ≡ network.topology.ids }
    ensures leaves { ForApp (λ L m. (answered : Tally) × OnOk result (tally.new ≡ answered) × Leaves
        (IsOpenedFrom m network.topology network.modulus (option_map (λ s. s.now) snapshot.entry)
        (MarkedReplay marks script.now answered L m))
        (W.contents out.old) (W.contents out.new) result) network.app }
    ensures stop { IfErr result IsOutputStop }
{
    with_application!(
        network.app,
        P => replay_opened::<P, W>(alloc, network, snapshot, script, marks, tally, out)
    )
}

fn replay_opened<P: Invariant, W: Write>(
    alloc: Global,
    network: Network,
    snapshot: Option<&[u8]>,
    script: &[u8],
    marks: Marks,
    tally: &mut Tally,
    out: &mut W,
) -> Result<Status, RunStop>
    requires { network.topology.nodes ≡ network.topology.ids }
    ensures leaves { (answered : Tally) × OnOk result (tally.new ≡ answered) × Leaves
        (IsOpenedFrom (meaning_of P.app P.text P.from_text P.names P.counts) network.topology network.modulus
        (option_map (λ s. s.now) snapshot.entry)
        (MarkedReplay marks script.now answered P.Local (meaning_of P.app P.text P.from_text P.names P.counts)))
        (W.contents out.old) (W.contents out.new) result }
    ensures stop { IfErr result IsOutputStop }
{
    match open_network::<P>(alloc, network, snapshot) {
        Ok(mut config) => run_marked(alloc, &mut config, script, marks, tally, out),
        Err(fault) => refuse_start(fault, out),
    }
}
