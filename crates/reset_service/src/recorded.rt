// The replay of a script from a snapshot, whose history is kept.

ghost use Rattle.std.specs.Prelude.{◌≡◌, ℕ, List, OnOk};
ghost use Rattle.topology.specs.TopologyText.{IsReadFault};
ghost use Rattle.applications.specs.Choice.{ForApp};
ghost use Rattle.applications.specs.Meaning.{meaning_of};
ghost use Rattle.script_replay.specs.Lines.{GaveText, IsReadFrom};
ghost use Rattle.script_replay.specs.Recorded.{LeavesRecord};
ghost use Rattle.reset_service.specs.Begun.{IsBegunFrom, IsBegunText, Records};

use crate::started::{refuse_start, start};
use app_invariants::Invariant;
use applications::with_application;
use script_replay::{
    Network, RunStop, Status, read_network, read_text, record_script, refuse_topology,
};
use std::alloc::Global;
use std::io::{Read, Write};
use topology::ReadFault;

/// As `record_text`, from the configuration that a snapshot of the topology names in place of the booted one. The
/// topology is judged first, and the snapshot before the script. A snapshot that can't be started from leaves no
/// history.
pub fn record_from<R: Read, H: Write, W: Write>(
    alloc: Global,
    topology: &[u8],
    snapshot: &[u8],
    script: &mut R,
    history: &mut H,
    out: &mut W,
) -> Result<Status, RunStop>
    ensures leaves { (text : List ℕ) × IsReadFrom (R.remaining script.old) text
        × LeavesRecord (IsBegunText (Records text) topology.now snapshot.now) (H.contents history.old)
        (H.contents history.new) (W.contents out.old) (W.contents out.new) result }
    ensures taken { OnOk result (GaveText (R.remaining script.old) (R.remaining script.new)) }
    ensures untouched { (f : ReadFault) → IsReadFault topology.now f → script.new ≡ script.old }
{
    match read_network(alloc, topology) {
        Ok(network) => match read_text(alloc, script) {
            Ok(text) => record_app(alloc, network, snapshot, &text, history, out),
            Err(stop) => Err(stop),
        },
        Err(refused) => refuse_topology(refused, out),
    }
}

// Records a script from a snapshot of a network, with the application that it names.
#[tactic(auto, using(applications::proofs::Choosing::by_name))]
fn record_app<H: Write, W: Write>(
    alloc: Global,
    network: Network,
    snapshot: &[u8],
    script: &[u8],
    history: &mut H,
    out: &mut W,
) -> Result<Status, RunStop>
    requires { network.topology.nodes ≡ network.topology.ids }
    ensures { ForApp (λ L m. LeavesRecord
        (IsBegunFrom m network.topology network.modulus snapshot.now (Records script.now L m))
        (H.contents history.old) (H.contents history.new) (W.contents out.old) (W.contents out.new) result) network.app }
{
    with_application!(
        network.app,
        P => record_started::<P, H, W>(alloc, network, snapshot, script, history, out)
    )
}

fn record_started<P: Invariant, H: Write, W: Write>(
    alloc: Global,
    network: Network,
    snapshot: &[u8],
    script: &[u8],
    history: &mut H,
    out: &mut W,
) -> Result<Status, RunStop>
    requires { network.topology.nodes ≡ network.topology.ids }
    ensures { LeavesRecord
        (IsBegunFrom (meaning_of P.app P.text P.from_text P.names P.counts)
        network.topology network.modulus snapshot.now
        (Records script.now P.Local (meaning_of P.app P.text P.from_text P.names P.counts)))
        (H.contents history.old) (H.contents history.new) (W.contents out.old) (W.contents out.new) result }
{
    match start::<P>(alloc, network, snapshot) {
        Ok(mut config) => record_script(alloc, &mut config, script, history, out),
        Err(fault) => refuse_start(fault, out),
    }
}
