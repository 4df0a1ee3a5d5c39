// The picture of a history from a booted configuration.

ghost use Rattle.std.specs.Prelude.{◌≡◌, None, Some, option_map};
ghost use Rattle.topology.specs.TopologyText.{IsReadFault};
ghost use Rattle.applications.specs.Choice.{ForApp};
ghost use Rattle.applications.specs.Meaning.{meaning_of};
ghost use Rattle.reset_service.specs.Opened.{IsOpenedFrom, IsOpenedText};
ghost use Rattle.reset_service.specs.Pictured.{IsPicture};
ghost use Rattle.reset_service.specs.Started.{Draws};
ghost use Rattle.reset_service.specs.Verified.{LeavesOfReader};

use crate::drawn::draw_all;
use crate::started::{open_network, refuse_start};
use app_invariants::Invariant;
use applications::with_application;
use reset_machine::Config;
use script_replay::{Network, RunStop, Status, read_network, refuse_topology};
use std::alloc::Global;
use std::io::{Read, Write};
use topology::ReadFault;

/// Draws the history that a reader gives, from the booted configuration of a topology text, as a space-time diagram.
///
/// The topology is judged before the reader is touched. A history that a verification wouldn't take is answered as
/// there; one of more than 64 nodes or 2,000 entries isn't drawn.
pub fn picture_text<R: Read, W: Write>(
    alloc: Global,
    topology: &[u8],
    history: &mut R,
    out: &mut W,
) -> Result<Status, RunStop>
    ensures leaves { LeavesOfReader (R.remaining history.old) (λ text. IsOpenedText (Draws text) topology.now None)
        (W.contents out.old) (W.contents out.new) result }
    ensures untouched { (f : ReadFault) → IsReadFault topology.now f → history.new ≡ history.old }
{
    draw_opening(alloc, topology, None, history, out)
}

/// As `picture_text`, from the configuration that a snapshot of the topology names in place of the booted one. The
/// topology is judged first, and the snapshot before the history.
pub fn picture_from<R: Read, W: Write>(
    alloc: Global,
    topology: &[u8],
    snapshot: &[u8],
    history: &mut R,
    out: &mut W,
) -> Result<Status, RunStop>
    ensures leaves { LeavesOfReader (R.remaining history.old)
        (λ text. IsOpenedText (Draws text) topology.now (Some snapshot.now)) (W.contents out.old) (W.contents out.new) result }
    ensures untouched { (f : ReadFault) → IsReadFault topology.now f → history.new ≡ history.old }
{
    draw_opening(alloc, topology, Some(snapshot), history, out)
}

// Draws a history from the booted configuration of a topology text, or from that which a snapshot of it names.
fn draw_opening<R: Read, W: Write>(
    alloc: Global,
    topology: &[u8],
    snapshot: Option<&[u8]>,
    history: &mut R,
    out: &mut W,
) -> Result<Status, RunStop>
    ensures leaves { LeavesOfReader (R.remaining history.old)
        (λ text. IsOpenedText (Draws text) topology.now (option_map (λ s. s.now) snapshot.entry))
        (W.contents out.old) (W.contents out.new) result }
    ensures untouched { (f : ReadFault) → IsReadFault topology.now f → history.new ≡ history.old }
{
    match read_network(alloc, topology) {
        Ok(network) => draw_app(alloc, network, snapshot, history, out),
        Err(fault) => refuse_topology(fault, out),
    }
}

// Draws a history on a network, with the application that it names.
#[tactic(auto, using(applications::proofs::Choosing::by_name))]
fn draw_app<R: Read, W: Write>(
    alloc: Global,
    network: Network,
    snapshot: Option<&[u8]>,
    history: &mut R,
    out: &mut W,
) -> Result<Status, RunStop>
    requires { network.topology.nodes ≡ network.topology.ids }
    ensures leaves { ForApp (λ L m. LeavesOfReader (R.remaining history.old)
        (λ text. IsOpenedFrom m network.topology network.modulus (option_map (λ s. s.now) snapshot.entry)
        (Draws text L m))
        (W.contents out.old) (W.contents out.new) result) network.app }
{
    with_application!(
        network.app,
        P => draw_opened::<P, R, W>(alloc, network, snapshot, history, out)
    )
}

fn draw_opened<P: Invariant, R: Read, W: Write>(
    alloc: Global,
    network: Network,
    snapshot: Option<&[u8]>,
    history: &mut R,
    out: &mut W,
) -> Result<Status, RunStop>
    requires { network.topology.nodes ≡ network.topology.ids }
    ensures leaves { LeavesOfReader (R.remaining history.old)
        (λ text. IsOpenedFrom (meaning_of P.app P.text P.from_text P.names P.counts) network.topology network.modulus
        (option_map (λ s. s.now) snapshot.entry)
        (Draws text P.Local (meaning_of P.app P.text P.from_text P.names P.counts)))
        (W.contents out.old) (W.contents out.new) result }
{
    match open_network::<P>(alloc, network, snapshot) {
        Ok(opening) => draw_from(alloc, &opening, history, out),
        Err(fault) => refuse_start(fault, out),
    }
}

// Draws a history from this configuration on.
fn draw_from<P: Invariant, R: Read, W: Write>(
    alloc: Global,
    opening: &Config<P>,
    history: &mut R,
    out: &mut W,
) -> Result<Status, RunStop>
    ensures leaves { LeavesOfReader (R.remaining history.old)
        (IsPicture (meaning_of P.app P.text P.from_text P.names P.counts)
        opening.now) (W.contents out.old) (W.contents out.new) result }
{
    draw_all(alloc, opening, None, history, out)
}
