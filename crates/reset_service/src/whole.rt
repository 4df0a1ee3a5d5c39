// Checks of what a script leaves, with the application's invariant.

ghost use Rattle.std.specs.Prelude.{◌≡◌, ℕ, List, if◌then◌else◌, option_map, IfErr, IfOk, OnErr, OnOk};
ghost use Rattle.std.specs.Option.{is_none};
ghost use Rattle.std.specs.Io.KnownBytes.{Appends};
ghost use Rattle.action_tables.specs.Written.{AppendsPrefix};
ghost use Rattle.app_invariants.specs.Verdicts.{verdicts_of};
ghost use Rattle.topology.specs.TopologyText.{IsReadFault};
ghost use Rattle.applications.specs.Choice.{ForApp};
ghost use Rattle.applications.specs.Meaning.{meaning_of};
ghost use Rattle.script_replay.specs.Lines.{GaveText, IsReadFrom};
ghost use Rattle.script_replay.specs.Output.{Leaves};
ghost use Rattle.script_replay.specs.Stops.{IsOutputStop};
ghost use Rattle.reset_service.specs.Opened.{IsOpenedFrom, IsOpenedText};
ghost use Rattle.reset_service.specs.Whole.{WholeCheck, after_check, all_hold, whole_output};

use crate::started::{open_network, refuse_start};
use app_invariants::{Invariant, Verdict, judge_components};
use applications::with_application;
use reset_machine::Config;
use script_replay::{
    Network, Purpose, RunStop, Status, put_verdicts, read_network, read_text, refuse_topology,
    run_script,
};
use std::alloc::{AllocError, Global};
use std::io::{Read, Write};
use topology::ReadFault;

/// Checks as `check_text` or, where a snapshot is given, `check_from` does, and then writes of each component, by ascending
/// leader, whether the application's invariant holds of the newest states there: `invariant 9 holds`, or what is wrong, as
/// `invariant 9 fails tokens 2`. A node that hasn't joined the newest session counts as started. The status is
/// `Status::FaultsFound` also where an invariant fails. After bad input nothing is checked.
pub fn check_whole<R: Read, W: Write>(
    alloc: Global,
    topology: &[u8],
    snapshot: Option<&[u8]>,
    script: &mut R,
    repairs: bool,
    out: &mut W,
) -> Result<Status, RunStop>
    ensures leaves { (text : List ℕ) × IsReadFrom (R.remaining script.old) text
        × Leaves (IsOpenedText (WholeCheck repairs text) topology.now (option_map (λ s. s.now) snapshot.entry))
        (W.contents out.old) (W.contents out.new) result }
    ensures taken { OnOk result (GaveText (R.remaining script.old) (R.remaining script.new)) }
    ensures untouched { (f : ReadFault) → IsReadFault topology.now f → script.new ≡ script.old }
{
    match read_network(alloc, topology) {
        Ok(network) => match read_text(alloc, script) {
            Ok(text) => check_app(alloc, network, snapshot, &text, repairs, out),
            Err(stop) => Err(stop),
        },
        Err(fault) => refuse_topology(fault, out),
    }
}

// Checks what a script leaves of a network, with the application that it names.
#[tactic(auto, using(applications::proofs::Choosing::by_name))]
fn check_app<W: Write>(
    alloc: Global,
    network: Network,
    snapshot: Option<&[u8]>,
    script: &[u8],
    repairs: bool,
    out: &mut W,
) -> Result<Status, RunStop>
    requires { network.topology.nodes ≡ network.topology.ids }
    ensures leaves { ForApp (λ L m. Leaves
        (IsOpenedFrom m network.topology network.modulus (option_map (λ s. s.now) snapshot.entry) (WholeCheck repairs script.now L m))
        (W.contents out.old) (W.contents out.new) result) network.app }
    ensures stop { IfErr result IsOutputStop }
{
    with_application!(
        network.app,
        P => check_opened::<P, W>(alloc, network, snapshot, script, repairs, out)
    )
}

fn check_opened<P: Invariant, W: Write>(
    alloc: Global,
    network: Network,
    snapshot: Option<&[u8]>,
    script: &[u8],
    repairs: bool,
    out: &mut W,
) -> Result<Status, RunStop>
    requires { network.topology.nodes ≡ network.topology.ids }
    ensures leaves { Leaves
        (IsOpenedFrom (meaning_of P.app P.text P.from_text P.names P.counts) network.topology network.modulus
        (option_map (λ s. s.now) snapshot.entry)
        (WholeCheck repairs script.now P.Local (meaning_of P.app P.text P.from_text P.names P.counts)))
        (W.contents out.old) (W.contents out.new) result }
    ensures stop { IfErr result IsOutputStop }
{
    match open_network::<P>(alloc, network, snapshot) {
        Ok(mut config) => check_after(alloc, &mut config, script, repairs, out),
        Err(fault) => refuse_start(fault, out),
    }
}

// Checks what a script leaves of this configuration.
fn check_after<P: Invariant, W: Write>(
    alloc: Global,
    config: &mut Config<P>,
    script: &[u8],
    repairs: bool,
    out: &mut W,
) -> Result<Status, RunStop>
    ensures leaves { Leaves (λ output. output
        ≡ whole_output (meaning_of P.app P.text P.from_text P.names P.counts) repairs config.old script.now)
        (W.contents out.old) (W.contents out.new) result }
    ensures stop { IfErr result IsOutputStop }
{
    let purpose = Purpose::Check { repairs };
    match run_script(alloc, purpose, config, script, out) {
        Ok(checked) => end_check(alloc, config, checked, out),
        Err(stop) => Err(stop),
    }
}

// Ends a check that ended so with the verdicts on the components, unless its input was bad.
fn end_check<P: Invariant, W: Write>(
    alloc: Global,
    config: &Config<P>,
    checked: Status,
    out: &mut W,
) -> Result<Status, RunStop>
    ensures ok { IfOk result (λ status. let last = after_check
        (verdicts_of P.counts P.app config.now) checked in
        (status ≡ last.1) × Appends (W.contents out.old) (W.contents out.new) last.0) }
    ensures err { OnErr result (AppendsPrefix (W.contents out.old) (W.contents out.new)
        (after_check
        (verdicts_of P.counts P.app config.now) checked).0) }
    ensures stop { IfErr result IsOutputStop }
{
    if checked == Status::BadInput {
        return Ok(Status::BadInput);
    }
    match judge_components(alloc, config) {
        Ok(verdicts) => {
            put_verdicts(out, &verdicts)?;
            Ok(status_with(checked, &verdicts))
        }
        Err(AllocError) => Err(RunStop::NoMemory),
    }
}

// The status of a check with these verdicts, where it was this one without them.
fn status_with(checked: Status, verdicts: &[Verdict]) -> Status
    ensures { result ≡ (if all_hold verdicts.now then checked else Status.FaultsFound) }
{
    if all_hold(verdicts) {
        checked
    } else {
        Status::FaultsFound
    }
}

// Whether the invariant holds in each component.
fn all_hold(verdicts: &[Verdict]) -> bool
    ensures { result ≡ all_hold verdicts.now }
{
    verdicts.iter().all(|verdict| holds(verdict))
}

// Whether nothing is wrong.
fn holds(verdict: &Verdict) -> bool
    ensures { result ≡ is_none verdict.now.1 }
{
    verdict.violation.is_none()
}
