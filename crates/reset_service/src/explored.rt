// Explorations of all orders of the events, as texts.

ghost use Rattle.std.specs.Prelude.{◌≡◌, ℕ, List, None, option_map, IfErr, OnErr, OnOk};
ghost use Rattle.std.specs.Io.KnownBytes.{Appends};
ghost use Rattle.topology.specs.TopologyText.{IsReadFault};
ghost use Rattle.action_tables.specs.Written.{AppendsPrefix};
ghost use Rattle.applications.specs.Choice.{ForApp};
ghost use Rattle.applications.specs.Meaning.{meaning_of};
ghost use Rattle.schedules.specs.declared.schedules.Schedules.{Schedules};
ghost use Rattle.script_replay.specs.Lines.{GaveText, IsReadFrom};
ghost use Rattle.script_replay.specs.Output.{Leaves};
ghost use Rattle.script_replay.specs.Stops.{IsOutputStop};
ghost use Rattle.reset_service.specs.Opened.{IsOpenedFrom, IsOpenedText};
ghost use Rattle.reset_service.specs.Explorations.{Explores, IsExploration, IsFound};
ghost use Rattle.reset_service.specs.Explorations.{counts_text, runs_text, schedules_text};
ghost use Rattle.reset_service.specs.Explorations.{status_of, too_many_text};

use crate::planned::refuse_line;
use crate::searched::search_here;
use crate::started::{open_network, refuse_start};
use action_tables::{Part, WriteFault, put_bytes, put_parts};
use app_invariants::Invariant;
use applications::with_application;
use progress::Progress;
use reset_machine::Config;
use schedules::{ExploreFault, Runs, Schedules, Target, explore};
use script_replay::{
    Network, RunStop, Status, leave_script, read_network, read_text, refuse_input, refuse_topology,
};
use std::alloc::Global;
use std::io::{Read, Write};
use topology::{MAX_TEXT, ReadFault};

/// How far an exploration goes, and what it looks for.
#[derive(Clone, Copy, Debug, PartialEq, Eq)]
pub struct Exploring {
    /// Whether the application's actions are taken too.
    pub acts: bool,
    /// How many configurations are visited at most.
    pub most: u32,
    /// What it stops at, if it looks for something.
    pub until: Option<Target>,
}

/// Writes what an exploration finds from the configuration that the script of a reader leaves, of the booted
/// configuration of a topology text or, where one is given, of the configuration that a snapshot of it names: how many
/// configurations some order of the enabled events but requests leads to, how many steps and ends there are and how many
/// of these are whole, and how long the longest order is and how many resets one completes, or that one never ends. The
/// answers of the script aren't written.
///
/// Where it looks for something it writes in place of all this how many steps a shortest order to such a configuration has,
/// or that none leads to one, and how many configurations there are.
///
/// The topology is judged before the reader is touched, and the snapshot before the script. A script that is too long, or
/// has a bad line, is answered as `replay` ends with it. Where there are more configurations than the limit, that is
/// written in place of all else, with the status of bad input. Sets `progress` to how many configurations have
/// been followed, of those found so far.
pub fn explore_text<R: Read, W: Write>(
    alloc: Global,
    topology: &[u8],
    snapshot: Option<&[u8]>,
    script: &mut R,
    run: Exploring,
    progress: &Progress,
    out: &mut W,
) -> Result<Status, RunStop>
    ensures leaves { (text : List ℕ) × IsReadFrom (R.remaining script.old) text
        × Leaves (IsOpenedText (Explores run text) topology.now (option_map (λ s. s.now) snapshot.entry))
        (W.contents out.old) (W.contents out.new) result }
    ensures taken { OnOk result (GaveText (R.remaining script.old) (R.remaining script.new)) }
    ensures untouched { (f : ReadFault) → IsReadFault topology.now f → script.new ≡ script.old }
{
    match read_network(alloc, topology) {
        Ok(network) => match read_text(alloc, script) {
            Ok(text) => explore_app(alloc, network, snapshot, &text, run, progress, out),
            Err(stop) => Err(stop),
        },
        Err(fault) => refuse_topology(fault, out),
    }
}

// Explores what a script leaves of a network, with the application that it names.
#[tactic(auto, using(applications::proofs::Choosing::by_name))]
fn explore_app<W: Write>(
    alloc: Global,
    network: Network,
    snapshot: Option<&[u8]>,
    script: &[u8],
    run: Exploring,
    progress: &Progress,
    out: &mut W,
) -> Result<Status, RunStop>
    requires { network.topology.nodes ≡ network.topology.ids }
    ensures leaves { ForApp (λ L m. Leaves
        (IsOpenedFrom m network.topology network.modulus (option_map (λ s. s.now) snapshot.entry) (Explores run script.now L m))
        (W.contents out.old) (W.contents out.new) result) network.app }
    ensures stop { IfErr result IsOutputStop }
{
    with_application!(
        network.app,
        P => explore_opened::<P, W>(alloc, network, snapshot, script, run, progress, out)
    )
}

fn explore_opened<P: Invariant, W: Write>(
    alloc: Global,
    network: Network,
    snapshot: Option<&[u8]>,
    script: &[u8],
    run: Exploring,
    progress: &Progress,
    out: &mut W,
) -> Result<Status, RunStop>
    requires { network.topology.nodes ≡ network.topology.ids }
    ensures leaves { Leaves
        (IsOpenedFrom (meaning_of P.app P.text P.from_text P.names P.counts) network.topology network.modulus
        (option_map (λ s. s.now) snapshot.entry)
        (Explores run script.now P.Local (meaning_of P.app P.text P.from_text P.names P.counts)))
        (W.contents out.old) (W.contents out.new) result }
    ensures stop { IfErr result IsOutputStop }
{
    match open_network::<P>(alloc, network, snapshot) {
        Ok(mut config) => explore_after(alloc, &mut config, script, run, progress, out),
        Err(fault) => refuse_start(fault, out),
    }
}

// Explores what a script leaves of this configuration.
fn explore_after<P: Invariant, W: Write>(
    alloc: Global,
    config: &mut Config<P>,
    script: &[u8],
    run: Exploring,
    progress: &Progress,
    out: &mut W,
) -> Result<Status, RunStop>
    ensures leaves { Leaves (IsExploration (meaning_of P.app P.text P.from_text P.names P.counts)
        run config.old script.now)
        (W.contents out.old) (W.contents out.new) result }
    ensures stop { IfErr result IsOutputStop }
{
    if script.len() > MAX_TEXT {
        return refuse_input(out, b"bad script TooLong\n");
    }
    match leave_script(alloc, config, script) {
        Ok(None) => explore_here(alloc, config, run, progress, out),
        Ok(Some(number)) => refuse_line(number, out),
        Err(_) => Err(RunStop::NoMemory),
    }
}

// Explores from this configuration, or looks for what is asked for.
fn explore_here<P: Invariant, W: Write>(
    alloc: Global,
    config: &Config<P>,
    run: Exploring,
    progress: &Progress,
    out: &mut W,
) -> Result<Status, RunStop>
    ensures leaves { Leaves (IsFound (meaning_of P.app P.text P.from_text P.names P.counts) run config.now)
        (W.contents out.old) (W.contents out.new) result }
    ensures stop { IfErr result IsOutputStop }
{
    match run.until {
        None => explore_all(alloc, config, run, progress, out),
        Some(target) => search_here(alloc, config, run, target, progress, out),
    }
}

// Explores all orders from this configuration.
fn explore_all<P: Invariant, W: Write>(
    alloc: Global,
    config: &Config<P>,
    run: Exploring,
    progress: &Progress,
    out: &mut W,
) -> Result<Status, RunStop>
    requires { run.until ≡ None }
    ensures leaves { Leaves (IsFound (meaning_of P.app P.text P.from_text P.names P.counts) run config.now)
        (W.contents out.old) (W.contents out.new) result }
    ensures stop { IfErr result IsOutputStop }
{
    match explore(alloc, config, run.acts, run.most, progress) {
        Ok(found) => answer_schedules(found, out),
        Err(ExploreFault::TooMany) => answer_too_many(run.most, out),
        Err(ExploreFault::NoMemory) => Err(RunStop::NoMemory),
    }
}

// Answers with what was found.
fn answer_schedules<W: Write>(found: Schedules, out: &mut W) -> Result<Status, RunStop>
    ensures leaves { Leaves (λ output. output ≡ (schedules_text found, status_of found))
        (W.contents out.old) (W.contents out.new) result }
    ensures stop { IfErr result IsOutputStop }
{
    put_schedules(out, found)?;
    Ok(status_of(found))
}

// The status of what was found: good where every order ends, and each end is whole.
pub fn status_of(found: Schedules) -> Status
    ensures { result ≡ status_of found }
{
    match found.runs {
        Runs::Ending { .. } if found.whole == found.ends => Status::Good,
        _ => Status::FaultsFound,
    }
}

// Answers that there are more configurations than the limit.
pub fn answer_too_many<W: Write>(most: u32, out: &mut W) -> Result<Status, RunStop>
    ensures leaves { Leaves (λ output. output ≡ (too_many_text most, Status.BadInput))
        (W.contents out.old) (W.contents out.new) result }
    ensures stop { IfErr result IsOutputStop }
{
    put_parts(
        out,
        &[
            Part::Text(b"more than "),
            Part::Number(u64::from(most)),
            Part::Text(b" configurations\n"),
        ],
    )?;
    Ok(Status::BadInput)
}

// Writes what was found.
fn put_schedules<W: Write>(out: &mut W, found: Schedules) -> Result<(), WriteFault>
    ensures ok { OnOk result (Appends (W.contents out.old) (W.contents out.new) (schedules_text found)) }
    ensures err { OnErr result (AppendsPrefix (W.contents out.old) (W.contents out.new) (schedules_text found)) }
{
    put_found_counts(out, found)?;
    put_runs(out, found.runs)
}

// Writes how many configurations, steps and ends there are, and how many of these are whole.
pub fn put_found_counts<W: Write>(out: &mut W, found: Schedules) -> Result<(), WriteFault>
    ensures ok { OnOk result (Appends (W.contents out.old) (W.contents out.new) (counts_text found)) }
    ensures err { OnErr result (AppendsPrefix (W.contents out.old) (W.contents out.new) (counts_text found)) }
{
    put_parts(
        out,
        &[
            Part::Text(b"configurations "),
            Part::Number(found.configurations as u64),
            Part::Text(b"\nsteps "),
            Part::Number(found.steps as u64),
            Part::Text(b"\nends "),
            Part::Number(found.ends as u64),
            Part::Text(b"\nwhole "),
            Part::Number(found.whole as u64),
        ],
    )
}

// Writes how far the orders go.
pub fn put_runs<W: Write>(out: &mut W, runs: Runs) -> Result<(), WriteFault>
    ensures ok { OnOk result (Appends (W.contents out.old) (W.contents out.new) (runs_text runs)) }
    ensures err { OnErr result (AppendsPrefix (W.contents out.old) (W.contents out.new) (runs_text runs)) }
{
    match runs {
        Runs::Ending {
            longest,
            completions,
        } => put_parts(
            out,
            &[
                Part::Text(b"\nlongest "),
                Part::Number(longest as u64),
                Part::Text(b"\ncompletions "),
                Part::Number(completions.least as u64),
                Part::Text(b" to "),
                Part::Number(completions.most as u64),
                Part::Text(b"\n"),
            ],
        ),
        Runs::Endless => put_bytes(out, b"\nendless\n"),
    }
}
