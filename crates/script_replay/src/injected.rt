// The answers to faults.

ghost use Rattle.std.specs.Prelude.{◌≡◌, Err, IfErr, IfOk, OnErr, OnOk};
ghost use Rattle.std.specs.Io.KnownBytes.{Appends, Keeps};
ghost use Rattle.action_tables.specs.Written.{AppendsPrefix};
ghost use Rattle.applications.specs.Meaning.{meaning_of};
ghost use Rattle.fault_inject.specs.Effects.{injected};
ghost use Rattle.script_replay.specs.Output.{answered, disturbed, drawn, drawn_text, fault_refusal_text};
ghost use Rattle.script_replay.specs.declared.script.Command.TheVariants.{Draw};
ghost use Rattle.script_replay.specs.Stops.{IsOutputStop};

use crate::status::{RunStop, written};
use action_tables::{WriteFault, put_bytes};
use app_interface::Application;
use app_invariants::Invariant;
use fault_inject::{Fault, FaultRefusal, draw_fault, inject, write_fault};
use rand_core::SeedableRng;
use rand_pcg::Lcg64Xsh32;
use reset_machine::Config;
use std::alloc::Global;
use std::io::Write;

/// Does the fault to the configuration, and writes that it was done or the refusal. If an allocation
/// fails, nothing is changed or written; where the writer fails the fault was done, or refused.
pub fn answer_fault<P: Application, W: Write>(
    alloc: Global,
    config: &mut Config<P>,
    fault: &Fault,
    out: &mut W,
) -> Result<(), RunStop>
    ensures ok { OnOk result ((config.new ≡ (disturbed config.old (injected P.app P.from_text config.old fault.now)).0)
        × Appends (W.contents out.old) (W.contents out.new)
        (disturbed config.old (injected P.app P.from_text config.old fault.now)).1) }
    ensures err { OnErr result (AppendsPrefix (W.contents out.old) (W.contents out.new)
        (disturbed config.old (injected P.app P.from_text config.old fault.now)).1) }
    ensures stop { IfErr result IsOutputStop }
    ensures memory { result ≡ Err RunStop.NoMemory
        → (config.new ≡ config.old) × Keeps (W.contents out.old) (W.contents out.new) }
    ensures fault { result ≡ Err RunStop.WriteFailed
        → config.new ≡ (disturbed config.old (injected P.app P.from_text config.old fault.now)).0 }
{
    let line = disturb(alloc, config, fault)?;
    written(put_bytes(out, line))
}

/// Draws a fault, does it, and writes its line and then what `answer_fault` writes. If an
/// allocation fails, nothing is changed or written; where the writer fails the fault was done, or refused.
pub fn answer_draw<P: Invariant, W: Write>(
    alloc: Global,
    config: &mut Config<P>,
    seed: u32,
    out: &mut W,
) -> Result<(), RunStop>
    ensures ok { OnOk result
        ((config.new ≡ (answered (meaning_of P.app P.text P.from_text P.names P.counts) config.old (Draw seed)).0)
        × Appends (W.contents out.old) (W.contents out.new)
        (answered (meaning_of P.app P.text P.from_text P.names P.counts) config.old (Draw seed)).1) }
    ensures err { OnErr result (AppendsPrefix (W.contents out.old) (W.contents out.new)
        (answered (meaning_of P.app P.text P.from_text P.names P.counts) config.old (Draw seed)).1) }
    ensures stop { IfErr result IsOutputStop }
    ensures memory { result ≡ Err RunStop.NoMemory
        → (config.new ≡ config.old) × Keeps (W.contents out.old) (W.contents out.new) }
    ensures fault { result ≡ Err RunStop.WriteFailed
        → config.new ≡ (answered (meaning_of P.app P.text P.from_text P.names P.counts) config.old (Draw seed)).0 }
{
    let fault = drawn(config, seed);
    let line = disturb(alloc, config, &fault)?;
    put_drawn(out, &fault)?;
    written(put_bytes(out, line))
}

// Does the fault, and answers the line that says that it was done or the refusal.
fn disturb<P: Application>(
    alloc: Global,
    config: &mut Config<P>,
    fault: &Fault,
) -> Result<&'static [u8], RunStop>
    ensures ok { IfOk result
        (λ line. (config.new ≡ (disturbed config.old (injected P.app P.from_text config.old fault.now)).0)
        × (line.now ≡ (disturbed config.old (injected P.app P.from_text config.old fault.now)).1)) }
    ensures err { IfErr result (λ stop. (stop ≡ RunStop.NoMemory) × (config.new ≡ config.old)) }
{
    match inject(alloc, config, fault) {
        Ok(()) => Ok(b"disturbed\n"),
        Err(FaultRefusal::NoMemory) => Err(RunStop::NoMemory),
        Err(refusal) => Ok(fault_refusal_line(refusal)),
    }
}

/// The fault that a new generator with this seed draws.
pub fn drawn<P: Application>(config: &Config<P>, seed: u32) -> Fault
    ensures { result ≡ drawn config.now.graph.ids seed }
{
    let mut random = Lcg64Xsh32::seed_from_u64(u64::from(seed));
    draw_fault(&mut random, config)
}

/// Writes the line of a fault that was drawn.
pub fn put_drawn<W: Write>(out: &mut W, fault: &Fault) -> Result<(), WriteFault>
    ensures ok { OnOk result (Appends (W.contents out.old) (W.contents out.new) (drawn_text fault.now)) }
    ensures err { OnErr result (AppendsPrefix (W.contents out.old) (W.contents out.new) (drawn_text fault.now)) }
{
    put_bytes(out, b"drawn ")?;
    write_fault(fault, out)?;
    put_bytes(out, b"\n")
}

/// The line that a refused fault is answered with.
pub fn fault_refusal_line(refusal: FaultRefusal) -> &'static [u8]
    ensures { result.now ≡ fault_refusal_text refusal }
{
    match refusal {
        FaultRefusal::StrangeNode => b"refused StrangeNode\n",
        FaultRefusal::BadValue => b"refused BadValue\n",
        FaultRefusal::BadLocal => b"refused BadLocal\n",
        FaultRefusal::NoSuchLink => b"refused NoSuchLink\n",
        FaultRefusal::LinkIsThere => b"refused LinkIsThere\n",
        FaultRefusal::NodeIsUp => b"refused NodeIsUp\n",
        FaultRefusal::NoMemory => b"refused NoMemory\n",
    }
}
