// The lines that stand for faults.

ghost use Rattle.std.specs.Prelude.{◌≡◌, ℕ, ◌<◌, ◌^◌, ◌↔◌, List, ◌∷◌, ◌++◌, codes};
ghost use Rattle.std.specs.Prelude.{IfNone, IfOk, IfSome, IsTrue, OnErr, OnOk};
ghost use Rattle.std.specs.Fmt.{decimal};
ghost use Rattle.std.specs.Io.KnownBytes.{Appends};
ghost use Rattle.action_tables.specs.Written.{AppendsPrefix};
ghost use Rattle.reset_model.specs.Words.{words_of};
ghost use Rattle.fault_inject.specs.declared.fault.Fault.{Fault};
ghost use Rattle.fault_inject.specs.declared.fault.Fault.TheVariants.{SetTree, SetWave};
ghost use Rattle.fault_inject.specs.FaultText.{Fits, IsLocalFault, IsOneWord, IsReadOf, fault_line};
ghost use Rattle.wave_layer.specs.Names.{phase_name};
ghost use Rattle.wave_layer.specs.declared.regs.Phase.{Phase};

use crate::fault::Fault;
use crate::local_text::LocalText;
use action_tables::{Part, WriteFault, cut, put_parts, read_number};
use reset_machine::{split_word, two_numbers};
use std::alloc::{AllocError, Global};
use std::io::Write;
use tree_layer::TreeRegs;
use wave_layer::{Phase, WaveRegs};

/// Two faults that have one line are the same fault, where their numbers are below 2 ^ 32 and their
/// texts one word.
pub fn one_fault_a_line()
    ensures { (f g : Fault) → Fits f → Fits g → fault_line f ≡ fault_line g → f ≡ g }
{}

/// The fault that a line without its line feed stands for, or `None` where it stands for none. The text
/// of a local state may have any bytes but spaces, and has one at least: which of them a line may have is
/// for the reader of lines to say.
pub fn read_fault(alloc: Global, line: &[u8]) -> Result<Option<Fault>, AllocError>
    ensures found { IfOk result (λ read. IfSome read (λ f. line.now ≡ fault_line f)) }
    ensures fits { IfOk result (λ read. IfSome read Fits) }
    ensures only { IfOk result (λ read. IfNone read ((f : Fault) → Fits f → line.now ≡ fault_line f → ⊥)) }

    // Memory is asked for the text of a local state alone.
    ensures memory { OnErr result (IsLocalFault (words_of line.now)) }
{
    let Some((command, rest)) = split_word(line) else {
        return Ok(None);
    };
    if command == b"fault".as_slice() {
        fault_of(alloc, rest)
    } else {
        Ok(None)
    }
}

// The fault of the words after the command.
fn fault_of(alloc: Global, text: &[u8]) -> Result<Option<Fault>, AllocError>
    ensures read { IfOk result (IsReadOf (codes "fault" ∷ words_of text.now)) }
    ensures memory { OnErr result (IsLocalFault (codes "fault" ∷ words_of text.now)) }
{
    let Some((kind, rest)) = split_word(text) else {
        return Ok(None);
    };
    match kind {
        b"tree" => Ok(tree_fault(rest)),
        b"wave" => Ok(wave_fault(rest)),
        b"local" => local_fault(alloc, rest),
        b"down" => Ok(link_down(rest)),
        b"up" => Ok(link_up(rest)),
        b"off" => Ok(node_down(rest)),
        b"on" => Ok(node_up(rest)),
        _ => Ok(None),
    }
}

// The fault of a node and its tree registers.
fn tree_fault(text: &[u8]) -> Option<Fault>
    ensures { IsReadOf (codes "fault" ∷ codes "tree" ∷ words_of text.now) result }
{
    let (at, rest) = split_number(text)?;
    let (root, rest) = split_number(rest)?;
    let (father, dist) = two_numbers(rest)?;
    Some(Fault::SetTree {
        at,
        regs: TreeRegs { root, father, dist },
    })
}

// The fault of a node and its wave registers.
fn wave_fault(text: &[u8]) -> Option<Fault>
    ensures { IsReadOf (codes "fault" ∷ codes "wave" ∷ words_of text.now) result }
{
    let (at, rest) = split_number(text)?;
    let (phase, session) = split_word(rest)?;
    Some(Fault::SetWave {
        at,
        regs: WaveRegs {
            phase: phase_named(phase)?,
            session: read_number(session)?,
        },
    })
}

// The fault of a node and the text of a local state.
fn local_fault(alloc: Global, text: &[u8]) -> Result<Option<Fault>, AllocError>
    ensures read { IfOk result (IsReadOf (codes "fault" ∷ codes "local" ∷ words_of text.now)) }
    ensures memory { OnErr result (IsLocalFault (codes "fault" ∷ codes "local" ∷ words_of text.now)) }
{
    let Some((at, word)) = split_number(text) else {
        return Ok(None);
    };
    if !is_one_word(word) {
        return Ok(None);
    }
    let bytes = word.to_vec(alloc)?;
    let text = LocalText::new(bytes);
    Ok(Some(Fault::SetLocal { at, text }))
}

// The fault of a link that goes down.
fn link_down(text: &[u8]) -> Option<Fault>
    ensures { IsReadOf (codes "fault" ∷ codes "down" ∷ words_of text.now) result }
{
    let (a, b) = two_numbers(text)?;
    Some(Fault::LinkDown { a, b })
}

// The fault of a link that comes up.
fn link_up(text: &[u8]) -> Option<Fault>
    ensures { IsReadOf (codes "fault" ∷ codes "up" ∷ words_of text.now) result }
{
    let (a, b) = two_numbers(text)?;
    Some(Fault::LinkUp { a, b })
}

// The fault of a node that goes down.
fn node_down(text: &[u8]) -> Option<Fault>
    ensures { IsReadOf (codes "fault" ∷ codes "off" ∷ words_of text.now) result }
{
    let at = read_number(text)?;
    Some(Fault::NodeDown { at })
}

// The fault of a node that comes up.
fn node_up(text: &[u8]) -> Option<Fault>
    ensures { IsReadOf (codes "fault" ∷ codes "on" ∷ words_of text.now) result }
{
    let at = read_number(text)?;
    Some(Fault::NodeUp { at })
}

// The number that is the first word of a text, and what follows the space after it.
fn split_number(text: &[u8]) -> Option<(u32, &[u8])>
    ensures found { IfSome result (λ parts. words_of text.now ≡ decimal parts.0 ∷ words_of parts.1.now) }
    ensures small { IfSome result (λ parts. parts.0 < 2 ^ 32) }
    ensures only { IfNone result ((n : ℕ) (word : List ℕ) (words : List (List ℕ)) → n < 2 ^ 32
        → words_of text.now ≡ decimal n ∷ word ∷ words → ⊥) }
{
    let (number, rest) = split_word(text)?;
    Some((read_number(number)?, rest))
}

// Whether a text is one word of a line.
fn is_one_word(text: &[u8]) -> bool
    ensures { IsTrue result ↔ IsOneWord text.now }
{
    !text.is_empty() && cut(text, b' ').is_none()
}

// The phase with this name.
fn phase_named(word: &[u8]) -> Option<Phase>
    ensures found { IfSome result (λ phase. word.now ≡ phase_name phase) }
    ensures only { IfNone result ((phase : Phase) → word.now ≡ phase_name phase → ⊥) }
{
    match word {
        b"normal" => Some(Phase::Normal),
        b"initiate" => Some(Phase::Initiate),
        b"reset" => Some(Phase::Reset),
        _ => None,
    }
}

/// Writes the line that stands for the fault, without a line feed. The text of a local state is written
/// as it stands: where it isn't one word, the line is no fault's that could be read.
pub fn write_fault<W: Write>(fault: &Fault, out: &mut W) -> Result<(), WriteFault>
    ensures ok { OnOk result (Appends (W.contents out.old) (W.contents out.new) (fault_line fault.now)) }
    ensures err { OnErr result (AppendsPrefix (W.contents out.old) (W.contents out.new) (fault_line fault.now)) }
{
    match fault {
        Fault::SetTree { at, regs } => put_tree(out, *at, *regs),
        Fault::SetWave { at, regs } => put_wave(out, *at, *regs),
        Fault::SetLocal { at, text } => put_local(out, *at, text.as_bytes()),
        Fault::LinkDown { a, b } => put_link(out, b"fault down ", *a, *b),
        Fault::LinkUp { a, b } => put_link(out, b"fault up ", *a, *b),
        Fault::NodeDown { at } => put_node(out, b"fault off ", *at),
        Fault::NodeUp { at } => put_node(out, b"fault on ", *at),
    }
}

// Writes the fault of a node and its tree registers.
fn put_tree<W: Write>(out: &mut W, at: u32, regs: TreeRegs) -> Result<(), WriteFault>
    ensures ok { OnOk result (Appends (W.contents out.old) (W.contents out.new) (fault_line (SetTree at regs))) }
    ensures err { OnErr result
        (AppendsPrefix (W.contents out.old) (W.contents out.new) (fault_line (SetTree at regs))) }
{
    put_parts(
        out,
        &[
            Part::Text(b"fault tree "),
            Part::Number(u64::from(at)),
            Part::Text(b" "),
            Part::Number(u64::from(regs.root)),
            Part::Text(b" "),
            Part::Number(u64::from(regs.father)),
            Part::Text(b" "),
            Part::Number(u64::from(regs.dist)),
        ],
    )
}

// Writes the fault of a node and its wave registers.
fn put_wave<W: Write>(out: &mut W, at: u32, regs: WaveRegs) -> Result<(), WriteFault>
    ensures ok { OnOk result (Appends (W.contents out.old) (W.contents out.new) (fault_line (SetWave at regs))) }
    ensures err { OnErr result
        (AppendsPrefix (W.contents out.old) (W.contents out.new) (fault_line (SetWave at regs))) }
{
    put_parts(
        out,
        &[
            Part::Text(b"fault wave "),
            Part::Number(u64::from(at)),
            Part::Text(b" "),
            Part::Text(regs.phase.name().as_bytes()),
            Part::Text(b" "),
            Part::Number(u64::from(regs.session)),
        ],
    )
}

// Writes the fault of a node and the text of a local state.
fn put_local<W: Write>(out: &mut W, at: u32, text: &[u8]) -> Result<(), WriteFault>
    ensures ok { OnOk result (Appends (W.contents out.old) (W.contents out.new)
        (codes "fault local " ++ (decimal at ++ (32 ∷ text.now)))) }
    ensures err { OnErr result (AppendsPrefix (W.contents out.old) (W.contents out.new)
        (codes "fault local " ++ (decimal at ++ (32 ∷ text.now)))) }
{
    put_parts(
        out,
        &[
            Part::Text(b"fault local "),
            Part::Number(u64::from(at)),
            Part::Text(b" "),
            Part::Text(text),
        ],
    )
}

// Writes the fault of a link after this command.
fn put_link<W: Write>(out: &mut W, command: &[u8], a: u32, b: u32) -> Result<(), WriteFault>
    ensures ok { OnOk result (Appends (W.contents out.old) (W.contents out.new)
        (command.now ++ (decimal a ++ (32 ∷ decimal b)))) }
    ensures err { OnErr result (AppendsPrefix (W.contents out.old) (W.contents out.new)
        (command.now ++ (decimal a ++ (32 ∷ decimal b)))) }
{
    put_parts(
        out,
        &[
            Part::Text(command),
            Part::Number(u64::from(a)),
            Part::Text(b" "),
            Part::Number(u64::from(b)),
        ],
    )
}

// Writes the fault of a node after this command.
fn put_node<W: Write>(out: &mut W, command: &[u8], at: u32) -> Result<(), WriteFault>
    ensures ok { OnOk result (Appends (W.contents out.old) (W.contents out.new) (command.now ++ decimal at)) }
    ensures err { OnErr result (AppendsPrefix (W.contents out.old) (W.contents out.new) (command.now ++ decimal at)) }
{
    put_parts(out, &[Part::Text(command), Part::Number(u64::from(at))])
}
