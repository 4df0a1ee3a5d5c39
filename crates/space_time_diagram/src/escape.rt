// Texts as XML has them.

ghost use Rattle.std.specs.Prelude.{◌≡◌, IfOk, OnErr, OnOk};
ghost use Rattle.std.specs.Io.KnownBytes.{Appends};
ghost use Rattle.action_tables.specs.Written.{AppendsPrefix};
ghost use Rattle.history.specs.HistoryText.{entry_line};
ghost use Rattle.space_time_diagram.specs.Marks.{escaped, escaped_byte};

use action_tables::{WriteFault, put_bytes};
use fault_inject::write_fault;
use history::Entry;
use reset_machine::write_event;
use std::alloc::{AllocError, Global};
use std::io::Write;

// The line of an entry, as XML has it.
pub fn escaped_line(alloc: Global, entry: &Entry) -> Result<Vec<u8>, AllocError>
    ensures { IfOk result (λ text. text.items ≡ escaped (entry_line entry.now)) }
{
    let line = entry_line(alloc, entry)?;
    let mut text = Vec::new(alloc);
    match put_escaped(&mut text, &line) {
        Ok(()) => Ok(text),
        Err(WriteFault) => Err(AllocError),
    }
}

// The line of an entry.
fn entry_line(alloc: Global, entry: &Entry) -> Result<Vec<u8>, AllocError>
    ensures { IfOk result (λ line. line.items ≡ entry_line entry.now) }
{
    let mut line = Vec::new(alloc);
    match put_line(&mut line, entry) {
        Ok(()) => Ok(line),
        Err(WriteFault) => Err(AllocError),
    }
}

// Writes the line of an entry.
fn put_line<W: Write>(out: &mut W, entry: &Entry) -> Result<(), WriteFault>
    ensures ok { OnOk result (Appends (W.contents out.old) (W.contents out.new) (entry_line entry.now)) }
    ensures err { OnErr result (AppendsPrefix (W.contents out.old) (W.contents out.new) (entry_line entry.now)) }
{
    match entry {
        Entry::Step(event) => write_event(event, out),
        Entry::Disturbed(fault) => write_fault(fault, out),
    }
}

// Writes a text, as XML has it.
fn put_escaped<W: Write>(out: &mut W, text: &[u8]) -> Result<(), WriteFault>
    ensures ok { OnOk result (Appends (W.contents out.old) (W.contents out.new) (escaped text.now)) }
    ensures err { OnErr result (AppendsPrefix (W.contents out.old) (W.contents out.new) (escaped text.now)) }
{
    for byte in text {
        put_escaped_byte(out, *byte)?;
    }
    Ok(())
}

// Writes a byte of a text, as XML has it.
fn put_escaped_byte<W: Write>(out: &mut W, byte: u8) -> Result<(), WriteFault>
    ensures ok { OnOk result (Appends (W.contents out.old) (W.contents out.new) (escaped_byte byte)) }
    ensures err { OnErr result (AppendsPrefix (W.contents out.old) (W.contents out.new) (escaped_byte byte)) }
{
    match byte {
        b'<' => put_bytes(out, b"&lt;"),
        b'>' => put_bytes(out, b"&gt;"),
        b'&' => put_bytes(out, b"&amp;"),
        _ => put_bytes(out, &[byte]),
    }
}
