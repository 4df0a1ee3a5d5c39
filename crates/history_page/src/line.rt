// The lines of the data.

ghost use Rattle.std.specs.Prelude.{◌≡◌, ◌<◌, ◌++◌, OnErr, OnOk};
ghost use Rattle.std.specs.List.{flat_map, list_all};
ghost use Rattle.std.specs.Io.KnownBytes.{Appends};
ghost use Rattle.action_tables.specs.RowText.{part_text};
ghost use Rattle.action_tables.specs.Written.{AppendsPrefix};
ghost use Rattle.history_page.specs.Lines.{encoded_byte, hex_digit, is_plain, line_text};

use action_tables::{Part, WriteFault, put_bytes, put_parts};
use std::alloc::AllocError;
use std::io::Write;

// Adds parts to a line.
pub fn add_parts(line: &mut Vec<u8>, parts: &[Part<'_>]) -> Result<(), AllocError>
    ensures { OnOk result (line.new.items ≡ line.old.items ++ flat_map part_text parts.now) }
{
    match put_parts(line, parts) {
        Ok(()) => Ok(()),
        Err(WriteFault) => Err(AllocError),
    }
}

// Writes a line with its line feed. What would end the data or the line is encoded.
pub fn put_line<W: Write>(out: &mut W, line: &[u8]) -> Result<(), WriteFault>
    ensures ok { OnOk result (Appends (W.contents out.old) (W.contents out.new) (line_text line.now)) }
    ensures err { OnErr result (AppendsPrefix (W.contents out.old) (W.contents out.new) (line_text line.now)) }
{
    put_encoded(out, line)?;
    put_bytes(out, b"\n")
}

// Writes the bytes of a line, at once where each stands in the data as it is.
#[tactic(auto, using(crate::proofs::Plain::plain_encoded))]
fn put_encoded<W: Write>(out: &mut W, line: &[u8]) -> Result<(), WriteFault>
    ensures ok { OnOk result
        (Appends (W.contents out.old) (W.contents out.new) (flat_map encoded_byte line.now)) }
    ensures err { OnErr result
        (AppendsPrefix (W.contents out.old) (W.contents out.new) (flat_map encoded_byte line.now)) }
{
    if is_plain_line(line) {
        put_bytes(out, line)
    } else {
        put_each(out, line)
    }
}

// Writes the bytes of a line, one after another.
fn put_each<W: Write>(out: &mut W, line: &[u8]) -> Result<(), WriteFault>
    ensures ok { OnOk result
        (Appends (W.contents out.old) (W.contents out.new) (flat_map encoded_byte line.now)) }
    ensures err { OnErr result
        (AppendsPrefix (W.contents out.old) (W.contents out.new) (flat_map encoded_byte line.now)) }
{
    for byte in line {
        put_encoded_byte(out, *byte)?;
    }
    Ok(())
}

// Writes a byte of a line, as it is or as `%` and two hexadecimal digits.
fn put_encoded_byte<W: Write>(out: &mut W, byte: u8) -> Result<(), WriteFault>
    ensures ok { OnOk result (Appends (W.contents out.old) (W.contents out.new) (encoded_byte byte)) }
    ensures err { OnErr result (AppendsPrefix (W.contents out.old) (W.contents out.new) (encoded_byte byte)) }
{
    if is_plain(byte) {
        put_bytes(out, &[byte])
    } else {
        put_bytes(out, &[b'%', hex_digit(byte / 16), hex_digit(byte % 16)])
    }
}

// Whether each byte of a line stands in the data as it is.
fn is_plain_line(line: &[u8]) -> bool
    ensures { result ≡ list_all is_plain line.now }
{
    line.iter().all(|byte| is_plain(*byte))
}

// Whether a byte stands in the data as it is.
fn is_plain(byte: u8) -> bool
    ensures { result ≡ is_plain byte }
{
    byte >= 32 && byte <= 126 && byte != b'<' && byte != b'%'
}

// The hexadecimal digit of a number.
fn hex_digit(number: u8) -> u8
    requires { number < 16 }
    ensures { result ≡ hex_digit number }
{
    if number < 10 {
        48 + number
    } else {
        87 + number
    }
}
