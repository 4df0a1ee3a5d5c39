// Writing bytes and numbers, each of them whole or up to a fault.
ghost use Rattle.std.specs.Prelude.{◌≡◌, [], IsOk, OnOk, OnErr, Some, codes};
ghost use Rattle.std.specs.Fmt.{decimal};
ghost use Rattle.std.specs.Io.KnownBytes.{Appends};
ghost use Rattle.action_tables.specs.Written.{AppendsPrefix};

use itoa::Buffer;
use std::error::Error;
use std::fmt;
use std::io::Write;

/// The writer failed. What had been written until then stays written.
#[derive(Clone, Copy, Debug, PartialEq, Eq)]
pub struct WriteFault;

impl fmt::Display for WriteFault {
    ghost output = { λ _. Some (codes "the output failed") };

    fn fmt<W: fmt::Write>(&self, f: &mut fmt::Formatter<W>) -> fmt::Result {
        f.write_str("the output failed")
    }
}

impl Error for WriteFault {}

/// Writes the bytes, in as many calls of `write` as the writer makes of them.
///
/// A call that fails or takes no byte is a fault, whatever its reason. It ends the writing, and
/// nothing is tried again, so that no byte is written twice or out of its turn.
// Nearly each piece is taken whole by the first call, of which the compiler knows how long the piece is.
#[inline(always)]
pub fn put_bytes<W: Write>(out: &mut W, bytes: &[u8]) -> Result<(), WriteFault>
    ensures ok { OnOk result (Appends (W.contents out.old) (W.contents out.new) bytes.now) }
    ensures err { OnErr result (AppendsPrefix (W.contents out.old) (W.contents out.new) bytes.now) }
    ensures none { bytes.now ≡ [] → IsOk result }
{
    if bytes.is_empty() {
        return Ok(());
    }
    match out.write(bytes) {
        Ok(0) | Err(_) => Err(WriteFault),
        Ok(count) if count == bytes.len() => Ok(()),
        Ok(count) => put_rest(out, &bytes[count..]),
    }
}

// Writes the bytes that the first call left.
#[inline(never)]
fn put_rest<W: Write>(out: &mut W, bytes: &[u8]) -> Result<(), WriteFault>
    ensures ok { OnOk result (Appends (W.contents out.old) (W.contents out.new) bytes.now) }
    ensures err { OnErr result (AppendsPrefix (W.contents out.old) (W.contents out.new) bytes.now) }
{
    let mut rest = bytes;
    while !rest.is_empty() {
        match out.write(rest) {
            Ok(0) | Err(_) => return Err(WriteFault),
            Ok(count) => rest = &rest[count..],
        }
    }
    Ok(())
}

/// Writes the number in decimal digits, without leading zeros.
pub fn put_number<W: Write>(out: &mut W, number: u64) -> Result<(), WriteFault>
    ensures ok { OnOk result (Appends (W.contents out.old) (W.contents out.new) (decimal number)) }
    ensures err { OnErr result (AppendsPrefix (W.contents out.old) (W.contents out.new) (decimal number)) }
{
    let mut buffer = Buffer::new();
    put_bytes(out, buffer.format(number).as_bytes())
}
