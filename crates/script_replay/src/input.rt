// Reading texts up to their limit, and cutting them.

ghost use Rattle.std.specs.Prelude.{◌≡◌, ◌+◌, ◌<◌, ◌≤◌, [], ◌∷◌, length, IfOk, IfErr, IfSome, IfNone, IsTrue};
ghost use Rattle.std.specs.Prelude.{◌↔◌};
ghost use Rattle.std.specs.List.{position};
ghost use Rattle.std.specs.Io.KnownBytes.{Consumes, IsAtEnd};
ghost use Rattle.script_replay.specs.Lines.{is_line_feed, lines_of, separator, IsCut, IsReadFrom};
ghost use Rattle.script_replay.specs.Parts.{ReadMore};
ghost use Rattle.script_replay.specs.Stops.{IsInputStop};
ghost use Rattle.script_replay.specs.declared.input.TheConstants.{READ_LIMIT};

use crate::status::RunStop;
use memchr::memchr;
use std::alloc::Global;
use std::io::Read;
use topology::MAX_TEXT;

/// The most bytes that are read of a text: one more than a good text has.
pub const READ_LIMIT: usize = MAX_TEXT + 1;

// The most bytes that are asked of a reader at once.
const CHUNK: usize = 8192;

/// Reads a text to its end, or its first `READ_LIMIT` bytes, and takes no byte of the reader beyond these.
/// A failed read ends the reading, and is not tried again.
pub fn read_text<R: Read>(alloc: Global, reader: &mut R) -> Result<Vec<u8>, RunStop>
    ensures ok { IfOk result (λ text. IsReadFrom (R.remaining reader.old) text.items) }
    ensures taken { IfOk result (λ text. Consumes (R.remaining reader.old) (R.remaining reader.new) text.items) }
    ensures most { IfOk result (λ text. length text.items ≤ READ_LIMIT) }
    ensures err { IfErr result IsInputStop }
{
    let mut text = Vec::new(alloc);
    let mut chunk = [0; CHUNK];
    while text.len() < READ_LIMIT {
        let room = CHUNK.min(READ_LIMIT - text.len());
        if read_once(reader, &mut chunk[..room], &mut text)? == 0 {
            return Ok(text);
        }
    }
    Ok(text)
}

// Appends what one read gives, at most as many bytes as the chunk has, and answers their number.
fn read_once<R: Read>(
    reader: &mut R,
    chunk: &mut [u8],
    text: &mut Vec<u8>,
) -> Result<usize, RunStop>
    ensures ok { IfOk result
        (λ n. ReadMore (R.remaining reader.old) (R.remaining reader.new) text.old.items text.new.items n) }
    ensures most { IfOk result (λ n. n ≤ length chunk.old) }
    ensures end { IfOk result (λ n. n ≡ 0 → 0 < length chunk.old → IsAtEnd (R.remaining reader.new)) }
    ensures err { IfErr result IsInputStop }
{
    match reader.read(chunk) {
        Ok(count) => {
            text.extend_from_slice(&chunk[..count])?;
            Ok(count)
        }
        Err(_) => Err(RunStop::ReadFailed),
    }
}

/// The first line of a text and what follows its line feed, or `None` where the text has no line
/// feed: it is one line then.
pub fn split_line(text: &[u8]) -> Option<(&[u8], &[u8])>
    ensures found { IfSome result (λ cut. lines_of text.now ≡ cut.0.now ∷ lines_of cut.1.now) }
    ensures shorter { IfSome result (λ cut. length cut.1.now < length text.now) }
    ensures only { IfNone result (lines_of text.now ≡ text.now ∷ []) }
{
    let end = first_line_feed(text)?;
    Some((&text[..end], &text[end + 1..]))
}

fn first_line_feed(text: &[u8]) -> Option<usize>
    ensures { result ≡ position is_line_feed text.now }
{
    memchr(b'\n', text)
}

/// Cuts a joined text at its first line that is exactly `---`: the topology before that line, and
/// the script after it. Without such a line all of it is the topology, and the script is empty.
pub fn cut_joined(joined: &[u8]) -> (&[u8], &[u8])
    ensures { IsCut joined.now result.0.now result.1.now }
{
    let mut rest = joined;
    while let Some((line, after)) = split_line(rest) {
        if is_separator(line) {
            return (&joined[..joined.len() - rest.len()], after);
        }
        rest = after;
    }
    if is_separator(rest) {
        (&joined[..joined.len() - rest.len()], b"")
    } else {
        (joined, b"")
    }
}

fn is_separator(line: &[u8]) -> bool
    ensures { IsTrue result ↔ (line.now ≡ separator) }
{
    line == b"---".as_slice()
}
