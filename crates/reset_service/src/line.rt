// A line that is put together before it is written, so that it goes to the writer in one piece.

ghost use Rattle.std.specs.Prelude.{◌≡◌, ◌+◌, ◌≤◌, List, ℕ, [], ◌++◌, length, take};
ghost use Rattle.std.specs.Fmt.{decimal};
ghost use Rattle.reset_service.specs.declared.line.TheConstants.{ROOM};

use itoa::Buffer;
use std::marker::Model;

// How many bytes a line may have.
const ROOM: usize = 96;

// The bytes of a line so far. They stand on the stack, so that a line asks for no memory.
#[derive(Drop)]
pub(crate) struct LineBuffer {
    bytes: [u8; ROOM],
    len: usize,
}

impl Model for LineBuffer {
    ghost Value = { List ℕ };

    ghost view = { λ line. take line.len line.bytes };

    ghost invariant = { λ line. line.len ≤ ROOM };
}

impl LineBuffer {
    // A line with nothing in it.
    pub(crate) fn new() -> LineBuffer
        ensures { result ≡ [] }
    {
        LineBuffer {
            bytes: [0; ROOM],
            len: 0,
        }
    }

    // The bytes of the line.
    pub(crate) fn as_slice(&self) -> &[u8]
        ensures { result.now ≡ self.now }
    {
        &self.bytes[..self.len]
    }

    // Adds a text.
    pub(crate) fn push_text(&mut self, text: &[u8])
        requires { length self.old + length text.now ≤ ROOM }
        ensures pushed { self.new ≡ self.old ++ text.now }
        ensures length { length self.new ≡ length self.old + length text.now }
    {
        let end = self.len + text.len();
        self.bytes[self.len..end].copy_from_slice(text);
        self.len = end;
    }

    // Adds the decimal digits of a number, where there is room for any.
    pub(crate) fn push_number(&mut self, number: u64)
        requires { length self.old + 20 ≤ ROOM }
        ensures pushed { self.new ≡ self.old ++ decimal number }
        ensures length { length self.new ≤ length self.old + 20 }
    {
        let mut digits = Buffer::new();
        self.push_text(digits.format(number).as_bytes());
    }
}
