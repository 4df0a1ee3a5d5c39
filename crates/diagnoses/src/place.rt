// Places of a text, as a person finds them.

ghost use Rattle.std.specs.Prelude.{◌≡◌, ◌≤◌, length};
ghost use Rattle.diagnoses.specs.Places.{line_at};

use script_replay::split_line;

/// The number of the line in which a place of a text is, counted from 1.
pub fn line_at(text: &[u8], at: usize) -> usize
    requires { at ≤ length text.now }
    ensures { result ≡ line_at text.now at }
{
    let mut rest = &text[..at];
    let mut number = 1;
    while let Some((_, after)) = split_line(rest) {
        rest = after;
        number += 1;
    }
    number
}

/// The number of the column in which a place of a text is: of the characters of its line, counted from 1.
pub fn column_at(text: &[u8], at: usize) -> usize
    requires { at ≤ length text.now }
{
    let before = &text[..at];
    let line = match before.iter().rposition(|byte| *byte == b'\n') {
        Some(end) => &before[end + 1..],
        None => before,
    };
    line.iter().filter(|byte| begins_character(**byte)).count() + 1
}

// Whether a character of UTF-8 begins with this byte, and doesn't go on with it.
fn begins_character(byte: u8) -> bool {
    byte & 0xC0 != 0x80
}
