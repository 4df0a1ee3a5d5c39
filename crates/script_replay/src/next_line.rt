// The lines of a script, one after the other.

ghost use Rattle.std.specs.Prelude.{◌≡◌, ◌<◌, [], ◌∷◌, length, IfNone, IfSome};
ghost use Rattle.script_replay.specs.Lines.{lines_of};
ghost use Rattle.script_replay.specs.Parts.{next_text, HasFitting};

use crate::input::split_line;
use reset_machine::{Event, split_wave_event};

/// A line that a line feed ends: the command of a wave that it is, as an event, or its text.
#[derive(Clone, Copy)]
pub enum NextLine<'t> {
    Event(Event),
    Text(&'t [u8]),
}

/// The first line of a text and what follows its line feed, or `None` where the text has no line
/// feed: it is one line then. Most lines are commands of a wave, which are read without a search for the line's end.
#[inline(always)]
pub fn next_line(text: &[u8]) -> Option<(NextLine<'_>, &[u8])>
    ensures found { IfSome result (λ cut. lines_of text.now ≡ next_text cut.0 ∷ lines_of cut.1.now) }
    ensures fits { IfSome result (λ cut. HasFitting cut.0) }
    ensures shorter { IfSome result (λ cut. length cut.1.now < length text.now) }
    ensures only { IfNone result (lines_of text.now ≡ text.now ∷ []) }
{
    if let Some((event, after)) = split_wave_event(text) {
        return Some((NextLine::Event(event), after));
    }
    let (line, after) = split_line(text)?;
    Some((NextLine::Text(line), after))
}
