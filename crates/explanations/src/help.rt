// The help that a line of a session asks for.

ghost use Rattle.std.specs.Prelude.{◌≡◌, option_map};
ghost use Rattle.explanations.specs.Help.{asked_word, explanation_text, general_help, helped, word_help};
ghost use Rattle.explanations.specs.declared.help.TheConstants.{COMMANDS_HELP};

use crate::explained::{NO_SUCH_WORD, explanation_of};
use crate::topics::TOPICS;

// The commands of a session, a line each.
pub const COMMANDS_HELP: &str = "\
request I                      node I asks for a reset
relay I C                      node I passes on the request of its child C
open I                         the root I opens the next session, and restarts
join I                         node I joins its father's session, and restarts
finish I                       node I is done with the reset, and so are its children
claim I                        node I takes itself for the root
follow I                       node I takes over its father's root and distance
adopt I J                      node I takes its neighbour J as father
mend I                         node I takes over its father's phase and session
act I CASE [J]                 node I takes an action of the application
show [I]                       the registers of all nodes, or of node I
newest                         the local states in the newest sessions
enabled I                      the rows of the tables that node I may take
ready                          the nodes that have something to do
moves [I]                      the commands that are allowed now
check [I]                      the rows of the tables that fail
invariant                      what the application's nodes do together, in each component
alarm I                        the first fault of the application that node I sees
watch I                        the same, and node I asks for a reset where it sees one
snapshot                       the whole configuration
fault tree I ROOT FATHER DIST  sets the tree registers of node I
fault wave I PHASE SESSION     sets the wave registers of node I
fault local I TEXT             sets the local state of node I
fault down A B                 takes a link down
fault up A B                   brings a link up
fault off I                    takes node I down
fault on I                     brings node I up
draw SEED                      a random fault
explain [WORD]                 what a word of an answer or a command means
help                           these lines
exit                           ends the session
";

// The longest line that isn't bad for its length alone.
const MAX_LINE: usize = 256;

/// The commands of a session, a line each: the command, two spaces or more, and what it does.
pub fn command_lines() -> &'static str
    ensures { result.now ≡ COMMANDS_HELP.now }
{
    COMMANDS_HELP
}

/// The help that a line asks for, in lines: `help` for the commands, `explain` for the words that have an explanation,
/// `explain WORD` for what a word means, or that it isn't known. None for any other line, and for one of over 256 bytes.
pub fn help_for(line: &[u8]) -> Option<&'static str>
    ensures { option_map (λ text. text.now) result ≡ helped line.now }
{
    general_help(line).or(word_help(line))
}

// The help of a line that names no word.
fn general_help(line: &[u8]) -> Option<&'static str>
    ensures { option_map (λ text. text.now) result ≡ general_help line.now }
{
    if line == b"help".as_slice() {
        return Some(COMMANDS_HELP);
    }
    if line == b"explain".as_slice() {
        return Some(TOPICS);
    }
    None
}

// What a word means, if the line asks for that.
fn word_help(line: &[u8]) -> Option<&'static str>
    ensures { option_map (λ text. text.now) result ≡ word_help line.now }
{
    match asked_word(line) {
        Some(word) => Some(meaning_of(word)),
        None => None,
    }
}

// The word of which a line asks what it means.
fn asked_word(line: &[u8]) -> Option<&[u8]>
    ensures { option_map (λ word. word.now) result ≡ asked_word line.now }
{
    if line.len() > MAX_LINE {
        return None;
    }
    line.strip_prefix(b"explain ".as_slice())
}

// What a word means, or that it isn't known.
fn meaning_of(word: &[u8]) -> &'static str
    ensures { result.now ≡ explanation_text word.now }
{
    match explanation_of(word) {
        Some(text) => text,
        None => NO_SUCH_WORD,
    }
}
