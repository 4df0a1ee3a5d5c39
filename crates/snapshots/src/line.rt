// The lines of a snapshot.

ghost use Rattle.std.specs.Prelude.{◌≡◌, ◌≢◌, ◌∷◌, Option, Some, IfErr, IfNone, IfOk, IfSome, codes};
ghost use Rattle.reset_model.specs.Words.{words_of};
ghost use Rattle.applications.specs.Meaning.{meaning_of};
ghost use Rattle.script_replay.specs.Script.{is_silent};
ghost use Rattle.snapshots.specs.Items.{Spells};
ghost use Rattle.snapshots.specs.Reading.{Says};
ghost use Rattle.snapshots.specs.Words.{IsReadOf};
ghost use Rattle.snapshots.specs.declared.item.Item.{Item};

use crate::fault::SnapshotFault;
use crate::item::{Item, NodeState};
use crate::words::split_state;
use action_tables::read_number;
use app_interface::LocalFault;
use app_invariants::Invariant;
use reset_machine::{split_word, two_numbers};
use std::alloc::{AllocError, Global};

/// The most bytes of a line of a snapshot, without its line feed: the local state of a node with many neighbours is
/// long.
pub const MAX_SNAPSHOT_LINE: usize = 65_536;

/// What the line with this number says, or that it is bad. Lines count from 1.
pub(crate) fn read_line<P: Invariant>(
    alloc: Global,
    number: usize,
    line: &[u8],
) -> Result<Option<Item<P::Local>>, SnapshotFault>
    ensures ok { IfOk result (Says (meaning_of P.app P.text P.from_text P.names P.counts) number line.now) }
    ensures err { IfErr result (λ f. f ≢ SnapshotFault.NoMemory → (f ≡ SnapshotFault.BadLine number)
        × ((said : Option (Item P.Local)) → Says (meaning_of P.app P.text P.from_text P.names P.counts)
        number line.now said
        → ⊥)) }
{
    if line.len() > MAX_SNAPSHOT_LINE {
        return Err(SnapshotFault::BadLine(number));
    }
    if is_silent(line) {
        return Ok(None);
    }
    match read_item::<P>(alloc, number, line)? {
        Some(item) => Ok(Some(item)),
        None => Err(SnapshotFault::BadLine(number)),
    }
}

// Whether the line is empty or a comment.
fn is_silent(line: &[u8]) -> bool
    ensures { result ≡ is_silent line.now }
{
    matches!(line, [] | [b'#', ..])
}

// The item that the line with this number spells.
fn read_item<P: Invariant>(
    alloc: Global,
    number: usize,
    line: &[u8],
) -> Result<Option<Item<P::Local>>, AllocError>
    ensures found { IfOk result
        (λ read. IfSome read (Spells (meaning_of P.app P.text P.from_text P.names P.counts) number line.now)) }
    ensures only { IfOk result (λ read. IfNone read ((item : Item P.Local)
        → Spells (meaning_of P.app P.text P.from_text P.names P.counts) number line.now item → ⊥)) }
{
    read_words::<P>(alloc, number, line)
}

// The same by the words of the line.
fn read_words<P: Invariant>(
    alloc: Global,
    number: usize,
    line: &[u8],
) -> Result<Option<Item<P::Local>>, AllocError>
    ensures { IfOk result (IsReadOf (meaning_of P.app P.text P.from_text P.names P.counts) number (words_of line.now)) }
{
    let Some((command, rest)) = split_word(line) else {
        return Ok(None);
    };
    if command == b"reset-snapshot".as_slice() {
        return Ok(read_version::<P>(number, rest));
    }
    match command {
        b"node" => read_node::<P>(alloc, number, rest),
        b"link" => Ok(read_link::<P>(number, rest)),
        _ => Ok(None),
    }
}

// The node of a line, by what follows its first word.
fn read_node<P: Invariant>(
    alloc: Global,
    number: usize,
    text: &[u8],
) -> Result<Option<Item<P::Local>>, AllocError>
    ensures { IfOk result
        (IsReadOf (meaning_of P.app P.text P.from_text P.names P.counts) number (codes "node" ∷ words_of text.now)) }
{
    let Some((id, tree, wave, local)) = split_state(text) else {
        return Ok(None);
    };
    match P::read_local(alloc, local) {
        Ok(local) => Ok(Some(Item::Node(NodeState {
            id,
            tree,
            wave,
            local,
        }))),
        Err(LocalFault::BadLocal) => Ok(None),
        Err(LocalFault::NoMemory) => Err(AllocError),
    }
}

// The link of a line, or that there is none, by what follows its first word.
fn read_link<P: Invariant>(number: usize, text: &[u8]) -> Option<Item<P::Local>>
    ensures { IsReadOf (meaning_of P.app P.text P.from_text P.names P.counts)
        number (codes "link" ∷ words_of text.now) result }
{
    if text == b"-".as_slice() {
        return Some(Item::NoLink);
    }
    let (a, b) = two_numbers(text)?;
    Some(Item::Link(a, b))
}

// The version of a first line, by what follows its first word.
fn read_version<P: Invariant>(number: usize, text: &[u8]) -> Option<Item<P::Local>>
    ensures { IsReadOf (meaning_of P.app P.text P.from_text P.names P.counts) number
        (codes "reset-snapshot" ∷ words_of text.now) result }
{
    if number != 1 {
        return None;
    }
    let version = read_number(text)?;
    Some(Item::Version(version))
}
