// Reading the text of a local state.
ghost use Rattle.std.specs.Prelude.{◌≡◌, ◌≢◌, ◌↔◌, List, Err, IfNone, IfOk, IfSome, IsTrue, OnOk, map};
ghost use Rattle.app_interface.specs.Listing.{EndsBelow, NoNext, ReadsOn};
ghost use Rattle.app_interface.specs.declared.refusal.LocalFault.TheVariants.{BadLocal};
ghost use Rattle.app_routes.specs.Entries.{AreRoutes, IsEntry};
ghost use Rattle.app_routes.specs.LocalText.{entry_text, routes_text};
ghost use Rattle.app_routes.specs.declared.entry.Entry.{Entry};

use crate::entry::Entry;
use crate::local::RoutesLocal;
use action_tables::{cut, read_number};
use app_interface::{LocalFault, read_id};
use smallvec::SmallVec;
use std::alloc::Global;

/// The local state with this text, `BadLocal` where there is none.
pub fn read_local(alloc: Global, text: &[u8]) -> Result<RoutesLocal, LocalFault>
    ensures ok { IfOk result (λ local. routes_text local ≡ text.now) }
    ensures local { IfOk result AreRoutes }
    ensures bad { result ≡ Err BadLocal → (local : List Entry) → AreRoutes local → routes_text local ≢ text.now }
{
    if text == b"-".as_slice() {
        return Ok(RoutesLocal::none(alloc));
    }
    let mut entries = SmallVec::new(alloc);
    let mut rest = text;
    while let Some((piece, more)) = cut(rest, b',') {
        push_entry(&mut entries, piece)?;
        rest = more;
    }
    push_entry(&mut entries, rest)?;
    Ok(RoutesLocal::from_ascending(entries))
}

// Puts the entry that the piece spells to the end of the list, which ascends.
fn push_entry(entries: &mut SmallVec<Entry, 4>, piece: &[u8]) -> Result<(), LocalFault>
    requires { AreRoutes entries.old.items }
    ensures ok { OnOk result (ReadsOn AreRoutes entry_text entries.old.items piece.now entries.new.items) }
    ensures bad { result ≡ Err BadLocal → NoNext AreRoutes entry_text entries.old.items piece.now }
{
    let Some(entry) = read_entry(piece) else {
        return Err(LocalFault::BadLocal);
    };
    if !is_above(entries.as_slice(), entry.destination) {
        return Err(LocalFault::BadLocal);
    }
    entries.push(entry)?;
    Ok(())
}

// Whether the destination is above that of the last entry.
fn is_above(entries: &[Entry], destination: u32) -> bool
    ensures { IsTrue result ↔ EndsBelow (map (λ e. e.destination) entries.now) destination }
{
    match entries {
        [] => true,
        [.., last] => last.destination < destination,
    }
}

// The entry that a text spells: a destination, hops and a next node, joined by colons.
fn read_entry(text: &[u8]) -> Option<Entry>
    ensures found { IfSome result (λ e. text.now ≡ entry_text e) }
    ensures entry { IfSome result IsEntry }
    ensures only { IfNone result ((e : Entry) → IsEntry e → text.now ≡ entry_text e → ⊥) }
{
    let (destination, rest) = cut(text, b':')?;
    let (hops, next) = cut(rest, b':')?;
    Some(Entry {
        destination: read_id(destination)?.get(),
        hops: read_number(hops)?,
        next: read_id(next)?.get(),
    })
}
