// Reading the text of a local state.
ghost use Rattle.std.specs.Prelude.{◌≡◌, ◌≢◌, ◌↔◌, ℕ, Bool, List, Err, IfNone, IfOk, IfSome, IsTrue, OnOk};
ghost use Rattle.std.specs.Fmt.{decimal};
ghost use Rattle.action_tables.specs.RowText.{set_text};
ghost use Rattle.app_interface.specs.Listing.{EndsBelow, NoNext, ReadsOn};
ghost use Rattle.app_interface.specs.declared.refusal.LocalFault.TheVariants.{BadLocal};
ghost use Rattle.app_token.specs.Bits.{IsBits};
ghost use Rattle.app_token.specs.LocalText.{IsTokenLocal, hold_text, local_text};
ghost use Rattle.app_token.specs.declared.local.TokenLocal.{TokenLocal};

use crate::bits::Bits;
use crate::local::TokenLocal;
use action_tables::cut;
use app_interface::{LocalFault, read_id};
use smallvec::SmallVec;
use std::alloc::Global;

/// The local state with this text, `BadLocal` where there is none.
pub fn read_local(alloc: Global, text: &[u8]) -> Result<TokenLocal, LocalFault>
    ensures ok { IfOk result (λ local. local_text local ≡ text.now) }
    ensures local { IfOk result IsTokenLocal }
    ensures bad { result ≡ Err BadLocal → (local : TokenLocal) → IsTokenLocal local → local_text local ≢ text.now }
{
    let Some((hold, lists)) = cut(text, b'/') else {
        return Err(LocalFault::BadLocal);
    };
    let Some((given, taken)) = cut(lists, b'/') else {
        return Err(LocalFault::BadLocal);
    };
    let Some(hold) = read_hold(hold) else {
        return Err(LocalFault::BadLocal);
    };
    let given = read_ids(alloc, given)?;
    let taken = read_ids(alloc, taken)?;
    Ok(TokenLocal { hold, given, taken })
}

// Whether the text says that the token is held.
fn read_hold(text: &[u8]) -> Option<bool>
    ensures found { IfSome result (λ hold. hold_text hold ≡ text.now) }
    ensures only { IfNone result ((hold : Bool) → hold_text hold ≢ text.now) }
{
    if text == b"hold".as_slice() {
        Some(true)
    } else if text == b"free".as_slice() {
        Some(false)
    } else {
        None
    }
}

// The identifiers that a text lists.
fn read_ids(alloc: Global, text: &[u8]) -> Result<Bits, LocalFault>
    ensures ok { IfOk result (λ ids. set_text ids ≡ text.now) }
    ensures bits { IfOk result IsBits }
    ensures bad { result ≡ Err BadLocal → (ids : List ℕ) → IsBits ids → set_text ids ≢ text.now }
{
    if text == b"-".as_slice() {
        return Ok(Bits::none(alloc));
    }
    let mut ids = SmallVec::new(alloc);
    let mut rest = text;
    while let Some((piece, more)) = cut(rest, b',') {
        push_id(&mut ids, piece)?;
        rest = more;
    }
    push_id(&mut ids, rest)?;
    Ok(Bits::from_ascending(ids))
}

// Puts the identifier that the piece spells to the end of the list, which ascends.
fn push_id(ids: &mut SmallVec<u32, 4>, piece: &[u8]) -> Result<(), LocalFault>
    requires { IsBits ids.old.items }
    ensures ok { OnOk result (ReadsOn IsBits decimal ids.old.items piece.now ids.new.items) }
    ensures bad { result ≡ Err BadLocal → NoNext IsBits decimal ids.old.items piece.now }
{
    let Some(id) = read_id(piece) else {
        return Err(LocalFault::BadLocal);
    };
    if !is_above(ids.as_slice(), id.get()) {
        return Err(LocalFault::BadLocal);
    }
    ids.push(id.get())?;
    Ok(())
}

// Whether the identifier is above the last of the list.
fn is_above(ids: &[u32], id: u32) -> bool
    ensures { IsTrue result ↔ EndsBelow ids.now id }
{
    match ids {
        [] => true,
        [.., last] => *last < id,
    }
}
