// What a node keeps.
ghost use Rattle.std.specs.Prelude.{◌≡◌, ◌↔◌, [], IfOk, IsTrue};
ghost use Rattle.app_token.specs.Bits.{IsBits};

use crate::bits::Bits;
use std::alloc::{AllocError, Global};

/// What a node keeps: whether it holds the token, and for each neighbour the bit that it turns over
/// when it gives the token there, and the one that it turns over when it takes the token from there.
#[derive(Drop)]
pub struct TokenLocal {
    pub hold: bool,
    pub given: Bits,
    pub taken: Bits,
}

impl TokenLocal {
    /// A node with all bits zero.
    pub(crate) fn start(alloc: Global, hold: bool) -> TokenLocal
        ensures { result ≡ record { hold = hold; given = []; taken = [] } }
    {
        TokenLocal {
            hold,
            given: Bits::none(alloc),
            taken: Bits::none(alloc),
        }
    }

    /// Whether the two are equal.
    pub(crate) fn same(&self, other: &TokenLocal) -> bool
        ensures { IsTrue result ↔ self.now ≡ other.now }
    {
        self.hold == other.hold && self.given.same(&other.given) && self.taken.same(&other.taken)
    }

    /// A copy.
    pub(crate) fn copy(&self, alloc: Global) -> Result<TokenLocal, AllocError>
        ensures { IfOk result (λ copy. copy ≡ self.now) }
    {
        Ok(TokenLocal {
            hold: self.hold,
            given: self.given.copy(alloc)?,
            taken: self.taken.copy(alloc)?,
        })
    }

    /// Both lists ascend.
    pub(crate) fn lemma_is_local(&self)
        ensures given { IsBits self.now.given }
        ensures taken { IsBits self.now.taken }
    {
        let _ = self.given.ids();
        let _ = self.taken.ids();
    }
}
