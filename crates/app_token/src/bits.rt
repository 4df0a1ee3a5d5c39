// One bit for each identifier.
ghost use Rattle.std.specs.Prelude.{◌≡◌, ◌↔◌, [], IfOk, IsTrue};
ghost use Rattle.topology.specs.Graph.{has};
ghost use Rattle.topology.specs.Id.{IsId};
ghost use Rattle.app_token.specs.Bits.{IsBits, toggled};

use smallvec::SmallVec;
use std::alloc::{AllocError, Global};
use std::marker::Model;

/// One bit for each identifier. A contract sees the ascending list of those whose bit is one.
#[derive(Drop)]
pub struct Bits {
    // Most nodes have few neighbours, and most bits are zero.
    ids: SmallVec<u32, 4>,
}

impl Model for Bits {
    ghost use Rattle.std.specs.Prelude.{List, ℕ};
    ghost use Rattle.app_token.specs.Bits.{IsBits};

    ghost Value = { List ℕ };

    ghost view = { λ bits. bits.ids.items };

    ghost invariant = { λ bits. IsBits bits.ids.items };
}

impl Bits {
    /// All bits zero.
    pub(crate) fn none(alloc: Global) -> Bits
        ensures { result ≡ [] }
    {
        Bits {
            ids: SmallVec::new(alloc),
        }
    }

    /// The bits that are one at these identifiers.
    pub(crate) fn from_ascending(ids: SmallVec<u32, 4>) -> Bits
        requires { IsBits ids.items }
        ensures { result ≡ ids.items }
    {
        Bits { ids }
    }

    /// The identifiers whose bit is one, ascending.
    pub(crate) fn ids(&self) -> &[u32]
        ensures value { result.now ≡ self.now }
        ensures bits { IsBits self.now }
    {
        let ids = &self.ids;
        ids.as_slice()
    }

    /// The bit of this identifier.
    pub(crate) fn has(&self, id: u32) -> bool
        ensures { result ≡ has self.now id }
    {
        self.ids().binary_search(&id).is_ok()
    }

    /// The bits with that of this identifier turned over.
    pub(crate) fn toggled(&self, alloc: Global, id: u32) -> Result<Bits, AllocError>
        requires { IsId id }
        ensures { IfOk result (λ bits. bits ≡ toggled self.now id) }
    {
        let mut ids = SmallVec::from_slice(alloc, self.ids())?;
        match self.ids().binary_search(&id) {
            Ok(place) => {
                let _ = ids.remove(place);
                Ok(Bits { ids })
            }
            Err(place) => {
                ids.insert(place, id)?;
                Ok(Bits { ids })
            }
        }
    }

    /// Whether all bits are the same.
    pub(crate) fn same(&self, other: &Bits) -> bool
        ensures { IsTrue result ↔ self.now ≡ other.now }
    {
        self.ids() == other.ids()
    }

    /// A copy.
    pub(crate) fn copy(&self, alloc: Global) -> Result<Bits, AllocError>
        ensures { IfOk result (λ bits. bits ≡ self.now) }
    {
        Ok(Bits {
            ids: SmallVec::from_slice(alloc, self.ids())?,
        })
    }
}
