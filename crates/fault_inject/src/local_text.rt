// The text that a fault has for a local state.

ghost use Rattle.std.specs.Prelude.{◌≡◌, IfOk};
ghost use Rattle.std.specs.Str.{bytes_eq};
ghost use Rattle.std.specs.Cmp as order;
ghost use Rattle.std.specs.Cmp.Lexicographic.{nat_list_eq_equiv};

use std::alloc::{AllocError, Global};
use std::marker::Model;

/// The text of a local state. Contracts see the list of its bytes.
#[derive(Debug, Drop)]
pub struct LocalText {
    bytes: Vec<u8>,
}

impl Model for LocalText {
    ghost use Rattle.std.specs.Prelude.{ℕ, List};

    ghost Value = { List ℕ };

    ghost view = { λ text. text.bytes.items };
}

impl LocalText {
    /// The text with these bytes.
    pub fn new(bytes: Vec<u8>) -> LocalText
        ensures { result ≡ bytes.items }
    {
        LocalText { bytes }
    }

    /// The same text.
    pub fn copy(&self, alloc: Global) -> Result<LocalText, AllocError>
        ensures { IfOk result (λ copy. copy ≡ self.now) }
    {
        let bytes = self.bytes.to_vec(alloc)?;
        Ok(LocalText::new(bytes))
    }

    /// Its bytes.
    pub fn as_bytes(&self) -> &[u8]
        ensures { result.now ≡ self.now }
    {
        &self.bytes
    }
}

impl PartialEq for LocalText {
    ghost eq = { bytes_eq };

    ghost laws = { order.partial_equiv_from_equiv nat_list_eq_equiv };

    fn eq(&self, other: &LocalText) -> bool {
        self.as_bytes() == other.as_bytes()
    }
}

impl Eq for LocalText {
    ghost laws = { nat_list_eq_equiv };
}
