// The number modulo which sessions are counted, and the session that follows another.

ghost use Rattle.std.specs.Prelude.{◌≡◌, ◌==◌, ◌↔◌, IsSome, IfSome};
ghost use Rattle.action_tables.specs.Modulus.{IsModulus};
ghost use Rattle.wave_layer.specs.Sessions.{next_session};

use action_tables::{MAX_MODULUS, MIN_MODULUS};
use std::marker::Model;

/// The number modulo which sessions are counted: from 2 to 4294967296.
///
/// The session that follows another is its number plus one modulo this number, also where a fault
/// has left a number beyond it in a register.
#[derive(Clone, Copy, Debug, PartialEq, Eq)]
pub struct Modulus {
    value: u64,
}

impl Model for Modulus {
    ghost use Rattle.std.specs.Prelude.{ℕ};
    ghost use Rattle.action_tables.specs.Modulus.{IsModulus};

    ghost Value = { ℕ };

    ghost view = { λ m. m.value };

    ghost invariant = { λ m. IsModulus m.value };

    ghost inverse = { λ n. record { value = n } };
}

impl Modulus {
    /// The modulus of this value. None outside 2 to 4294967296.
    pub fn new(value: u64) -> Option<Modulus>
        ensures valid { IsSome result ↔ IsModulus value }
        ensures value { IfSome result (λ m. m ≡ value) }
    {
        if value >= MIN_MODULUS && value <= MAX_MODULUS {
            Some(Modulus { value })
        } else {
            None
        }
    }

    /// The value, from 2 to 4294967296.
    pub fn get(self) -> u64
        ensures number { result ≡ self }
        ensures valid { IsModulus result }
    {
        self.value
    }

    // The session after this one. The remainder is taken only where it is another number.
    #[inline(always)]
    #[tactic(auto, unfolding(crate::specs::Sessions::next_session))]
    pub(crate) fn next(self, session: u32) -> u32
        ensures { result ≡ next_session self session }
    {
        let next = u64::from(session) + 1;
        if next < self.value {
            next as u32
        } else {
            (next % self.value) as u32
        }
    }

    // Whether `later` is the session after `session`.
    #[inline(always)]
    pub(crate) fn follows(self, later: u32, session: u32) -> bool
        ensures { result ≡ (later == next_session self session) }
    {
        later == self.next(session)
    }
}
