// Sets of cases.
ghost use Rattle.std.specs.Prelude.{◌≡◌, ◌≤◌, ◌==◌, [], length, slice_get};
ghost use Rattle.std.specs.List.{filter};
ghost use Rattle.action_tables.specs.Numbers.{all_cases, is_among, with_number, with_number_if};

use std::marker::Model;

/// The greatest number that a case can have: a set keeps a bit for each, and there are 16.
pub const MOST_CASES: u8 = 16;

/// A set of case numbers from 1 to 16.
///
/// A contract sees it as the list of its numbers, ascending. It is one word, and allocates nothing.
#[derive(Clone, Copy, Debug, PartialEq, Eq)]
pub struct CaseSet {
    // Bit 0 stands for case 1.
    bits: u16,
}

impl Model for CaseSet {
    ghost use Rattle.std.specs.Prelude.{List, ℕ, ◌<◌};
    ghost use Rattle.action_tables.specs.Numbers.{bits_of, numbers_of};
    ghost use Rattle.action_tables.specs.LawsOfNumbers.{inside_again};

    ghost Value = { List ℕ };

    ghost view = { λ s. numbers_of s.bits };

    ghost invariant = { λ s. s.bits < 65536 };

    ghost inverse = { λ ns. record { bits = bits_of ns } };

    ghost inverse_ok = { inside_again };
}

impl CaseSet {
    /// The set of no case.
    pub fn empty() -> CaseSet
        ensures { result ≡ [] }
    {
        CaseSet { bits: 0 }
    }

    /// The set with this case as well.
    pub fn with(self, case: u8) -> CaseSet
        requires first { 1 ≤ case }
        requires last { case ≤ 16 }
        ensures { result ≡ with_number case self }
    {
        CaseSet {
            bits: self.bits | 1 << (case - 1),
        }
    }

    /// The set with this case as well where `is_in`, and the set as it is elsewhere.
    #[tactic(auto, unfolding(crate::specs::Numbers::with_number_if))]
    pub fn with_if(self, case: u8, is_in: bool) -> CaseSet
        requires first { 1 ≤ case }
        requires last { case ≤ 16 }
        ensures { result ≡ with_number_if case is_in self }
    {
        if is_in { self.with(case) } else { self }
    }

    /// Whether the case is in the set.
    pub fn has(self, case: u8) -> bool
        ensures { result ≡ is_among case self }
    {
        let bits = self.bits;
        if case < 1 || case > MOST_CASES {
            return false;
        }
        bits >> (case - 1) & 1 == 1
    }

    /// The least case of the set.
    pub fn first(self) -> Option<u8>
        ensures { result ≡ slice_get self 0 }
    {
        if self.bits == 0 {
            None
        } else {
            Some(self.bits.trailing_zeros() as u8 + 1)
        }
    }

    /// How many cases are in the set.
    pub fn count(self) -> u32
        ensures { result ≡ length self }
    {
        self.bits.count_ones()
    }

    /// The set holds those of 1 to 16 that it has, ascending: to ask [`CaseSet::has`] of each in turn
    /// is to go over it.
    pub fn lemma_is_listed(self)
        ensures { self ≡ filter (λ case. is_among case self) all_cases }
    {
        let _bits = self.bits;
    }
}
