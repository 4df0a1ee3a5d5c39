// Why an application answers no local state.
ghost use Rattle.std.specs.Prelude.{◌≡◌};
ghost use Rattle.app_interface.specs.declared.refusal.ClockRefusal.TheVariants.{NoMemory as NoMemoryAtClock};
ghost use Rattle.app_interface.specs.declared.refusal.LocalFault.TheVariants.{NoMemory as NoMemoryAtText};

use std::alloc::{AllocError, AllocFailed};

/// Why a case isn't taken, in the order in which refusals are named.
#[derive(Clone, Copy, Debug, PartialEq, Eq)]
pub enum ClockRefusal {
    /// The case isn't enabled.
    NotEnabled,
    /// A growth was refused.
    NoMemory,
}

impl From<AllocError> for ClockRefusal {
    ghost from_gives = { λ _ refusal. refusal ≡ NoMemoryAtClock };

    fn from(_error: AllocError) -> ClockRefusal {
        ClockRefusal::NoMemory
    }
}

impl<T: Drop> From<AllocFailed<T>> for ClockRefusal {
    ghost from_gives = { λ _ refusal. refusal ≡ NoMemoryAtClock };

    fn from(_error: AllocFailed<T>) -> ClockRefusal {
        ClockRefusal::NoMemory
    }
}

/// Why a text gives no local state. A text that isn't one is named as such before a failed allocation,
/// unless a growth is refused before that is known.
#[derive(Clone, Copy, Debug, PartialEq, Eq)]
pub enum LocalFault {
    /// A growth was refused.
    NoMemory,
    /// No local state has this text.
    BadLocal,
}

impl From<AllocError> for LocalFault {
    ghost from_gives = { λ _ fault. fault ≡ NoMemoryAtText };

    fn from(_error: AllocError) -> LocalFault {
        LocalFault::NoMemory
    }
}

impl<T: Drop> From<AllocFailed<T>> for LocalFault {
    ghost from_gives = { λ _ fault. fault ≡ NoMemoryAtText };

    fn from(_error: AllocFailed<T>) -> LocalFault {
        LocalFault::NoMemory
    }
}
