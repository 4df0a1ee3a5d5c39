// Entries played again, each of which was allowed where it stands.

ghost use Rattle.std.specs.Prelude.{◌≡◌, IsSome, OnOk, Some};
ghost use Rattle.history.specs.Entries.{entered, replayed};

use crate::entry::Entry;
use app_interface::Application;
use fault_inject::{FaultRefusal, inject};
use reset_machine::{Config, StepRefusal};
use std::alloc::{AllocError, Global};

/// Does what the entries say, each of which is allowed where it stands.
pub fn play_all<P: Application>(
    alloc: Global,
    config: &mut Config<P>,
    entries: &[Entry],
) -> Result<(), AllocError>
    requires { IsSome (replayed P.app P.from_text config.old entries.now) }
    ensures { OnOk result (replayed P.app P.from_text config.old entries.now ≡ Some config.new) }
{
    for entry in entries {
        play(alloc, config, entry)?;
    }
    Ok(())
}

/// Does what the entry says, which is allowed where it stands.
pub fn play<P: Application>(
    alloc: Global,
    config: &mut Config<P>,
    entry: &Entry,
) -> Result<(), AllocError>
    requires { IsSome (entered P.app P.from_text config.old entry.now) }
    ensures { OnOk result (entered P.app P.from_text config.old entry.now ≡ Some config.new) }
{
    match entry {
        Entry::Step(event) => match config.step(alloc, *event) {
            Ok(_) => Ok(()),
            Err(StepRefusal::NoMemory) => Err(AllocError),
            Err(_) => unreachable!(),
        },
        Entry::Disturbed(fault) => match inject(alloc, config, fault) {
            Ok(()) => Ok(()),
            Err(FaultRefusal::NoMemory) => Err(AllocError),
            Err(_) => unreachable!(),
        },
    }
}
