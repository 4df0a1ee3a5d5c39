// Drawn runs of which no book is kept.

ghost use Rattle.std.specs.Prelude.{IfOk, OnOk};
ghost use Rattle.scheduler.specs.Driven.{driven};
ghost use Rattle.scheduler.specs.Told.{IsAfterSteps, IsTold, new_book};

use crate::history_text::DrivenHistory;
use crate::text_step::told_step;
use app_interface::Application;
use progress::Progress;
use rand_core::SeedableRng;
use rand_pcg::Lcg64Xsh32;
use reset_machine::Config;
use std::alloc::{AllocError, Global};

/// The history of a run that [`drive`](crate::drive) takes from this configuration on in a book of 1,000,000 entries. Of
/// the run the configuration is kept, and the history's text. Sets `progress` to how many of the steps are taken.
pub fn driven_history<P: Application>(
    alloc: Global,
    opening: Config<P>,
    steps: u32,
    seed: u32,
    faults: u32,
    progress: &Progress,
) -> Result<DrivenHistory, AllocError>
    ensures { IfOk result
        (IsTold P.app P.from_text (driven P.app P.from_text steps seed faults (new_book opening))) }
{
    opening.lemma_is_graph();
    let mut told = DrivenHistory::new(alloc, opening.modulus().get())?;
    let mut config = opening;
    let mut random = Lcg64Xsh32::seed_from_u64(u64::from(seed));
    take_steps(
        alloc,
        &mut config,
        &mut told,
        steps,
        faults,
        &mut random,
        progress,
    )?;
    Ok(told)
}

// Takes so many steps, and writes the lines of their entries.
fn take_steps<P: Application>(
    alloc: Global,
    config: &mut Config<P>,
    told: &mut DrivenHistory,
    steps: u32,
    faults: u32,
    random: &mut Lcg64Xsh32,
    progress: &Progress,
) -> Result<(), AllocError>
    ensures { OnOk result (IsAfterSteps P.app P.from_text steps faults config.old told.old random.old
        config.new told.new random.new) }
{
    for step in 0..steps {
        told_step(alloc, config, told, faults, random)?;
        progress.set(step + 1, steps);
    }
    Ok(())
}
