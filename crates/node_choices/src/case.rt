// Whether a case of the application is taken, by what the node sees.

ghost use Rattle.std.specs.Prelude.{◌≡◌, IfOk, is_ok};
ghost use Rattle.reset_model.specs.Planned.{case_taken};

use app_interface::{Application, Here};
use reset_machine::View;
use reset_model::neighbourhood::{first_apart, read_states};
use reset_model::{Arguments, misfit};
use std::alloc::{AllocError, Global};

/// Whether the case isn't refused, where the neighbour that is named, if any, is one. The local state that it would
/// leave isn't made.
pub fn is_taken<P: Application>(
    alloc: Global,
    view: &View<P>,
    arguments: Arguments,
) -> Result<bool, AllocError>
    ensures { IfOk result (λ taken. taken ≡ is_ok (case_taken P.app view.now arguments.case arguments.with)) }
{
    let reads = P::reads(arguments.case);
    if misfit(reads, arguments.with).is_some() {
        return Ok(false);
    }
    let near = view.neighbours();
    if first_apart(near, view.wave().session, reads, arguments.with).is_some() {
        return Ok(false);
    }
    let seen = read_states(alloc, near, reads, arguments.with)?;
    let here = Here {
        id: view.id(),
        k: view.k(),
    };
    Ok(P::can(here, arguments.case, arguments.with, view.local(), &seen))
}
