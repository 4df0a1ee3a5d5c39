// The status that the process exits with.

ghost use Rattle.std.specs.Prelude.{◌≡◌};
ghost use Rattle.std.specs.Process.{exit_status};
ghost use Rattle.service_main.specs.ExitStatus.{status_of};

use reset_service::{RunStop, Status};
use std::process::ExitCode;

/// The status that the process exits with after a run that ended so.
pub fn exit_code(ended: Result<Status, RunStop>) -> ExitCode
    ensures { exit_status result ≡ status_of ended }
{
    match ended {
        Ok(Status::Good) => ExitCode::from(0),
        Ok(Status::FaultsFound | Status::NotEnabled) | Err(RunStop::NotClosed) => {
            ExitCode::from(1)
        }
        Ok(Status::BadInput) => ExitCode::from(2),
        Err(RunStop::ReadFailed | RunStop::WriteFailed | RunStop::ThreadFailed) => {
            ExitCode::from(3)
        }
        Err(RunStop::NoMemory) => ExitCode::from(4),
    }
}
