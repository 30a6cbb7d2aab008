// The exit status of the process.
ghost use Rattle.std.specs.Prelude.{◌≡◌};
ghost use Rattle.std.specs.Process.{exit_status};
ghost use Rattle.fm_answers.specs.Status.{status_code};

use fm_top::ToolStatus;
use std::process::ExitCode;

/// The exit status of a call that ended so.
pub fn exit_of(status: ToolStatus) -> ExitCode
    ensures { exit_status result ≡ status_code status }
{
    ExitCode::from(status.code())
}
