//! How a run went whose text was written whole.
ghost use Rattle.std.specs.Prelude.{◌≡◌};
ghost use Rattle.on_threads.specs.Runs.{written_run};

use answers::Status;
use command_line::{Exit, Line};

/// A run whose text was written whole.
pub fn written(status: Status, line: Line) -> Exit
    ensures { result ≡ written_run status line }
{
    Exit {
        status: status.number(),
        line,
    }
}
