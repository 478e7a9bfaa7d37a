//! The status of what an analysis refuses.
ghost use Rattle.std.specs.Prelude.{◌≡◌};
ghost use Rattle.bt_command.specs.Program.{status_of};

use crate::{AssertFault, LimitFault, Status};
use bound_task::TaskRefusal;

/// The status of a refusal of a problem.
pub fn status_of(refusal: TaskRefusal) -> Status
    ensures { result ≡ status_of refusal }
{
    match refusal {
        TaskRefusal::Nodes { count } => Status::Limit(LimitFault::Nodes { count }),
        TaskRefusal::Unmatched { line } => Status::Assertions(AssertFault::Unmatched { line }),
        TaskRefusal::Contexts { count } => Status::Limit(LimitFault::Contexts { count }),
        TaskRefusal::Want => Status::Want,
    }
}
