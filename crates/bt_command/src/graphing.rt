//! The graph of a problem.
ghost use Rattle.std.specs.Prelude.{◌≡◌, ℕ, List, IfOk, IsErrOf};
ghost use Rattle.assert_bind.specs.declared.body.BoundAssertion.{BoundAssertion};
ghost use Rattle.bound_task.specs.Problem.{IsProblemOf};
ghost use Rattle.bt_command.specs.Program.{RefusesProgram, IsGraphThatHolds};
ghost use Rattle.bt_command.specs.declared.status.Status.{Status};

use crate::Status;
use crate::refusal::status_of;
use bound_task::{Problem, analyse_alone, graph_text};
use bt_base::Want;
use graph_runs::runs_follow_due_graphs;
use std::alloc::Global;

/// The text of the due graph of a problem, by which the runs of its program are followed.
///
/// What an analysis refuses is answered as the status of that refusal.
pub fn graph_of(alloc: Global, problem: &Problem) -> Result<Vec<u8>, Status>
    ensures graph { (image costs : List ℕ) (those : List BoundAssertion) → IsProblemOf image costs those problem.now
        → IfOk result (λ text. IsGraphThatHolds image costs those text.items) }
    ensures refused { (image costs : List ℕ) (those : List BoundAssertion) (status : Status) → IsProblemOf image costs those problem.now
        → IsErrOf result status → RefusesProgram image costs those status }
{
    let analysis = match analyse_alone(alloc, problem) {
        Ok(analysis) => analysis,
        Err(refusal) => return Err(status_of(refusal)),
    };
    // Runs that meet the assertions are followed by the due graph.
    runs_follow_due_graphs();
    match graph_text(alloc, &analysis, problem.system().image()) {
        Ok(text) => Ok(text),
        Err(Want) => Err(Status::Want),
    }
}
