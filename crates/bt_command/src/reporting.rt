//! The report of a problem.
ghost use Rattle.std.specs.Prelude.{◌≡◌, ℕ, List, IfOk, IsErrOf};
ghost use Rattle.assert_bind.specs.declared.body.BoundAssertion.{BoundAssertion};
ghost use Rattle.bound_task.specs.Problem.{IsProblemOf};
ghost use Rattle.bt_command.specs.Program.{RefusesProgram, IsReportOf, IsReportThatHolds};
ghost use Rattle.bt_command.specs.declared.status.Status.{Status};

use crate::Status;
use crate::bounding::all_bounded;
use crate::refusal::status_of;
use bound_task::{Problem, analyse_alone};
use bt_base::Want;
use std::alloc::Global;
use wcet_report::text;

/// A report, and whether each root has a bound in it.
#[derive(Debug, Drop)]
pub struct Report {
    /// Its bytes.
    pub text: Vec<u8>,
    /// Whether each root has a bound.
    pub bounded: bool,
}

/// The report of what each context of a problem comes to that is needed, which holds of the runs of its program.
///
/// What an analysis refuses is answered as the status of that refusal.
pub fn report_of(alloc: Global, problem: &Problem) -> Result<Report, Status>
    ensures report { (image costs : List ℕ) (those : List BoundAssertion) → IsProblemOf image costs those problem.now
        → IfOk result (λ report. IsReportOf image costs those report.bounded report.text.items) }
    ensures holds { (image costs : List ℕ) (those : List BoundAssertion) → IsProblemOf image costs those problem.now
        → IfOk result (λ report. IsReportThatHolds image costs those report.text.items) }
    ensures refused { (image costs : List ℕ) (those : List BoundAssertion) (status : Status) → IsProblemOf image costs those problem.now
        → IsErrOf result status → RefusesProgram image costs those status }
{
    let analysis = match analyse_alone(alloc, problem) {
        Ok(analysis) => analysis,
        Err(refusal) => return Err(status_of(refusal)),
    };
    let bounded = all_bounded(&analysis.outcomes);
    match text(alloc, &analysis.outcomes, problem.system().image()) {
        Ok(text) => Ok(Report { text, bounded }),
        Err(Want) => Err(Status::Want),
    }
}
