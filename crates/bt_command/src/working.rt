//! The commands by workers, and the call that runs them.
ghost use Rattle.std.specs.Prelude.{◌≡◌, ◌≤◌, ℕ, List, IfOk, IsErrOf};
ghost use Rattle.assert_bind.specs.declared.body.BoundAssertion.{BoundAssertion};
ghost use Rattle.bound_task.specs.Problem.{IsProblemOf};
ghost use Rattle.bt_base.specs.Shelf.{TellsTheSame, NoneFalls};
ghost use Rattle.bt_words.specs.Request.{texts};
ghost use Rattle.bt_command.specs.Answer.{Answers, HoldsOfRuns, Writes};
ghost use Rattle.bt_command.specs.Asks.{AsksInOrder, ReadsInOrder};
ghost use Rattle.bt_command.specs.Bound.{BoundSays, BoundShows};
ghost use Rattle.bt_command.specs.Call.{call_of, reading_of};
ghost use Rattle.bt_command.specs.Graph.{GraphSays, GraphShows};
ghost use Rattle.bt_command.specs.Program.{RefusesProgram, IsGraphThatHolds, IsReportOf, IsReportThatHolds};
ghost use Rattle.bt_command.specs.declared.status.Status.{Status};

use crate::Status;
use crate::bounding::all_bounded;
use crate::generating::generate_by;
use crate::program::problem_from;
use crate::refusal::status_of;
use crate::reporting::Report;
use crate::running::decode;
use bound_task::{Problem, analyse, graph_text};
use bt_base::{Shelf, Sink, Want, write_all};
use bt_words::{NoRequest, Request, request_of};
use graph_runs::runs_follow_due_graphs;
use std::alloc::Global;
use std::sync::Wait;
use std::thread::Threads;
use wcet_report::text;
use worker_pool::Gate;

/// The report of a problem, analysed by workers.
fn report_by<R: Threads + Wait + Sync, G: Gate + Sync>(
    rt: &R,
    alloc: Global,
    problem: &Problem,
    workers: u32,
    gate: &G,
) -> Result<Report, Status>
    requires workers { (1 ≤ workers) × (workers ≤ 64) }
    ensures report { (image costs : List ℕ) (those : List BoundAssertion) → IsProblemOf image costs those problem.now
        → IfOk result (λ report. IsReportOf image costs those report.bounded report.text.items) }
    ensures holds { (image costs : List ℕ) (those : List BoundAssertion) → IsProblemOf image costs those problem.now
        → IfOk result (λ report. IsReportThatHolds image costs those report.text.items) }
    ensures refused { (image costs : List ℕ) (those : List BoundAssertion) (status : Status) → IsProblemOf image costs those problem.now
        → IsErrOf result status → RefusesProgram image costs those status }
{
    let analysis = match analyse(rt, alloc, problem, workers, gate) {
        Ok(analysis) => analysis,
        Err(refusal) => return Err(status_of(refusal)),
    };
    let bounded = all_bounded(&analysis.outcomes);
    match text(alloc, &analysis.outcomes, problem.system().image()) {
        Ok(text) => Ok(Report { text, bounded }),
        Err(Want) => Err(Status::Want),
    }
}

/// The text of the due graph of a problem, grown by workers.
fn graph_by<R: Threads + Wait + Sync, G: Gate + Sync>(
    rt: &R,
    alloc: Global,
    problem: &Problem,
    workers: u32,
    gate: &G,
) -> Result<Vec<u8>, Status>
    requires workers { (1 ≤ workers) × (workers ≤ 64) }
    ensures graph { (image costs : List ℕ) (those : List BoundAssertion) → IsProblemOf image costs those problem.now
        → IfOk result (λ text. IsGraphThatHolds image costs those text.items) }
    ensures refused { (image costs : List ℕ) (those : List BoundAssertion) (status : Status) → IsProblemOf image costs those problem.now
        → IsErrOf result status → RefusesProgram image costs those status }
{
    let analysis = match analyse(rt, alloc, problem, workers, gate) {
        Ok(analysis) => analysis,
        Err(refusal) => return Err(status_of(refusal)),
    };
    // Runs that meet the assertions are followed by the due graph.
    runs_follow_due_graphs();
    match graph_text(alloc, &analysis, problem.system().image()) {
        Ok(text) => Ok(text),
        Err(Want) => Err(Status::Want),
    }
}

/// The command `bound` by workers.
fn bound<R: Threads + Wait + Sync, F: Shelf, K: Sink, G: Gate + Sync>(
    rt: &R,
    alloc: Global,
    workers: u32,
    image: &str,
    cycles: &str,
    assertions: &str,
    shelf: &mut F,
    out: &mut K,
    gate: &G,
) -> Status
    requires workers { (1 ≤ workers) × (workers ≤ 64) }
    ensures same { TellsTheSame (F.told shelf.old) (F.told shelf.new) }
    ensures counts { NoneFalls (F.faults shelf.old) (F.faults shelf.new) }
    ensures sink_counts { K.faults out.old ≤ K.faults out.new }
    ensures says { BoundSays (record { image = image.now; cycles = cycles.now; assertions = assertions.now }) (call_of F.told F.faults F.asked K.told K.faults shelf.old shelf.new out.old out.new) result }
    ensures shows { BoundShows (record { image = image.now; cycles = cycles.now; assertions = assertions.now }) (call_of F.told F.faults F.asked K.told K.faults shelf.old shelf.new out.old out.new) result }
    ensures writes { Writes (call_of F.told F.faults F.asked K.told K.faults shelf.old shelf.new out.old out.new) result }
    ensures asks { ReadsInOrder (record { image = image.now; cycles = cycles.now; assertions = assertions.now }) (reading_of F.told F.faults F.asked shelf.old shelf.new) }
{
    let problem = match problem_from(alloc, image, cycles, assertions, shelf) {
        Ok(problem) => problem,
        Err(status) => return status,
    };
    let report = match report_by(rt, alloc, &problem, workers, gate) {
        Ok(report) => report,
        Err(status) => return status,
    };
    match write_all(out, &report.text) {
        Ok(()) => if report.bounded {
            Status::Bounded
        } else {
            Status::Unbounded
        },
        Err(unwritten) => Status::WriteFault {
            written: unwritten.written,
        },
    }
}

/// The command `graph` by workers.
fn graph<R: Threads + Wait + Sync, F: Shelf, K: Sink, G: Gate + Sync>(
    rt: &R,
    alloc: Global,
    workers: u32,
    image: &str,
    cycles: &str,
    assertions: &str,
    shelf: &mut F,
    out: &mut K,
    gate: &G,
) -> Status
    requires workers { (1 ≤ workers) × (workers ≤ 64) }
    ensures same { TellsTheSame (F.told shelf.old) (F.told shelf.new) }
    ensures counts { NoneFalls (F.faults shelf.old) (F.faults shelf.new) }
    ensures sink_counts { K.faults out.old ≤ K.faults out.new }
    ensures says { GraphSays (record { image = image.now; cycles = cycles.now; assertions = assertions.now }) (call_of F.told F.faults F.asked K.told K.faults shelf.old shelf.new out.old out.new) result }
    ensures shows { GraphShows (record { image = image.now; cycles = cycles.now; assertions = assertions.now }) (call_of F.told F.faults F.asked K.told K.faults shelf.old shelf.new out.old out.new) result }
    ensures writes { Writes (call_of F.told F.faults F.asked K.told K.faults shelf.old shelf.new out.old out.new) result }
    ensures asks { ReadsInOrder (record { image = image.now; cycles = cycles.now; assertions = assertions.now }) (reading_of F.told F.faults F.asked shelf.old shelf.new) }
{
    let problem = match problem_from(alloc, image, cycles, assertions, shelf) {
        Ok(problem) => problem,
        Err(status) => return status,
    };
    let text = match graph_by(rt, alloc, &problem, workers, gate) {
        Ok(text) => text,
        Err(status) => return status,
    };
    match write_all(out, &text) {
        Ok(()) => Status::Bounded,
        Err(unwritten) => Status::WriteFault {
            written: unwritten.written,
        },
    }
}

/// Runs the command that the words ask for by as many workers as they ask for, each in a thread of its own where one can be
/// made, who pass the gate. They grow the due graph together; one of them does the rest.
///
/// The words, the files and what is written are those of `run_alone`, and so is what is said of the answer: it holds for
/// every number of workers, every gate and every order of their work.
pub fn run<R: Threads + Wait + Sync, F: Shelf, K: Sink, G: Gate + Sync>(
    rt: &R,
    alloc: Global,
    words: &[String],
    shelf: &mut F,
    out: &mut K,
    gate: &G,
) -> Status
    // What the shelf tells stays, and no count of faults falls.
    ensures same { TellsTheSame (F.told shelf.old) (F.told shelf.new) }
    ensures counts { NoneFalls (F.faults shelf.old) (F.faults shelf.new) }
    ensures sink_counts { K.faults out.old ≤ K.faults out.new }
    // The words are refused, or what the status says of the call is true, accepted files give the whole text, and files
    // that are told come to the first refusal of their bytes.
    ensures answers { Answers (texts words.now) (call_of F.told F.faults F.asked K.told K.faults shelf.old shelf.new out.old out.new) result }
    // The report written is the one that the due graph defines; and every trap-free run that meets the assertions follows, up
    // to its first open instruction, only that graph's edges, passes each loop head at most its bound, and never spends in a
    // call more than the bound printed for its context. The graph written is the due graph, and is followed so.
    ensures runs { HoldsOfRuns (texts words.now) (call_of F.told F.faults F.asked K.told K.faults shelf.old shelf.new out.old out.new) result }
    // Nothing is asked of the shelf but the files that the words name, in their order, each only once the one before is
    // accepted.
    ensures asks { AsksInOrder (texts words.now) (call_of F.told F.faults F.asked K.told K.faults shelf.old shelf.new out.old out.new) }
    // With any status but that of the whole text and that of a text cut short nothing was put into the sink.
    ensures writes { Writes (call_of F.told F.faults F.asked K.told K.faults shelf.old shelf.new out.old out.new) result }
{
    match request_of(alloc, words) {
        Ok(
            Request::Bound {
                image,
                cycles,
                assertions,
                workers,
            },
        ) => bound(
            rt, alloc, workers, image, cycles, assertions, shelf, out, gate,
        ),
        Ok(
            Request::Graph {
                image,
                cycles,
                assertions,
                workers,
            },
        ) => graph(
            rt, alloc, workers, image, cycles, assertions, shelf, out, gate,
        ),
        Ok(Request::Decode { image }) => decode(alloc, image, shelf, out),
        Ok(Request::Generate { functions, workers }) => generate_by(
            rt, alloc, workers, functions, out, gate,
        ),
        Err(NoRequest::Usage) => Status::Usage,
        Err(NoRequest::Want) => Status::Want,
    }
}
