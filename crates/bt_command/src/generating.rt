//! The command `gen`: the image that is made to try the analyser on, its problem, and its line.
ghost use Rattle.std.specs.Prelude.{◌≡◌, ◌⊎◌, ◌≤◌, ◌++◌, ◌∷◌, [], ℕ, List, Ok, Err, length, All, IfOk, IsErrOf, MatchResult};
ghost use Rattle.std.specs.Map.{keys_of};
ghost use Rattle.assert_bind.specs.Binding.{binding};
ghost use Rattle.assert_bind.specs.Body.{IsRefusalOf, SpeaksOfCodeIn};
ghost use Rattle.assert_bind.specs.declared.body.BoundAssertion.{BoundAssertion};
ghost use Rattle.bound_task.specs.Graph.{IsGraphOf};
ghost use Rattle.bound_task.specs.Outcomes.{AreOutcomesOf, HoldOfRunsOf};
ghost use Rattle.bound_task.specs.Problem.{IsProblemOf};
ghost use Rattle.bt_image.specs.Refusal.{IsStep, first_refusal};
ghost use Rattle.gen_image.specs.File.{file_of};
ghost use Rattle.bt_command.specs.Answer.{Writes};
ghost use Rattle.bt_command.specs.Call.{Reading};
ghost use Rattle.bt_command.specs.Generated.{GenSays, IsGenProblem, IsGenText, RefusesGen, bound_text, first_bound, generated, gen_line, node_count, ones, root_main, writing_of};
ghost use Rattle.bt_command.specs.Program.{RefusesProgram};
ghost use Rattle.bt_command.specs.declared.status.Status.{Status};

use crate::bounding::first_bound;
use crate::counting::node_count;
use crate::refusal::status_of;
use crate::{AssertFault, Status};
use assert_bind::{BindRefusal, Binding, bind};
use assert_lang::{Assertion, Body, Name, Spot};
use bound_task::{Analysis, Problem, analyse, analyse_alone};
use bt_base::{Sink, Want, put_decimal, write_all};
use bt_image::{Image, ImageRefusal};
use cycle_table::Cycles;
use gen_image::make;
use std::alloc::Global;
use std::sync::Wait;
use std::thread::Threads;
use worker_pool::Gate;

/// A table of version 1 in which each class costs one cycle.
const ONES: &[u8] =
    b"cycles 1\nalu 1\nshift 1\nsethi 1\ntagged 1\nmulscc 1\nsave 1\nrestore 1\nbranch 1\nfloatbranch 1\ncall 1\njump 1\nload 1\nloaddouble 1\nstore 1\nstoredouble 1\natomic 1\nready 1\nwritey 1\nflush 1\nfloatop 1\nfloatcmp 1\nfloatload 1\nfloatloaddouble 1\nfloatstore 1\nfloatstoredouble 1\ntrap 1\nannulled 1\n";

/// The costs by which each class costs one cycle.
fn ones() -> Cycles
    ensures { result ≡ ones }
{
    match Cycles::read(ONES) {
        Ok(cycles) => cycles,
        Err(_) => unreachable!(),
    }
}

/// The image of so many functions, or its first refusal.
fn made_image(alloc: Global, functions: u32) -> Result<Image, ImageRefusal>
    requires some { 1 ≤ functions }
    requires few { functions ≤ 4000 }
    ensures image { IfOk result (λ image. image ≡ file_of functions) }
    ensures refused { IsStep (first_refusal (file_of functions)) result }
{
    match make(alloc, functions) {
        Ok(bytes) => Image::read(alloc, &bytes),
        Err(Want) => Err(ImageRefusal::Want),
    }
}

/// The assertion that main is a root.
fn root_main(alloc: Global) -> Result<Assertion, Want>
    ensures { IfOk result (λ root. root ≡ root_main) }
{
    let name = Name::new(Vec::from_slice(alloc, b"main")?);
    let body = Body::Root(Spot::Name(name));
    Ok(Assertion { line: 1, body })
}

/// What that assertion states of an image, or its refusal.
fn bound_main(alloc: Global, image: &Image) -> Result<Binding, BindRefusal>
    ensures value { MatchResult result (λ those. binding image.now (root_main ∷ []) ≡ Ok those) (IsRefusalOf (binding image.now (root_main ∷ []))) }
    ensures code { IfOk result (All (SpeaksOfCodeIn image.now)) }
{
    match root_main(alloc) {
        Ok(root) => bind(alloc, &[root], image),
        Err(Want) => Err(BindRefusal::Want),
    }
}

/// The status of a refusal of the image.
fn image_status(refusal: ImageRefusal) -> Status
    ensures want { refusal ≡ ImageRefusal.Want → result ≡ Status.Want }
    ensures other { (refusal ≡ ImageRefusal.Want → ⊥) → result ≡ Status.Image refusal }
{
    match refusal {
        ImageRefusal::Want => Status::Want,
        _ => Status::Image(refusal),
    }
}

/// The status of a refusal of the root.
fn root_status(refusal: BindRefusal) -> Status
    ensures want { refusal ≡ BindRefusal.Want → result ≡ Status.Want }
    ensures other { (refusal ≡ BindRefusal.Want → ⊥) → result ≡ Status.Assertions (AssertFault.Bind refusal) }
{
    match refusal {
        BindRefusal::Want => Status::Want,
        _ => Status::Assertions(AssertFault::Bind(refusal)),
    }
}

/// The problem of an image of so many functions, of which each class of instructions costs one cycle and main is the one
/// root; or the first refusal.
fn gen_problem(alloc: Global, functions: u32) -> Result<Problem, Status>
    requires some { 1 ≤ functions }
    requires few { functions ≤ 4000 }
    ensures problem { IfOk result (IsGenProblem functions) }
    ensures refused { (status : Status) → IsErrOf result status → (status ≡ Status.Want) ⊎ (generated functions ≡ Err status) }
{
    let image = match made_image(alloc, functions) {
        Ok(image) => image,
        Err(refusal) => return Err(image_status(refusal)),
    };
    let binding = match bound_main(alloc, &image) {
        Ok(binding) => binding,
        Err(refusal) => return Err(root_status(refusal)),
    };
    match Problem::make(alloc, image, ones(), binding) {
        Ok(problem) => Ok(problem),
        Err(Want) => Err(Status::Want),
    }
}

/// Appends a bound in decimal, or a hyphen where there is none.
fn put_bound(out: &mut Vec<u8>, bound: Option<u64>) -> Result<(), Want>
    ensures { IfOk result (λ _. out.new.items ≡ out.old.items ++ bound_text bound) }
{
    match bound {
        Some(bound) => put_decimal(out, bound),
        None => {
            out.push(b'-')?;
            Ok(())
        }
    }
}

/// The line of so many functions: how many program points their due graph has, how many contexts are needed, and the bound
/// of main.
#[tactic(auto, unfolding(crate::specs::Generated::gen_line))]
fn line_of(
    alloc: Global,
    functions: u32,
    nodes: usize,
    contexts: usize,
    bound: Option<u64>,
) -> Result<Vec<u8>, Want>
    ensures { IfOk result (λ line. line.items ≡ gen_line functions nodes contexts bound) }
{
    let mut line = Vec::new(alloc);
    line.extend_from_slice(b"gen ")?;
    put_decimal(&mut line, u64::from(functions))?;
    line.extend_from_slice(b" nodes ")?;
    put_decimal(&mut line, nodes as u64)?;
    line.extend_from_slice(b" contexts ")?;
    put_decimal(&mut line, contexts as u64)?;
    line.extend_from_slice(b" bound ")?;
    put_bound(&mut line, bound)?;
    line.push(b'\n')?;
    Ok(line)
}

/// The line of an analysis of the image of so many functions.
fn gen_line(alloc: Global, functions: u32, analysis: &Analysis) -> Result<Vec<u8>, Want>
    ensures { IfOk result (λ line. line.items
        ≡ gen_line functions (node_count (keys_of analysis.now.closed)) (length analysis.now.outcomes.list) (first_bound analysis.now.outcomes)) }
{
    let keys = analysis.closed.facts().keys(alloc)?;
    let nodes = node_count(&keys);
    let contexts = analysis.outcomes.list.as_slice().len();
    line_of(
        alloc,
        functions,
        nodes,
        contexts,
        first_bound(&analysis.outcomes),
    )
}

/// The analysis of a problem by one worker; or the status of what it refuses.
fn analysed(alloc: Global, problem: &Problem) -> Result<Analysis, Status>
    ensures graph { (image costs : List ℕ) (those : List BoundAssertion) → IsProblemOf image costs those problem.now
        → IfOk result (λ a. IsGraphOf image costs those a.closed) }
    ensures outcomes { (image costs : List ℕ) (those : List BoundAssertion) → IsProblemOf image costs those problem.now
        → IfOk result (λ a. AreOutcomesOf image costs those a.outcomes) }
    ensures runs { (image costs : List ℕ) (those : List BoundAssertion) → IsProblemOf image costs those problem.now
        → IfOk result (λ a. HoldOfRunsOf image costs those a.outcomes) }
    ensures refused { (image costs : List ℕ) (those : List BoundAssertion) (status : Status) → IsProblemOf image costs those problem.now
        → IsErrOf result status → RefusesProgram image costs those status }
{
    match analyse_alone(alloc, problem) {
        Ok(analysis) => Ok(analysis),
        Err(refusal) => Err(status_of(refusal)),
    }
}

/// The line of the image of so many functions, by one worker; or the first refusal.
fn text_of(alloc: Global, functions: u32) -> Result<Vec<u8>, Status>
    requires some { 1 ≤ functions }
    requires few { functions ≤ 4000 }
    ensures text { IfOk result (λ text. IsGenText functions text.items) }
    ensures refused { (status : Status) → IsErrOf result status → RefusesGen functions status }
{
    let problem = match gen_problem(alloc, functions) {
        Ok(problem) => problem,
        Err(status) => return Err(status),
    };
    let analysis = match analysed(alloc, &problem) {
        Ok(analysis) => analysis,
        Err(status) => return Err(status),
    };
    match gen_line(alloc, functions, &analysis) {
        Ok(text) => Ok(text),
        Err(Want) => Err(Status::Want),
    }
}

/// The command `gen`: makes the image of so many functions, analyses it, and writes its line. It asks for no file.
pub fn generate<K: Sink>(alloc: Global, functions: u32, out: &mut K) -> Status
    requires some { 1 ≤ functions }
    requires few { functions ≤ 4000 }
    ensures sink_counts { K.faults out.old ≤ K.faults out.new }
    ensures says { (read : Reading) → GenSays functions (writing_of read K.told K.faults out.old out.new) result }
    ensures writes { (read : Reading) → Writes (writing_of read K.told K.faults out.old out.new) result }
{
    let text = match text_of(alloc, functions) {
        Ok(text) => text,
        Err(status) => return status,
    };
    match write_all(out, &text) {
        Ok(()) => Status::Bounded,
        Err(unwritten) => Status::WriteFault {
            written: unwritten.written,
        },
    }
}

/// The analysis of a problem by workers; or the status of what it refuses.
fn analysed_by<R: Threads + Wait + Sync, G: Gate + Sync>(
    rt: &R,
    alloc: Global,
    problem: &Problem,
    workers: u32,
    gate: &G,
) -> Result<Analysis, Status>
    requires workers { (1 ≤ workers) × (workers ≤ 64) }
    ensures graph { (image costs : List ℕ) (those : List BoundAssertion) → IsProblemOf image costs those problem.now
        → IfOk result (λ a. IsGraphOf image costs those a.closed) }
    ensures outcomes { (image costs : List ℕ) (those : List BoundAssertion) → IsProblemOf image costs those problem.now
        → IfOk result (λ a. AreOutcomesOf image costs those a.outcomes) }
    ensures runs { (image costs : List ℕ) (those : List BoundAssertion) → IsProblemOf image costs those problem.now
        → IfOk result (λ a. HoldOfRunsOf image costs those a.outcomes) }
    ensures refused { (image costs : List ℕ) (those : List BoundAssertion) (status : Status) → IsProblemOf image costs those problem.now
        → IsErrOf result status → RefusesProgram image costs those status }
{
    match analyse(rt, alloc, problem, workers, gate) {
        Ok(analysis) => Ok(analysis),
        Err(refusal) => Err(status_of(refusal)),
    }
}

/// The line of the image of so many functions, by workers; or the first refusal.
fn text_by<R: Threads + Wait + Sync, G: Gate + Sync>(
    rt: &R,
    alloc: Global,
    functions: u32,
    workers: u32,
    gate: &G,
) -> Result<Vec<u8>, Status>
    requires workers { (1 ≤ workers) × (workers ≤ 64) }
    requires some { 1 ≤ functions }
    requires few { functions ≤ 4000 }
    ensures text { IfOk result (λ text. IsGenText functions text.items) }
    ensures refused { (status : Status) → IsErrOf result status → RefusesGen functions status }
{
    let problem = match gen_problem(alloc, functions) {
        Ok(problem) => problem,
        Err(status) => return Err(status),
    };
    let analysis = match analysed_by(rt, alloc, &problem, workers, gate) {
        Ok(analysis) => analysis,
        Err(status) => return Err(status),
    };
    match gen_line(alloc, functions, &analysis) {
        Ok(text) => Ok(text),
        Err(Want) => Err(Status::Want),
    }
}

/// The command `gen` by workers: makes the image of so many functions, analyses it, and writes its line. It asks for no file.
pub fn generate_by<R: Threads + Wait + Sync, K: Sink, G: Gate + Sync>(
    rt: &R,
    alloc: Global,
    workers: u32,
    functions: u32,
    out: &mut K,
    gate: &G,
) -> Status
    requires workers { (1 ≤ workers) × (workers ≤ 64) }
    requires some { 1 ≤ functions }
    requires few { functions ≤ 4000 }
    ensures sink_counts { K.faults out.old ≤ K.faults out.new }
    ensures says { (read : Reading) → GenSays functions (writing_of read K.told K.faults out.old out.new) result }
    ensures writes { (read : Reading) → Writes (writing_of read K.told K.faults out.old out.new) result }
{
    let text = match text_by(rt, alloc, functions, workers, gate) {
        Ok(text) => text,
        Err(status) => return status,
    };
    match write_all(out, &text) {
        Ok(()) => Status::Bounded,
        Err(unwritten) => Status::WriteFault {
            written: unwritten.written,
        },
    }
}
