ghost use Rattle.std.specs.Prelude.{◌≡◌, ◌<◌, ◌≤◌, ◌+◌, ◌*◌, ◌⊎◌, ◌^◌, ℕ, true, false, Some, IfSome, IfNone};
ghost use Rattle.sparc_decode.specs.Instr.{instruction_of};
ghost use Rattle.sparc_machine.specs.Effect.{code_word, step_cost};
ghost use Rattle.sparc_machine.specs.Run.{BoundsRuns};
ghost use Rattle.sparc_machine.specs.Straight.{IsStraight, only_computes, leaves_link, passes, code_instruction, code_cost, loaded_before, IsBlocked, ArePassed, Leaves};

use crate::effects::code_word;
use bt_image::Image;
use cycle_table::Cycles;
use sparc_decode::{AluOp, Instr, decode, loaded, writes};

/// The word of the return of a leaf: a jump to eight bytes behind the call.
const RETURN: u32 = 0x81c3_e008;

/// The set of the one register r15.
const LINK: u32 = 0x8000;

/// The most words of straight code before its return.
const MOST_BEFORE: u32 = 131_070;

/// The straight code of a subprogram.
#[derive(Clone, Copy, Debug, PartialEq, Eq)]
pub struct Straight {
    /// How many words it has, its return and the delay instruction of that among them.
    pub count: u32,
    /// The cycles of its words, each executed once, where every register may be loaded right before the first.
    pub cycles: u64,
}

/// The words before the return of straight code.
#[derive(Clone, Copy)]
struct Before {
    /// How many there are.
    count: u32,
    /// Their cycles.
    cycles: u64,
    /// The registers that may be loaded right before the return.
    loaded: u32,
}

/// Whether an instruction is SETHI, or ADD or OR without condition codes.
fn only_computes(instruction: &Instr) -> bool
    ensures { result ≡ only_computes instruction.now }
{
    match instruction {
        Instr::Sethi { .. } => true,
        Instr::Alu {
            op: AluOp::Add,
            cc: false,
            ..
        } => true,
        Instr::Alu {
            op: AluOp::Or,
            cc: false,
            ..
        } => true,
        _ => false,
    }
}

/// Whether an instruction leaves r15, which has the address of the call.
fn leaves_link(instruction: &Instr) -> bool
    ensures { result ≡ leaves_link instruction.now }
{
    writes(instruction) & LINK == 0
}

/// The word of code at a place, counted in words from the entry.
fn word_from(image: &Image, entry: u32, i: u32) -> Option<u32>
    requires few { i ≤ 131072 }
    ensures some { IfSome result (λ w. (code_word image.now (entry + 4 * i) ≡ Some w) × (entry + 4 * (i + 1) ≤ 2 ^ 32)) }
    ensures none { IfNone result (entry + 4 * (i + 1) ≤ 2 ^ 32 → code_word image.now (entry + 4 * i) ≡ None) }
{
    let a = u64::from(entry) + 4 * u64::from(i);
    if a <= 0xffff_fffc {
        code_word(image, a as u32)
    } else {
        None
    }
}

/// The instruction at a place that only computes.
fn computing(image: &Image, entry: u32, i: u32) -> Option<Instr>
    requires few { i ≤ 131072 }
    ensures some { IfSome result (λ x. (code_instruction image.now (entry + 4 * i) ≡ Some x) × ((only_computes x ≡ true) × (entry + 4 * (i + 1) ≤ 2 ^ 32))) }
    ensures none { IfNone result (entry + 4 * (i + 1) ≤ 2 ^ 32 → passes only_computes (code_instruction image.now (entry + 4 * i)) ≡ false) }
{
    let word = word_from(image, entry, i)?;
    let instruction = decode(word);
    if only_computes(&instruction) {
        Some(instruction)
    } else {
        None
    }
}

/// The instruction at a place that only computes and leaves r15.
fn passing(image: &Image, entry: u32, i: u32) -> Option<Instr>
    requires few { i ≤ 131072 }
    ensures some { IfSome result (λ x. (code_instruction image.now (entry + 4 * i) ≡ Some x) × ((only_computes x ≡ true) × (leaves_link x ≡ true))) }
    ensures none { IfNone result (IsBlocked image.now entry i) }
{
    let instruction = computing(image, entry, i)?;
    if leaves_link(&instruction) {
        Some(instruction)
    } else {
        None
    }
}

/// The cycles of an instruction that annuls nothing, right behind a load of these registers.
fn cost_behind(cycles: &Cycles, before: u32, instruction: &Instr) -> u64
    ensures value { result ≡ step_cost cycles.now before instruction.now false }
    ensures most { result ≤ 3000000 }
{
    u64::from(cycles.cost(instruction, false) + cycles.pair(before, instruction))
}

/// The words from the entry on that only compute and leave r15, as many as there are up to a limit.
fn before_return(image: &Image, cycles: &Cycles, entry: u32, limit: u32) -> Before
    requires limit { limit ≤ 131070 }
    ensures few { result.count ≤ limit }
    ensures passed { ArePassed image.now entry result.count }
    ensures cost { result.cycles ≡ code_cost image.now cycles.now entry result.count }
    ensures loaded { result.loaded ≡ loaded_before image.now entry result.count }
    ensures most { result.cycles ≤ 3000000 * result.count }
    ensures stops { (result.count ≡ limit) ⊎ IsBlocked image.now entry result.count }
{
    let mut spent = 0;
    let mut before = u32::MAX;
    for count in 0..limit {
        match passing(image, entry, count) {
            Some(instruction) => {
                spent += cost_behind(cycles, before, &instruction);
                before = loaded(&instruction);
            }
            None => {
                return Before {
                    count,
                    cycles: spent,
                    loaded: before,
                };
            }
        }
    }
    Before {
        count: limit,
        cycles: spent,
        loaded: before,
    }
}

/// The cycles of a return and its delay instruction, where they stand at a place, right behind a load of these registers.
fn leaving(image: &Image, cycles: &Cycles, entry: u32, i: u32, before: u32) -> Option<u64>
    requires few { i ≤ 131070 }
    requires before { before ≡ loaded_before image.now entry i }
    ensures some { IfSome result (λ spent. Leaves image.now cycles.now entry i spent) }
    ensures none { IfNone result ((spent : ℕ) → Leaves image.now cycles.now entry i spent → ⊥) }
    ensures most { IfSome result (λ spent. spent ≤ 6000000) }
{
    let word = word_from(image, entry, i)?;
    if word != RETURN {
        return None;
    }
    let delay = computing(image, entry, i + 1)?;
    let leave = decode(word);
    Some(cost_behind(cycles, before, &leave) + cost_behind(cycles, loaded(&leave), &delay))
}

/// The straight code of the subprogram at an entry: its last word but one is the return of a leaf, every other
/// only computes, and none before the return writes r15. None exactly where no straight code stands there, of at
/// most 131,072 words. Every run of it, up to the pop of its frame, spends at most its cycles, whatever was loaded right
/// before its start.
pub fn straight_from(image: &Image, cycles: &Cycles, entry: u32) -> Option<Straight>
    ensures found { IfSome result (λ code. IsStraight image.now entry code.count) }
    ensures cost { IfSome result (λ code. code.cycles ≡ code_cost image.now cycles.now entry code.count) }
    ensures bounds { IfSome result (λ code. BoundsRuns image.now cycles.now entry code.count code.cycles) }
    ensures none { IfNone result ((count : ℕ) → IsStraight image.now entry count → ⊥) }
{
    let before = before_return(image, cycles, entry, MOST_BEFORE);
    match leaving(image, cycles, entry, before.count, before.loaded) {
        Some(spent) => Some(Straight {
            count: before.count + 2,
            cycles: before.cycles + spent,
        }),
        None => None,
    }
}
