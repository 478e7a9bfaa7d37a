//! What program points and the steps between them cost, in cycles.
ghost use Rattle.std.specs.Prelude.{◌≡◌, ◌≤◌, ◌+◌};
ghost use Rattle.context_outcomes.specs.Spending.{call_time};
ghost use Rattle.context_runs.specs.Contexts.{edge_cost, loaded_behind};
ghost use Rattle.sparc_machine.specs.Straight.{all_registers, code_instruction, loads};
ghost use Rattle.sparc_runs.specs.Cost.{annulled_cost, annuls, branch_annuls, own_cost, pair_cost};

use crate::reading::instruction_at;
use abs_state::{Next, Place};
use bt_image::Image;
use cycle_table::Cycles;
use sparc_decode::{Instr, loaded};

/// Every register, as a set of bits.
const ALL_REGISTERS: u32 = 0xffff_ffff;

/// What a call costs beside its instructions: the time of a stub, or the bound of the context to which it leads.
pub fn call_time(time: Option<u64>, bound: Option<u64>) -> u64
    ensures { result ≡ call_time time bound }
{
    match time {
        Some(time) => time,
        None => bound.unwrap_or(0),
    }
}

/// What an instruction costs; of no code nothing.
fn own_cost(cycles: &Cycles, instruction: &Option<Instr>) -> u32
    ensures value { result ≡ own_cost cycles.now instruction.now }
    ensures most { result ≤ 2000000 }
{
    match instruction {
        None => 0,
        Some(i) => cycles.cost(i, false),
    }
}

/// Whether a branch with the annul bit passes its delay instruction over where it goes on to an address.
fn branch_annuls(annul: bool, cond: u8, from: u32, to: u32) -> bool
    ensures { result ≡ branch_annuls annul cond from to }
{
    annul && (cond == 8 || to == from.wrapping_add(8))
}

/// Whether an instruction passes its delay instruction over where it goes on to an address.
fn annuls(instruction: &Option<Instr>, from: u32, to: u32) -> bool
    ensures { result ≡ annuls instruction.now from to }
{
    match instruction {
        Some(Instr::Branch { annul, cond, .. }) => branch_annuls(*annul, *cond, from, to),
        Some(Instr::FloatBranch { annul, cond, .. }) => branch_annuls(*annul, *cond, from, to),
        _ => false,
    }
}

/// What an instruction costs for what it passes over.
fn annulled_cost(cycles: &Cycles, instruction: &Option<Instr>, from: u32, to: u32) -> u32
    ensures value { result ≡ annulled_cost cycles.now instruction.now from to }
    ensures most { result ≤ 2000000 }
{
    match instruction {
        None => 0,
        Some(i) => {
            if annuls(instruction, from, to) {
                cycles.cost(i, true) - cycles.cost(i, false)
            } else {
                0
            }
        }
    }
}

/// What an instruction costs more behind one that loaded these registers.
fn pair_cost(cycles: &Cycles, registers: u32, instruction: &Option<Instr>) -> u32
    ensures value { result ≡ pair_cost cycles.now registers instruction.now }
    ensures most { result ≤ 1000000 }
{
    match instruction {
        None => 0,
        Some(i) => cycles.pair(registers, i),
    }
}

/// The registers that an instruction loads.
fn loads(instruction: &Option<Instr>) -> u32
    ensures { result ≡ loads instruction.now }
{
    match instruction {
        None => 0,
        Some(i) => loaded(i),
    }
}

/// The registers that may be loaded behind a program point's step: behind a call any.
fn loaded_behind(image: &Image, p: Place) -> u32
    ensures { result ≡ loaded_behind image.now p p.next }
{
    match p.next {
        Next::At(_) => loads(&instruction_at(image, p.pc)),
        Next::Into(_) => ALL_REGISTERS,
        Next::Back => loads(&instruction_at(image, p.pc)),
    }
}

/// What the instruction of a program point costs, without what it calls.
pub fn own_place_cost(image: &Image, cycles: &Cycles, p: Place) -> u64
    ensures value { result ≡ own_cost cycles.now (code_instruction image.now p.pc) }
    ensures most { result ≤ 2000000 }
{
    u64::from(own_cost(cycles, &instruction_at(image, p.pc)))
}

/// What a step from one program point to another costs: what it annuls, and that the one's instruction loads what the
/// other's reads.
pub fn edge_cost(image: &Image, cycles: &Cycles, p: Place, q: Place) -> u64
    ensures value { result ≡ edge_cost image.now cycles.now p q }
    ensures most { result ≤ 3000000 }
{
    let annulled = annulled_cost(cycles, &instruction_at(image, p.pc), p.pc, q.pc);
    let pair = pair_cost(
        cycles,
        loaded_behind(image, p),
        &instruction_at(image, q.pc),
    );
    u64::from(annulled) + u64::from(pair)
}

/// What each walk of a subprogram costs at its start: its first instruction may read what the caller's last one loaded.
pub fn start_cost(image: &Image, cycles: &Cycles, sub: u32) -> u64
    ensures value { result ≡ pair_cost cycles.now all_registers (code_instruction image.now sub) }
    ensures most { result ≤ 1000000 }
{
    u64::from(pair_cost(cycles, ALL_REGISTERS, &instruction_at(image, sub)))
}
