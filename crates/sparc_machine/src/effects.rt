//! What an instruction does to a machine over an image.
ghost use Rattle.std.specs.Prelude.{◌≡◌, ◌≢◌, ◌<◌, ◌≤◌, ◌%◌, ◌^◌, false, IfErr, IfOk, OnErr, OnOk};
ghost use Rattle.sparc_decode.specs.Instr.{InRange};
ghost use Rattle.sparc_machine.specs.Effect.{Done, Trapped, effect_of, in_order, called, branch_effect, jumped, read_into, load_effect, write_trap, store_effect, atomic_effect, float_effect, is_in_version, code_word, step_of};
ghost use Rattle.sparc_machine.specs.Outcome.{Stepped, Stopped};

use crate::{Free, Machine, Trap, executing, memory};
use bt_image::Image;
use cycle_table::Cycles;
use sparc_decode::{FloatKind, Instr, LoadKind, StoreKind, decode, loaded};

/// A call of an address.
fn call(m: &mut Machine, target: u32) -> Result<bool, Trap>
    requires window { m.old.cwp < 8 }
    ensures ok { IfOk result (λ annulled. called m.old target ≡ Done m.new annulled) }
    ensures trap { IfErr result (λ trap. called m.old target ≡ Trapped trap) }
    ensures unchanged { OnErr result (m.new ≡ m.old) }
{
    if !executing::stands_in_order(m) {
        return Err(Trap::Unmodelled);
    }
    m.set_register(15, m.pc);
    m.go_to(target);
    Ok(false)
}

/// A branch to a displacement.
fn branch(m: &mut Machine, annul: bool, cond: u8, taken: bool, disp: i32) -> Result<bool, Trap>
    ensures ok { IfOk result (λ annulled. branch_effect m.old annul cond taken disp ≡ Done m.new annulled) }
    ensures trap { IfErr result (λ trap. branch_effect m.old annul cond taken disp ≡ Trapped trap) }
    ensures unchanged { OnErr result (m.new ≡ m.old) }
{
    if !executing::stands_in_order(m) {
        return Err(Trap::Unmodelled);
    }
    let target = executing::target(m.pc, disp);
    Ok(executing::branch(m, annul, cond == 8, taken, target))
}

/// A jump to an address.
fn jump(m: &mut Machine, rd: u8, target: u32) -> Result<bool, Trap>
    requires window { m.old.cwp < 8 }
    requires register { rd < 32 }
    ensures ok { IfOk result (λ annulled. in_order m.old (jumped m.old rd target) ≡ Done m.new annulled) }
    ensures trap { IfErr result (λ trap. in_order m.old (jumped m.old rd target) ≡ Trapped trap) }
    ensures unchanged { OnErr result (m.new ≡ m.old) }
{
    if !executing::stands_in_order(m) {
        return Err(Trap::Unmodelled);
    }
    executing::jump_to(m, rd, target)
}

/// A load of less than a double word.
fn load_one(m: &mut Machine, image: &Image, free: &Free, kind: LoadKind, rd: u8, address: u32)
    requires window { m.old.cwp < 8 }
    requires register { rd < 32 }
    requires kind { kind ≢ LoadKind.Ldd }
    ensures { read_into image.now free.now m.old kind rd address ≡ Done m.new false }
{
    m.set_register(rd, memory::load(image, kind, address, free.first));
    m.advance();
}

/// A load of a double word into an even register and the one behind it.
fn load_double(m: &mut Machine, image: &Image, free: &Free, rd: u8, address: u32)
    requires window { m.old.cwp < 8 }
    requires register { rd < 31 }
    ensures { read_into image.now free.now m.old LoadKind.Ldd rd address ≡ Done m.new false }
{
    let (first, second) = memory::read_double(image, address, free.first, free.second);
    m.set_register(rd, first);
    m.set_register(rd + 1, second);
    m.advance();
}

/// A load.
fn load(
    m: &mut Machine,
    image: &Image,
    free: &Free,
    kind: LoadKind,
    rd: u8,
    address: u32,
) -> Result<bool, Trap>
    requires window { m.old.cwp < 8 }
    requires register { rd < 32 }
    ensures ok { IfOk result (λ annulled. load_effect image.now free.now m.old kind rd address ≡ Done m.new annulled) }
    ensures trap { IfErr result (λ trap. load_effect image.now free.now m.old kind rd address ≡ Trapped trap) }
    ensures unchanged { OnErr result (m.new ≡ m.old) }
{
    let double = kind == LoadKind::Ldd;
    if double && rd % 2 == 1 {
        return Err(Trap::Unmodelled);
    }
    if address % memory::size_of_load(kind) != 0 {
        return Err(Trap::Misaligned);
    }
    if double {
        load_double(m, image, free, rd, address);
    } else {
        load_one(m, image, free, kind, rd, address);
    }
    Ok(false)
}

/// The trap that a write of so many bytes is, if it is one.
fn write_trap(image: &Image, address: u32, size: u32) -> Option<Trap>
    requires some { 0 < size }
    requires few { size ≤ 8 }
    requires divides { 2 ^ 32 % size ≡ 0 }
    ensures { result ≡ write_trap image.now address size }
{
    if address % size != 0 {
        return Some(Trap::Misaligned);
    }
    if memory::touches_read_only(image, address, size) {
        return Some(Trap::ReadOnlyStore);
    }
    None
}

/// A store.
fn store(
    m: &mut Machine,
    image: &Image,
    kind: StoreKind,
    rd: u8,
    address: u32,
) -> Result<bool, Trap>
    ensures ok { IfOk result (λ annulled. store_effect image.now m.old kind rd address ≡ Done m.new annulled) }
    ensures trap { IfErr result (λ trap. store_effect image.now m.old kind rd address ≡ Trapped trap) }
    ensures unchanged { OnErr result (m.new ≡ m.old) }
{
    if kind == StoreKind::Std && rd % 2 == 1 {
        return Err(Trap::Unmodelled);
    }
    if let Some(trap) = write_trap(image, address, memory::size_of_store(kind)) {
        return Err(trap);
    }
    m.advance();
    Ok(false)
}

/// A load and a store in one.
fn exchange(
    m: &mut Machine,
    image: &Image,
    free: &Free,
    swap: bool,
    rd: u8,
    address: u32,
) -> Result<bool, Trap>
    requires window { m.old.cwp < 8 }
    requires register { rd < 32 }
    ensures ok { IfOk result (λ annulled. atomic_effect image.now free.now m.old swap rd address ≡ Done m.new annulled) }
    ensures trap { IfErr result (λ trap. atomic_effect image.now free.now m.old swap rd address ≡ Trapped trap) }
    ensures unchanged { OnErr result (m.new ≡ m.old) }
{
    let size = if swap { 4 } else { 1 };
    if let Some(trap) = write_trap(image, address, size) {
        return Err(trap);
    }
    let value = if swap { free.first } else { free.first & 0xff };
    m.set_register(rd, value);
    m.advance();
    Ok(false)
}

/// A load or a store of the floating-point unit.
fn transfer_float(
    m: &mut Machine,
    image: &Image,
    kind: FloatKind,
    address: u32,
) -> Result<bool, Trap>
    ensures ok { IfOk result (λ annulled. float_effect image.now m.old kind address ≡ Done m.new annulled) }
    ensures trap { IfErr result (λ trap. float_effect image.now m.old kind address ≡ Trapped trap) }
    ensures unchanged { OnErr result (m.new ≡ m.old) }
{
    let size = memory::size_of_float(kind);
    if memory::stores_float(kind) {
        if let Some(trap) = write_trap(image, address, size) {
            return Err(trap);
        }
    } else if address % size != 0 {
        return Err(Trap::Misaligned);
    }
    m.advance();
    Ok(false)
}

/// What an instruction does, and whether it annuls the one behind it.
pub fn execute(
    m: &mut Machine,
    image: &Image,
    free: &Free,
    instruction: Instr,
) -> Result<bool, Trap>
    requires window { m.old.cwp < 8 }
    requires fields { InRange instruction }
    ensures ok { IfOk result (λ annulled. effect_of image.now free.now m.old instruction ≡ Done m.new annulled) }
    ensures trap { IfErr result (λ trap. effect_of image.now free.now m.old instruction ≡ Trapped trap) }
    ensures unchanged { OnErr result (m.new ≡ m.old) }
{
    match instruction {
        Instr::Call { disp } => {
            let target = m.pc.wrapping_add(disp.wrapping_mul(4));
            call(m, target)
        }
        Instr::Unimp { .. } => Err(Trap::Unmodelled),
        Instr::Sethi { rd, imm } => {
            executing::write(m, rd, imm * 1024);
            Ok(false)
        }
        Instr::Branch { annul, cond, disp } => {
            let taken = word_ops::holds(cond, &executing::flags(m));
            branch(m, annul, cond, taken, disp)
        }
        Instr::FloatBranch { annul, cond, disp } => {
            let taken = executing::takes_float(cond, free.taken);
            branch(m, annul, cond, taken, disp)
        }
        Instr::Alu {
            op,
            cc,
            rd,
            rs1,
            second,
        } => {
            let x = m.register(rs1);
            let y = m.operand(second);
            executing::operate(m, op, cc, rd, x, y);
            Ok(false)
        }
        Instr::Tagged {
            op,
            rd,
            rs1,
            second,
        } => {
            let value = executing::tagged(op, m.register(rs1), m.operand(second));
            executing::set_flags(m, executing::free_flags(free.flags));
            executing::write(m, rd, value);
            Ok(false)
        }
        Instr::MulStep { rd, .. } => {
            executing::set_flags(m, executing::free_flags(free.flags));
            executing::write(m, rd, free.first);
            Ok(false)
        }
        Instr::Shift {
            op,
            rd,
            rs1,
            second,
        } => {
            let value = executing::shifted(op, m.register(rs1), m.operand(second));
            executing::write(m, rd, value);
            Ok(false)
        }
        Instr::ReadY { rd } => {
            executing::write(m, rd, free.first);
            Ok(false)
        }
        Instr::WriteY { .. } => {
            m.advance();
            Ok(false)
        }
        Instr::FloatOp(_) => {
            m.advance();
            Ok(false)
        }
        Instr::FloatCmp(_) => {
            m.advance();
            Ok(false)
        }
        Instr::Jmpl { rd, rs1, second } => {
            let target = executing::address(m, rs1, second);
            jump(m, rd, target)
        }
        Instr::Flush { .. } => {
            m.advance();
            Ok(false)
        }
        Instr::Save { rd, rs1, second } => {
            let value = executing::address(m, rs1, second);
            let window = (m.cwp + 7) % 8;
            executing::turn_to(m, window, Trap::Overflow, rd, value)
        }
        Instr::Restore { rd, rs1, second } => {
            let value = executing::address(m, rs1, second);
            let window = (m.cwp + 1) % 8;
            executing::turn_to(m, window, Trap::Underflow, rd, value)
        }
        Instr::Ticc { cond, .. } => {
            if cond != 0 {
                return Err(Trap::Unmodelled);
            }
            m.advance();
            Ok(false)
        }
        Instr::Load {
            kind,
            rd,
            rs1,
            second,
        } => {
            let address = executing::address(m, rs1, second);
            load(m, image, free, kind, rd, address)
        }
        Instr::Store {
            kind,
            rd,
            rs1,
            second,
        } => {
            let address = executing::address(m, rs1, second);
            store(m, image, kind, rd, address)
        }
        Instr::Atomic {
            swap,
            rd,
            rs1,
            second,
        } => {
            let address = executing::address(m, rs1, second);
            exchange(m, image, free, swap, rd, address)
        }
        Instr::FloatMem {
            kind,
            rs1,
            second,
            ..
        } => {
            let address = executing::address(m, rs1, second);
            transfer_float(m, image, kind, address)
        }
        Instr::Unmodelled(_) => Err(Trap::Unmodelled),
        Instr::Unknown(_) => Err(Trap::Unmodelled),
        Instr::Multiply {
            cc,
            rd,
            rs1,
            second,
        } => {
            let product = word_ops::product(m.register(rs1), m.operand(second));
            executing::write_flagged(m, free, cc, rd, product);
            Ok(false)
        }
        Instr::Divide { cc, rd, .. } => {
            executing::write_flagged(m, free, cc, rd, free.first);
            Ok(false)
        }
    }
}

/// Whether tables of version 2, or those of version 1, have costs of an instruction: multiplications and divisions only
/// those of version 2.
fn is_in_version(eight: bool, instruction: &Instr) -> bool
    ensures { result ≡ is_in_version eight instruction.now }
{
    match instruction {
        Instr::Multiply { .. } => eight,
        Instr::Divide { .. } => eight,
        _ => true,
    }
}

/// The same, which leaves the cycles.
fn perform(m: &mut Machine, image: &Image, free: &Free, instruction: Instr) -> Result<bool, Trap>
    requires window { m.old.cwp < 8 }
    requires fields { InRange instruction }
    ensures ok { IfOk result (λ annulled. effect_of image.now free.now m.old instruction ≡ Done m.new annulled) }
    ensures trap { IfErr result (λ trap. effect_of image.now free.now m.old instruction ≡ Trapped trap) }
    ensures unchanged { OnErr result (m.new ≡ m.old) }
    ensures cycles { m.new.cycles ≡ m.old.cycles }
{
    match execute(m, image, free, instruction) {
        Ok(annulled) => Ok(annulled),
        Err(trap) => Err(trap),
    }
}

/// The word of code at an address.
pub fn code_word(image: &Image, address: u32) -> Option<u32>
    ensures { result ≡ code_word image.now address }
{
    if image.code(address) {
        image.word_at(address)
    } else {
        None
    }
}

/// One step over an image, at the costs of a table of cycles, where it finds these free values.
///
/// The step costs what the table says of its instruction and of one that it annuls, and what it says of an instruction
/// that reads a register which the step before loaded.
///
/// A trap leaves the machine as it was: Fetch where no word of code stands at the program counter, Unmodelled
/// for a word whose step isn't modelled, for a multiplication or a division with a table of version 1, and for a
/// transfer in a delay slot, Misaligned for a jump or an access
/// that isn't aligned, ReadOnlyStore for a write that touches a read-only byte, Overflow and Underflow for SAVE
/// and RESTORE to an invalid window.
pub fn step(m: &mut Machine, image: &Image, cycles: &Cycles, free: Free) -> Result<(), Trap>
    requires window { m.old.cwp < 8 }
    requires flags { free.flags < 16 }
    requires cycles { m.old.cycles < 2 ^ 63 }
    ensures ok { OnOk result (step_of image.now cycles.now free m.old ≡ Stepped m.new) }
    ensures trap { IfErr result (λ trap. step_of image.now cycles.now free m.old ≡ Stopped trap) }
    ensures unchanged { OnErr result (m.new ≡ m.old) }
{
    let before = m.cycles;
    match code_word(image, m.pc) {
        None => Err(Trap::Fetch),
        Some(word) => {
            let instruction = decode(word);
            if !is_in_version(cycles.eight(), &instruction) {
                return Err(Trap::Unmodelled);
            }
            let pair = cycles.pair(m.loaded, &instruction);
            let annulled = perform(m, image, &free, instruction)?;
            m.cycles = before + u64::from(cycles.cost(&instruction, annulled) + pair);
            m.loaded = loaded(&instruction);
            Ok(())
        }
    }
}
