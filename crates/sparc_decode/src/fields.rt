//! The fields of an instruction word (SPARC Architecture Manual Version 7, "Instruction Formats").
ghost use Rattle.std.specs.Prelude.{◌≡◌, ◌<◌, ◌^◌, ◌/◌, ◌%◌, ◌==◌};
ghost use Rattle.sparc_decode.specs.Instr.{IsOperand};
ghost use Rattle.sparc_decode.specs.Word.{field, signed_field, second_of, IsSigned};

use crate::Second;

/// The op field, bits 31 to 30.
pub fn op(word: u32) -> u8
    ensures value { result ≡ field word 30 2 }
    ensures small { result < 4 }
{
    (word >> 30) as u8
}

/// The op2 field, bits 24 to 22.
pub fn op2(word: u32) -> u8
    ensures { result ≡ field word 22 3 }
{
    ((word >> 22) & 7) as u8
}

/// The op3 field, bits 24 to 19.
pub fn op3(word: u32) -> u8
    ensures { result ≡ field word 19 6 }
{
    ((word >> 19) & 63) as u8
}

/// The rd field, bits 29 to 25.
pub fn rd(word: u32) -> u8
    ensures value { result ≡ field word 25 5 }
    ensures register { result < 32 }
{
    ((word >> 25) & 31) as u8
}

/// The rs1 field, bits 18 to 14.
pub fn rs1(word: u32) -> u8
    ensures value { result ≡ field word 14 5 }
    ensures register { result < 32 }
{
    ((word >> 14) & 31) as u8
}

/// The annul bit, bit 29.
pub fn annul(word: u32) -> bool
    ensures { result ≡ (field word 29 1 == 1) }
{
    (word >> 29) & 1 == 1
}

/// The cond field, bits 28 to 25.
pub fn cond(word: u32) -> u8
    ensures value { result ≡ field word 25 4 }
    ensures small { result < 16 }
{
    ((word >> 25) & 15) as u8
}

/// The disp30 field of CALL, bits 29 to 0.
pub fn disp30(word: u32) -> u32
    ensures value { result ≡ field word 0 30 }
    ensures small { result < 2 ^ 30 }
{
    word & 0x3fff_ffff
}

/// The imm22 field of SETHI and UNIMP, bits 21 to 0.
pub fn imm22(word: u32) -> u32
    ensures value { result ≡ field word 0 22 }
    ensures small { result < 2 ^ 22 }
{
    word & 0x003f_ffff
}

/// The disp22 field of a branch, bits 21 to 0, with its sign.
pub fn disp22(word: u32) -> i32
    ensures value { result ≡ signed_field word 22 }
    ensures small { IsSigned result 22 }
{
    let bits = (word & 0x003f_ffff) as i32;
    if bits < 0x0020_0000 {
        bits
    } else {
        bits - 0x0040_0000
    }
}

/// The simm13 field, bits 12 to 0, with its sign.
pub fn simm13(word: u32) -> i32
    ensures value { result ≡ signed_field word 13 }
    ensures small { IsSigned result 13 }
{
    let bits = (word & 0x1fff) as i32;
    if bits < 4096 { bits } else { bits - 8192 }
}

/// The second operand: the register of bits 4 to 0 where bit 13 is 0, else simm13.
pub fn second(word: u32) -> Second
    ensures value { result ≡ second_of word }
    ensures operand { IsOperand result }
{
    if (word >> 13) & 1 == 0 {
        Second::Reg((word & 31) as u8)
    } else {
        Second::Imm(simm13(word))
    }
}
