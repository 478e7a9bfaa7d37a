ghost use Rattle.std.specs.Prelude.{◌≡◌, ◌<◌};
ghost use Rattle.sparc_machine.specs.Register.{physical_of};

use sparc_decode::Second;

/// A machine of eight register windows, as it stands before a step.
#[derive(Clone, Copy, Debug, PartialEq, Eq)]
pub struct Machine {
    /// The registers: eight globals, then sixteen for each window. `physical` says which is which.
    pub regs: [u32; 136],
    /// The condition code N: the result was negative.
    pub n: bool,
    /// The condition code Z: the result was zero.
    pub z: bool,
    /// The condition code V: the result passed 32 bits with sign.
    pub v: bool,
    /// The condition code C: there was a carry or a borrow.
    pub c: bool,
    /// The address of the instruction that is executed next.
    pub pc: u32,
    /// The address of the instruction after that.
    pub npc: u32,
    /// The current window pointer, below 8.
    pub cwp: u8,
    /// The window invalid mask: bit w stands for window w.
    pub wim: u8,
    /// The cycles spent so far.
    pub cycles: u64,
    /// The registers that the step before loaded from memory: bit r stands for register r.
    pub loaded: u32,
}

/// The place in `regs` of register `r` in the window `cwp`: the globals first, then the windows, each of
/// which shares its in registers with the out registers of the window above.
pub fn physical(cwp: u8, r: u8) -> usize
    requires window { cwp < 8 }
    requires register { r < 32 }
    ensures place { result ≡ physical_of cwp r }
    ensures within { result < 136 }
{
    let window = 16 * cwp as usize;
    let r = r as usize;
    if r < 8 { r } else { 8 + (window + r - 8) % 128 }
}

impl Machine {
    ghost use Rattle.std.specs.Prelude.{◌^◌};
    ghost use Rattle.sparc_decode.specs.Instr.{IsOperand};
    ghost use Rattle.sparc_machine.specs.Machine.{register_of, with_register, operand_of, going_to, advanced};

    /// The content of a register of the current window.
    pub(crate) fn register(&self, r: u8) -> u32
        requires window { self.now.cwp < 8 }
        requires register { r < 32 }
        ensures { result ≡ register_of self.now r }
    {
        if r == 0 {
            0
        } else {
            self.regs[physical(self.cwp, r)]
        }
    }

    /// Writes a register of the current window.
    pub(crate) fn set_register(&mut self, r: u8, value: u32)
        requires window { self.old.cwp < 8 }
        requires register { r < 32 }
        ensures { self.new ≡ with_register self.old r value }
    {
        if r != 0 {
            self.regs[physical(self.cwp, r)] = value;
        }
    }

    /// The content of a second operand.
    pub(crate) fn operand(&self, second: Second) -> u32
        requires window { self.now.cwp < 8 }
        requires operand { IsOperand second }
        ensures { result ≡ operand_of self.now second }
    {
        match second {
            Second::Reg(r) => self.register(r),
            Second::Imm(n) => n.cast_unsigned(),
        }
    }

    /// Goes on to the next instruction, and to this one after that.
    pub(crate) fn go_to(&mut self, next: u32)
        ensures { self.new ≡ going_to self.old next }
    {
        self.pc = self.npc;
        self.npc = next;
    }

    /// Goes on by one instruction.
    pub(crate) fn advance(&mut self)
        ensures { self.new ≡ advanced self.old }
    {
        self.go_to(self.npc.wrapping_add(4));
    }
}
