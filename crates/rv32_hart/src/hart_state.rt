// The registers of a hart.
ghost use Rattle.std.specs.Prelude.{◌≡◌, ◌%◌};
ghost use Rattle.rv32_hart.specs.Registers.{started, reg, with_reg, at_pc, advanced};

use rv32_decode::Reg;
use std::marker::Model;

/// A hart's pc, always a multiple of 4, and its 32 registers, of which x0 is always zero.
#[derive(Drop)]
pub struct HartState {
    pc: u32,
    values: [u32; 32],
}

impl Model for HartState {
    ghost use Rattle.rv32_hart.specs.Registers.{Registers, IsHart};

    ghost Value = { Registers };

    ghost view = { λ s. record { pc = s.pc; values = s.values } };

    ghost invariant = { λ s. IsHart (record { pc = s.pc; values = s.values }) };
}

impl HartState {
    /// A hart at `pc`, a multiple of 4, with its stack pointer x2, its global pointer x3 and an
    /// argument in x10. All other registers are zero.
    pub fn new(pc: u32, sp: u32, gp: u32, arg: u32) -> HartState
        requires { pc % 4 ≡ 0 }
        ensures { result ≡ started pc sp gp arg }
    {
        let mut values = [0; 32];
        values[2] = sp;
        values[3] = gp;
        values[10] = arg;
        HartState { pc, values }
    }

    /// The address of the next instruction, a multiple of 4.
    pub fn pc(&self) -> u32
        ensures value { result ≡ self.now.pc }
        ensures aligned { result % 4 ≡ 0 }
    {
        self.pc
    }

    /// What a register holds: zero for x0.
    pub fn reg(&self, r: Reg) -> u32
        ensures value { result ≡ reg self.now r }
        ensures zero { r ≡ 0 → result ≡ 0 }
    {
        self.values[usize::from(r.number())]
    }

    /// Puts a value into a register. x0 stays zero.
    pub fn set_reg(&mut self, r: Reg, value: u32)
        ensures { self.new ≡ with_reg self.old r value }
    {
        let number = r.number();
        if number != 0 {
            self.values[usize::from(number)] = value;
        }
    }

    /// Adds 4 to the pc, which wraps at 2^32.
    pub fn advance(&mut self)
        ensures { self.new ≡ advanced self.old }
    {
        self.pc = self.pc.wrapping_add(4);
    }

    /// Goes to a target.
    pub(crate) fn jump(&mut self, target: u32)
        requires { target % 4 ≡ 0 }
        ensures { self.new ≡ at_pc self.old target }
    {
        self.pc = target;
    }
}
