// Instructions, by what they do.
ghost use Rattle.std.specs.Prelude.{◌≡◌};
ghost use Rattle.isa.specs.Operations.{keeps_result};

use crate::register::RegisterName;

// The second operand: a register, or a constant that the word holds.
#[derive(Clone, Copy, PartialEq, Eq, Debug)]
pub enum Operand {
    Register(RegisterName),
    Constant(u8),
}

// Operations on a register and a second operand, with their codes.
#[derive(Clone, Copy, PartialEq, Eq, Debug)]
pub enum AluOperation {
    Add = 0x0,
    Adc = 0x1,
    Sub = 0x2,
    Sbc = 0x3,
    And = 0x4,
    Or = 0x5,
    Xor = 0x6,
    Tst = 0x8,
    Cmp = 0xA,
}

impl AluOperation {
    // Whether the operation writes its result into its first operand: all but TST and CMP do.
    pub fn keeps_result(self) -> bool
        ensures { result ≡ keeps_result self }
    {
        !matches!(self, AluOperation::Tst | AluOperation::Cmp)
    }
}

// Shifts and rotates of one register, with their codes.
#[derive(Clone, Copy, PartialEq, Eq, Debug)]
pub enum ShiftOperation {
    Sl0 = 0x0,
    Sl1 = 0x4,
    Sr0 = 0x1,
    Sr1 = 0x5,
    Asr = 0x9,
    Rol = 0x2,
    Ror = 0x3,
    Rlc = 0x6,
    Rrc = 0x7,
}

// When a jump is taken, with the code of the jump.
#[derive(Clone, Copy, PartialEq, Eq, Debug)]
pub enum Condition {
    Always = 0x0,
    Zero = 0x1,
    NotZero = 0x2,
    Carry = 0x3,
    NoCarry = 0x4,
    Negative = 0x5,
    NotNegative = 0x6,
    Overflow = 0x7,
    NoOverflow = 0x8,
}

// An instruction. Load and Store address memory by their operand, a constant address or the content of a register;
// Jump and Call go to it likewise.
#[derive(Clone, Copy, PartialEq, Eq, Debug)]
pub enum Instruction {
    Alu(AluOperation, RegisterName, Operand),
    Move(RegisterName, Operand),
    Load(RegisterName, Operand),
    Store(RegisterName, Operand),
    Jump(Condition, Operand),
    Call(Operand),
    Return,
    ReturnFromInterrupt,
    DisableInterrupts,
    EnableInterrupts,
    Swap(RegisterName),
    Shift(ShiftOperation, RegisterName),
}
