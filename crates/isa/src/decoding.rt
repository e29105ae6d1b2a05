// From a word to its instruction.
ghost use Rattle.std.specs.Prelude.{◌≡◌, ◌≢◌, ◌<◌, ◌≤◌, true, Some};
ghost use Rattle.isa.specs.Words.{alu_code, shift_code, jump_code, takes_operand, operand_form, jump_form, word_form, decoded};
ghost use Rattle.isa.specs.Laws.{Corresponds};

use crate::instruction::{AluOperation, Condition, Instruction, Operand, ShiftOperation};
use crate::register::RegisterName;

// Whether a code takes a register and a second operand.
fn takes_operand(code: u8) -> bool
    ensures { result ≡ takes_operand code }
{
    matches!(code, 0x0..=0x6 | 0x8..=0xA | 0xC..=0xD)
}

// The operation on two operands of a code.
fn alu_operation(code: u8) -> AluOperation
    requires { (code < 11) × ((code ≢ 7) × (code ≢ 9)) }
    ensures { alu_code result ≡ code }
{
    match code {
        0x0 => AluOperation::Add,
        0x1 => AluOperation::Adc,
        0x2 => AluOperation::Sub,
        0x3 => AluOperation::Sbc,
        0x4 => AluOperation::And,
        0x5 => AluOperation::Or,
        0x6 => AluOperation::Xor,
        0x8 => AluOperation::Tst,
        _ => AluOperation::Cmp,
    }
}

// The instruction of a code that takes a register and a second operand.
fn two_operand(code: u8, x: RegisterName, operand: Operand) -> Instruction
    requires { takes_operand code ≡ true }
    ensures { operand_form code x operand ≡ Some result }
{
    match code {
        0x9 => Instruction::Store(x, operand),
        0xC => Instruction::Move(x, operand),
        0xD => Instruction::Load(x, operand),
        _ => Instruction::Alu(alu_operation(code), x, operand),
    }
}

// The condition of a jump's code.
fn condition(code: u8) -> Condition
    requires { code < 9 }
    ensures { jump_code result ≡ code }
{
    match code {
        0x0 => Condition::Always,
        0x1 => Condition::Zero,
        0x2 => Condition::NotZero,
        0x3 => Condition::Carry,
        0x4 => Condition::NoCarry,
        0x5 => Condition::Negative,
        0x6 => Condition::NotNegative,
        0x7 => Condition::Overflow,
        _ => Condition::NoOverflow,
    }
}

// The jump or call of a code.
fn jump(code: u8, operand: Operand) -> Instruction
    requires { code ≤ 9 }
    ensures { jump_form code operand ≡ Some result }
{
    match code {
        0x9 => Instruction::Call(operand),
        _ => Instruction::Jump(condition(code), operand),
    }
}

// The shift or rotate of a code.
fn shift_operation(code: u8) -> ShiftOperation
    requires { (code < 10) × (code ≢ 8) }
    ensures { shift_code result ≡ code }
{
    match code {
        0x0 => ShiftOperation::Sl0,
        0x1 => ShiftOperation::Sr0,
        0x2 => ShiftOperation::Rol,
        0x3 => ShiftOperation::Ror,
        0x4 => ShiftOperation::Sl1,
        0x5 => ShiftOperation::Sr1,
        0x6 => ShiftOperation::Rlc,
        0x7 => ShiftOperation::Rrc,
        _ => ShiftOperation::Asr,
    }
}

// The instruction of a word's four digits; one case collects the undefined words.
fn by_digits(first: u8, x: u8, third: u8, y: u8) -> Option<Instruction>
    requires { (first < 16) × ((x < 16) × ((third < 16) × (y < 16))) }
    ensures { result ≡ word_form first x third y }
{
    let register = RegisterName::from_low_bits(x);
    let second = RegisterName::from_low_bits(y);
    let byte = third * 0x10 + y;
    match (first, x, third, y) {
        (0xB, 0x0..=0x9, _, _) => Some(jump(x, Operand::Constant(byte))),
        (0xB, 0xA, 0x0, 0x0) => Some(Instruction::Return),
        (0xB, 0xB, 0x0, 0x0) => Some(Instruction::ReturnFromInterrupt),
        (0xB, 0xC, 0x0, 0x0) => Some(Instruction::DisableInterrupts),
        (0xB, 0xD, 0x0, 0x0) => Some(Instruction::EnableInterrupts),
        (0x7, _, 0x0, 0x0) => Some(Instruction::Swap(register)),
        (0xF, 0x0..=0x9, 0xB, _) => Some(jump(x, Operand::Register(second))),
        (0xF, _, 0x7, 0x0..=0x7 | 0x9) => Some(Instruction::Shift(shift_operation(y), register)),
        (0xF, _, code, _) if takes_operand(code) => Some(two_operand(
            code,
            register,
            Operand::Register(second),
        )),
        (code, _, _, _) if takes_operand(code) => Some(two_operand(
            code,
            register,
            Operand::Constant(byte),
        )),
        _ => None,
    }
}

// The instruction that has this word; none where the word is undefined.
#[tactic(auto, using(crate::proofs::Back::at_digits, crate::proofs::Writing::corresponds))]
pub fn decode(word: u16) -> Option<Instruction>
    ensures reads { result ≡ decoded word }
    ensures corresponds { Corresponds word result }
{
    let [high, low] = word.to_be_bytes();
    by_digits(high / 0x10, high % 0x10, low / 0x10, low % 0x10)
}
