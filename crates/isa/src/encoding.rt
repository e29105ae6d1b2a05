// From an instruction to its word.
ghost use Rattle.std.specs.Prelude.{◌≡◌, ◌<◌, Some};
ghost use Rattle.isa.specs.Laws.{ByteOperand, ByteSized, HasWord};
ghost use Rattle.isa.specs.Words.{operand_word, encoded, decoded};

use crate::instruction::{Instruction, Operand};

// The word of a code with a digit and a second operand.
fn operand_word(code: u8, digit: u8, operand: Operand) -> u16
    requires { (code < 16) × (digit < 16) }
    ensures word { result ≡ operand_word code digit operand }
    ensures bytes { ByteOperand operand }
{
    match operand {
        Operand::Constant(k) => u16::from_be_bytes([code * 0x10 + digit, k]),
        Operand::Register(y) => u16::from_be_bytes([0xF0 + digit, code * 0x10 + y.number()]),
    }
}

// The word of an instruction.
fn word_of(instruction: Instruction) -> u16
    ensures word { result ≡ encoded instruction }
    ensures bytes { ByteSized instruction }
{
    match instruction {
        Instruction::Alu(operation, x, operand) => operand_word(
            operation as u8,
            x.number(),
            operand,
        ),
        Instruction::Move(x, operand) => operand_word(0xC, x.number(), operand),
        Instruction::Load(x, operand) => operand_word(0xD, x.number(), operand),
        Instruction::Store(x, operand) => operand_word(0x9, x.number(), operand),
        Instruction::Jump(condition, operand) => operand_word(0xB, condition as u8, operand),
        Instruction::Call(operand) => operand_word(0xB, 0x9, operand),
        Instruction::Return => 0xBA00,
        Instruction::ReturnFromInterrupt => 0xBB00,
        Instruction::DisableInterrupts => 0xBC00,
        Instruction::EnableInterrupts => 0xBD00,
        Instruction::Swap(x) => u16::from_be_bytes([0x70 + x.number(), 0x00]),
        Instruction::Shift(operation, x) => u16::from_be_bytes([
            0xF0 + x.number(),
            0x70 + operation as u8,
        ]),
    }
}

// The word of an instruction, which decodes to it.
#[tactic(auto, using(crate::proofs::Back::read_back))]
pub fn encode(instruction: Instruction) -> u16
    ensures word { HasWord instruction result }
    ensures back { decoded result ≡ Some instruction }
{
    word_of(instruction)
}
