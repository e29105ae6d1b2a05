// Instructions as text, in the assembler's form.
ghost use Rattle.std.specs.Prelude.{◌≡◌, Some};
ghost use Rattle.isa.specs.Assembly.{alu_mnemonic, shift_mnemonic, jump_mnemonic, register_text, value_text, address_text, text_of};

use crate::instruction::{AluOperation, Condition, Instruction, Operand, ShiftOperation};
use crate::register::RegisterName;
use hexadecimal::HexByte;
use std::fmt;

// An operand whose value is meant: `r0` or `#0x05`.
#[derive(Clone, Copy)]
struct Value(Operand);

// An operand that is an address: `(r3)` or `0x84`.
#[derive(Clone, Copy)]
struct Address(Operand);

impl fmt::Display for AluOperation {
    ghost output = { λ o. Some (alu_mnemonic o) };

    fn fmt<W: fmt::Write>(&self, f: &mut fmt::Formatter<W>) -> fmt::Result {
        f.write_str(match self {
            AluOperation::Add => "ADD",
            AluOperation::Adc => "ADC",
            AluOperation::Sub => "SUB",
            AluOperation::Sbc => "SBC",
            AluOperation::And => "AND",
            AluOperation::Or => "OR",
            AluOperation::Xor => "XOR",
            AluOperation::Tst => "TST",
            AluOperation::Cmp => "CMP",
        })
    }
}

impl fmt::Display for ShiftOperation {
    ghost output = { λ o. Some (shift_mnemonic o) };

    fn fmt<W: fmt::Write>(&self, f: &mut fmt::Formatter<W>) -> fmt::Result {
        f.write_str(match self {
            ShiftOperation::Sl0 => "SL0",
            ShiftOperation::Sl1 => "SL1",
            ShiftOperation::Sr0 => "SR0",
            ShiftOperation::Sr1 => "SR1",
            ShiftOperation::Asr => "ASR",
            ShiftOperation::Rol => "ROL",
            ShiftOperation::Ror => "ROR",
            ShiftOperation::Rlc => "RLC",
            ShiftOperation::Rrc => "RRC",
        })
    }
}

impl fmt::Display for Condition {
    ghost output = { λ c. Some (jump_mnemonic c) };

    fn fmt<W: fmt::Write>(&self, f: &mut fmt::Formatter<W>) -> fmt::Result {
        f.write_str(match self {
            Condition::Always => "JMP",
            Condition::Zero => "JZ",
            Condition::NotZero => "JNZ",
            Condition::Carry => "JC",
            Condition::NoCarry => "JNC",
            Condition::Negative => "JN",
            Condition::NotNegative => "JNN",
            Condition::Overflow => "JV",
            Condition::NoOverflow => "JNV",
        })
    }
}

impl fmt::Display for RegisterName {
    ghost output = { λ x. Some (register_text x) };

    fn fmt<W: fmt::Write>(&self, f: &mut fmt::Formatter<W>) -> fmt::Result {
        write!(f, "r{}", self.number())
    }
}

impl fmt::Display for Value {
    ghost output = { λ v. Some (value_text v.0) };

    fn fmt<W: fmt::Write>(&self, f: &mut fmt::Formatter<W>) -> fmt::Result {
        match self.0 {
            Operand::Register(y) => write!(f, "{y}"),
            Operand::Constant(k) => write!(f, "#0x{}", HexByte(k)),
        }
    }
}

impl fmt::Display for Address {
    ghost output = { λ a. Some (address_text a.0) };

    fn fmt<W: fmt::Write>(&self, f: &mut fmt::Formatter<W>) -> fmt::Result {
        match self.0 {
            Operand::Register(y) => write!(f, "({y})"),
            Operand::Constant(k) => write!(f, "0x{}", HexByte(k)),
        }
    }
}

impl fmt::Display for Instruction {
    ghost output = { λ i. Some (text_of i) };

    fn fmt<W: fmt::Write>(&self, f: &mut fmt::Formatter<W>) -> fmt::Result {
        match *self {
            Instruction::Alu(operation, x, operand) => {
                write!(f, "{operation} {x}, {}", Value(operand))
            }
            Instruction::Move(x, operand) => write!(f, "MOV {x}, {}", Value(operand)),
            Instruction::Load(x, operand) => write!(f, "MOV {x}, {}", Address(operand)),
            Instruction::Store(x, operand) => write!(f, "MOV {}, {x}", Address(operand)),
            Instruction::Jump(condition, operand) => {
                write!(f, "{condition} {}", Address(operand))
            }
            Instruction::Call(operand) => write!(f, "JSR {}", Address(operand)),
            Instruction::Return => write!(f, "RTS"),
            Instruction::ReturnFromInterrupt => write!(f, "RTI"),
            Instruction::DisableInterrupts => write!(f, "CLI"),
            Instruction::EnableInterrupts => write!(f, "STI"),
            Instruction::Swap(x) => write!(f, "SWP {x}"),
            Instruction::Shift(operation, x) => write!(f, "{operation} {x}"),
        }
    }
}
