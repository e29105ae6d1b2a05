// What vetting asks of an instruction.
ghost use Rattle.std.specs.Prelude.{◌≡◌, false, not, slice_index_or};
ghost use Rattle.vetting.specs.Sheets.{guarded, handled};
ghost use Rattle.vetting.specs.Programs.{flow_of, operand_names, operand_is, names, writes, stores_into, goes_through_register, stores_through_register};

use crate::sheet::Sheet;
use isa::{Condition, Instruction, Operand};
use walk::Flow;

// Where the word that holds this instruction leads; an undefined word holds none.
pub fn flow_of(instruction: Option<Instruction>) -> Flow
    ensures { result ≡ flow_of instruction }
{
    match instruction {
        Some(Instruction::Jump(Condition::Always, Operand::Constant(target))) => Flow::Jump(target),
        Some(Instruction::Jump(_, Operand::Constant(target))) => Flow::Branch(target),
        Some(Instruction::Call(Operand::Constant(target))) => Flow::Call(target),
        Some(Instruction::Return) => Flow::Return,
        None
        | Some(
            Instruction::Jump(_, Operand::Register(_))
            | Instruction::Call(Operand::Register(_))
            | Instruction::ReturnFromInterrupt,
        ) => Flow::Nowhere,
        Some(_) => Flow::Next,
    }
}

impl Sheet {
    // Whether the operand is one of the handler's registers.
    fn handles_operand(&self, operand: Operand) -> bool
        ensures { result ≡ operand_names (handled self.now) operand }
    {
        matches!(operand, Operand::Register(y) if self.handles(y))
    }

    // Whether the operand is a constant address in one of main's ranges.
    fn guards_operand(&self, operand: Operand) -> bool
        ensures { result ≡ operand_is (guarded self.now) operand }
    {
        matches!(operand, Operand::Constant(at) if self.guards(at))
    }

    // Whether an instruction names one of the handler's registers.
    pub(crate) fn names_handlers(&self, instruction: Instruction) -> bool
        ensures { result ≡ names (handled self.now) instruction }
    {
        match instruction {
            Instruction::Alu(_, x, operand)
            | Instruction::Move(x, operand)
            | Instruction::Load(x, operand)
            | Instruction::Store(x, operand) => self.handles(x) || self.handles_operand(operand),
            Instruction::Jump(_, operand) | Instruction::Call(operand) => {
                self.handles_operand(operand)
            }
            Instruction::Swap(x) | Instruction::Shift(_, x) => self.handles(x),
            _ => false,
        }
    }

    // Whether an instruction writes a register that is not the handler's.
    pub(crate) fn writes_mains(&self, instruction: Instruction) -> bool
        ensures { result ≡ writes (λ r. not (handled self.now r)) instruction }
    {
        match instruction {
            Instruction::Alu(operation, x, _) => operation.keeps_result() && !self.handles(x),
            Instruction::Move(x, _)
            | Instruction::Load(x, _)
            | Instruction::Swap(x)
            | Instruction::Shift(_, x) => !self.handles(x),
            _ => false,
        }
    }

    // Whether an instruction stores to a constant address in one of main's ranges.
    pub(crate) fn stores_guarded(&self, instruction: Instruction) -> bool
        ensures { result ≡ stores_into (guarded self.now) instruction }
    {
        matches!(instruction, Instruction::Store(_, operand) if self.guards_operand(operand))
    }
}

// Whether an instruction is a jump or call whose target stands in a register.
pub fn goes_through_register(instruction: Instruction) -> bool
    ensures { result ≡ goes_through_register instruction }
{
    matches!(
        instruction,
        Instruction::Jump(_, Operand::Register(_)) | Instruction::Call(Operand::Register(_)),
    )
}

// Whether an instruction is a store whose address stands in a register.
pub fn stores_through_register(instruction: Instruction) -> bool
    ensures { result ≡ stores_through_register instruction }
{
    matches!(instruction, Instruction::Store(_, Operand::Register(_)))
}
