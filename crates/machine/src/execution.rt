// What each instruction does.
ghost use Rattle.std.specs.Prelude.{◌≡◌, Some};
ghost use Rattle.machine.specs.Processors.{register_of, value_of, with_register, went_on};
ghost use Rattle.machine.specs.Instructions.{byte, called, enabled, executed, holds, jumped, loaded, ran, ran_to, received, returned, returned_from_interrupt, stored, kept};

use crate::access::Access;
use crate::processor::Processor;
use alu::{Flags, Outcome, compute, shift, swap};
use bus::Bus;
use isa::{Condition, Instruction, Operand, RegisterName};

// Whether a jump is taken.
fn is_taken(condition: Condition, flags: Flags) -> bool
    ensures { result ≡ holds condition flags }
{
    match condition {
        Condition::Always => true,
        Condition::Zero => flags.z,
        Condition::NotZero => !flags.z,
        Condition::Carry => flags.c,
        Condition::NoCarry => !flags.c,
        Condition::Negative => flags.n,
        Condition::NotNegative => !flags.n,
        Condition::Overflow => flags.v,
        Condition::NoOverflow => !flags.v,
    }
}

impl Processor {
    // The value of a register, which is a byte.
    pub fn register(&self, x: RegisterName) -> u8
        ensures value { result ≡ register_of x self.now }
        ensures on_bus { result ≡ byte (register_of x self.now) }
    {
        self.registers[usize::from(x.number())]
    }

    // A register is set to a value.
    pub fn set_register(&mut self, x: RegisterName, value: u8)
        ensures { self.new ≡ with_register x value self.old }
    {
        self.registers[usize::from(x.number())] = value;
    }

    // The value of a second operand, which is a byte.
    fn value(&self, operand: Operand) -> u8
        ensures value { result ≡ value_of operand self.now }
        ensures on_bus { result ≡ byte (value_of operand self.now) }
    {
        match operand {
            Operand::Register(y) => self.register(y),
            Operand::Constant(k) => k,
        }
    }

    // The program counter goes on by one, from 255 to 0.
    fn go_on(&mut self)
        ensures { self.new ≡ went_on self.old }
    {
        self.pc = self.pc.wrapping_add(1);
    }

    // An outcome goes to the flags and to a register, or to the flags alone; the program counter goes on.
    fn keep(&mut self, target: Option<RegisterName>, outcome: Outcome)
        ensures { self.new ≡ went_on (kept target outcome self.old) }
    {
        self.flags = outcome.flags;
        if let Some(x) = target {
            self.set_register(x, outcome.value);
        }
        self.go_on();
    }

    // A register becomes a byte: the value of an operand, or what a load was answered.
    fn receive(&mut self, x: RegisterName, byte: u8)
        ensures { self.new ≡ received x byte self.old }
    {
        self.set_register(x, byte);
        self.go_on();
    }

    // A jump goes to its target if it is taken, else on.
    fn jump(&mut self, taken: bool, target: u8)
        ensures { self.new ≡ jumped taken target self.old }
    {
        if taken {
            self.pc = target;
        } else {
            self.go_on();
        }
    }

    // The next address and the six flags are pushed.
    fn call(&mut self, operand: Operand)
        ensures { self.new ≡ called operand self.old }
    {
        let target = self.value(operand);
        self.push(self.pc.wrapping_add(1));
        self.pc = target;
    }

    // PC is taken back, the flags stay.
    fn return_from_call(&mut self)
        ensures { self.new ≡ returned self.old }
    {
        self.pc = self.pop().pc;
    }

    // PC and the six flags are taken back.
    fn return_from_interrupt(&mut self)
        ensures { self.new ≡ returned_from_interrupt self.old }
    {
        let word = self.pop();
        self.pc = word.pc;
        self.flags = word.flags;
    }

    // IE becomes 1, or 0; the other flags stay.
    fn enable_interrupts(&mut self, enable: bool)
        ensures { self.new ≡ enabled enable self.old }
    {
        self.flags.ie = enable;
        self.go_on();
    }

    // A register becomes the byte read at an address.
    fn load<B: Bus>(&mut self, x: RegisterName, at: u8, bus: &mut B) -> Access
        ensures { ran_to self.new bus.new (Some result) ≡ loaded B.meaning x at self.old bus.old }
    {
        let byte = bus.read(at);
        self.receive(x, byte);
        Access::Read { at, byte }
    }

    // A byte is written to an address.
    fn store<B: Bus>(&mut self, byte: u8, at: u8, bus: &mut B) -> Access
        ensures { ran_to self.new bus.new (Some result) ≡ stored B.meaning byte at self.old bus.old }
    {
        bus.write(at, byte);
        self.go_on();
        Access::Write { at, byte }
    }

    // One instruction, with the access that it makes.
    fn execute<B: Bus>(&mut self, instruction: Instruction, bus: &mut B) -> Option<Access>
        ensures { ran_to self.new bus.new result ≡ executed B.meaning instruction self.old bus.old }
    {
        match instruction {
            Instruction::Load(x, operand) => return Some(self.load(x, self.value(operand), bus)),
            Instruction::Store(x, operand) => {
                return Some(self.store(self.register(x), self.value(operand), bus));
            }
            Instruction::Alu(operation, x, operand) => self.keep(
                operation.keeps_result().then_some(x),
                compute(operation, self.register(x), self.value(operand), self.flags),
            ),
            Instruction::Move(x, operand) => self.receive(x, self.value(operand)),
            Instruction::Jump(condition, operand) => {
                self.jump(is_taken(condition, self.flags), self.value(operand))
            }
            Instruction::Call(operand) => self.call(operand),
            Instruction::Return => self.return_from_call(),
            Instruction::ReturnFromInterrupt => self.return_from_interrupt(),
            Instruction::DisableInterrupts => self.enable_interrupts(false),
            Instruction::EnableInterrupts => self.enable_interrupts(true),
            Instruction::Swap(x) => self.keep(Some(x), swap(self.register(x), self.flags)),
            Instruction::Shift(operation, x) => self.keep(
                Some(x),
                shift(operation, self.register(x), self.flags),
            ),
        }
        None
    }

    // One word: an undefined one only moves the program counter.
    pub(crate) fn run<B: Bus>(
        &mut self,
        instruction: Option<Instruction>,
        bus: &mut B,
    ) -> Option<Access>
        ensures { ran_to self.new bus.new result ≡ ran B.meaning instruction self.old bus.old }
    {
        match instruction {
            Some(instruction) => self.execute(instruction, bus),
            None => {
                self.go_on();
                None
            }
        }
    }
}
