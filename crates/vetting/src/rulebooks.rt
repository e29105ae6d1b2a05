// The two rulebooks: what a word breaks in main and in the handler.
ghost use Rattle.std.specs.Prelude.{◌≡◌, Bool, false, Option, slice_index_or};
ghost use Rattle.isa.specs.declared.instruction.Instruction.{Instruction};
ghost use Rattle.vetting.specs.declared.rules.Rule.{Rule};
ghost use Rattle.vetting.specs.Sheets.{guarded, handled};
ghost use Rattle.vetting.specs.Programs.{main_breaks, handler_breaks};

use crate::rules::Rule;
use crate::sheet::Sheet;
use crate::words;
use isa::Instruction;

// Tells whether a word breaks a rule. The word holds an instruction, or none where it is undefined; the list of return
// addresses with which it is reached is empty or filled. A word may break several rules.
pub trait Rulebook {
    ghost breaks: { Self → Rule → Option Instruction → Bool → Bool };

    fn is_broken(&self, rule: Rule, instruction: Option<Instruction>, filled: bool) -> bool
        ensures { result ≡ breaks self.now rule instruction filled };
}

// Main's rules, over the handler's registers.
#[derive(Clone, Copy)]
pub struct MainRules {
    pub sheet: Sheet,
}

// The handler's rules, over its registers and main's ranges.
#[derive(Clone, Copy)]
pub struct HandlerRules {
    pub sheet: Sheet,
}

impl Rulebook for MainRules {
    ghost breaks = { λ s. main_breaks (handled s.sheet) };

    fn is_broken(&self, rule: Rule, instruction: Option<Instruction>, filled: bool) -> bool {
        let Some(instruction) = instruction else {
            return rule == Rule::MainWord;
        };
        match rule {
            Rule::MainWord => words::goes_through_register(instruction)
                || instruction == Instruction::ReturnFromInterrupt,
            Rule::MainReturn => instruction == Instruction::Return && !filled,
            Rule::MainRegister => self.sheet.names_handlers(instruction),
            Rule::HandlerWord | Rule::HandlerReturn | Rule::HandlerWrite => false,
        }
    }
}

impl Rulebook for HandlerRules {
    ghost breaks = { λ s. handler_breaks (handled s.sheet) (guarded s.sheet) };

    fn is_broken(&self, rule: Rule, instruction: Option<Instruction>, filled: bool) -> bool {
        let Some(instruction) = instruction else {
            return rule == Rule::HandlerWord;
        };
        match rule {
            Rule::MainWord | Rule::MainReturn | Rule::MainRegister => false,
            Rule::HandlerWord => {
                words::goes_through_register(instruction)
                    || words::stores_through_register(instruction)
                    || instruction == Instruction::EnableInterrupts
            }
            Rule::HandlerReturn => {
                (instruction == Instruction::Return && !filled)
                    || (instruction == Instruction::ReturnFromInterrupt && filled)
            }
            Rule::HandlerWrite => {
                self.sheet.writes_mains(instruction) || self.sheet.stores_guarded(instruction)
            }
        }
    }
}
