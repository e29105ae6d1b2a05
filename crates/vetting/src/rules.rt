// The rules that the words of main and of the handler may break.
ghost use Rattle.std.specs.Prelude.{◌≡◌};
ghost use Rattle.vetting.specs.Judging.{refusal_of};

use refusal::Refusal;

// A rule of main's or of the handler's, in the order of their numbers, 5 to 10.
#[derive(Clone, Copy, PartialEq, Eq, Debug)]
pub enum Rule {
    MainWord,
    MainReturn,
    MainRegister,
    HandlerWord,
    HandlerReturn,
    HandlerWrite,
}

impl Rule {
    // All rules, in the order of their numbers.
    pub(crate) const ALL: [Rule; 6] = [
        Rule::MainWord,
        Rule::MainReturn,
        Rule::MainRegister,
        Rule::HandlerWord,
        Rule::HandlerReturn,
        Rule::HandlerWrite,
    ];
}

// A rule that is broken, and an address at which it is.
#[derive(Clone, Copy)]
pub struct Breach {
    pub rule: Rule,
    pub at: u8,
}

// A breach brings the refusal of its rule.
impl From<Breach> for Refusal {
    ghost from_gives = { λ breach refusal. refusal ≡ refusal_of breach.rule breach.at };

    fn from(breach: Breach) -> Refusal {
        let at = breach.at;
        match breach.rule {
            Rule::MainWord => Refusal::MainWord { at },
            Rule::MainReturn => Refusal::MainReturn { at },
            Rule::MainRegister => Refusal::MainRegister { at },
            Rule::HandlerWord => Refusal::HandlerWord { at },
            Rule::HandlerReturn => Refusal::HandlerReturn { at },
            Rule::HandlerWrite => Refusal::HandlerWrite { at },
        }
    }
}
