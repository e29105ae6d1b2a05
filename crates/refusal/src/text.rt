// A refusal as a line of text.
ghost use Rattle.std.specs.Prelude.{Some};
ghost use Rattle.refusal.specs.Refusals.{refusal_text};

use crate::refusal::Refusal;
use std::fmt;

impl fmt::Display for Refusal {
    ghost output = { λ r. Some (refusal_text r) };

    fn fmt<W: fmt::Write>(&self, f: &mut fmt::Formatter<W>) -> fmt::Result {
        let number = self.number();
        let name = self.name();
        write!(f, "refused {number} {name}")?;
        if let Some(place) = self.origin() {
            write!(f, " at {place}")?;
        }
        Ok(())
    }
}
