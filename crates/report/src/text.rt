// The report on a vetted image, as text.
ghost use Rattle.std.specs.Prelude.{◌≡◌, Some};
ghost use Rattle.report.specs.Reports.{pointed_line, report_of};

use listing::Line;
use refusal::Refusal;
use std::fmt;
use vetting::Depths;

// What vetting answered of an image: its depths, or the refusal with the line that it points at.
#[derive(Clone, Copy)]
pub struct Report<'a> {
    pub image: &'a [u16],
    pub answer: Result<Depths, Refusal>,
}

// The line of the word that a refusal points at; none where it points at no word of the image.
fn pointed_line(image: &[u16], refusal: Refusal) -> Option<Line>
    ensures { result ≡ pointed_line image.now refusal }
{
    let at = refusal.address()?;
    let word = image.get(usize::from(at))?;
    Some(Line { at, word: *word })
}

impl fmt::Display for Report<'_> {
    ghost output = { λ r. Some (report_of r.image.now r.answer) };

    fn fmt<W: fmt::Write>(&self, f: &mut fmt::Formatter<W>) -> fmt::Result {
        match self.answer {
            Ok(depths) => write!(
                f,
                "accepted\nmain {}\nhandler {}\ntotal {}\n",
                depths.main, depths.handler, depths.total
            ),
            Err(refusal) => {
                writeln!(f, "{refusal}")?;
                if let Some(line) = pointed_line(self.image, refusal) {
                    writeln!(f, "{line}")?;
                }
                Ok(())
            }
        }
    }
}
