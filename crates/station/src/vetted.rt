// What a session holds: an image and its sheet as vetting has accepted them with these depths, and the marks.
ghost use Rattle.std.specs.Prelude.{◌≡◌, length};
ghost use Rattle.vetting.specs.Verdicts.{Accepted};
ghost use Rattle.vetting.specs.Judging.{read_program};

use vetting::{Depths, Sheet};

#[derive(Drop)]
pub struct Vetted {
    pub(crate) image: [u16; 256],
    pub(crate) sheet: Sheet,
    pub(crate) depths: Depths,
    pub(crate) marks: [bool; 256],
    ghost accepted: { ∥ Accepted (read_program image sheet) depths ∥₁ },
    ghost words: { length image ≡ 256 },
    ghost places: { length marks ≡ 256 },
}
