ghost use Rattle.std.specs.Prelude.{ℕ, ◌<◌, ◌≡◌};
ghost use Rattle.devices.specs.Desk.{desk_keeps, desk_meaning, new_desk};

use crate::{Buttons, Input, Memory, Output};
use bus::{Empty, Layer};

pub type Desk = Layer<Buttons, Layer<Input, Layer<Output, Layer<Memory, Empty>>>>;

// Memory at 0x00, the output at 0x80, the input at 0x81 and the buttons at 0x84.
pub fn desk(cells: [u8; 128]) -> Desk
    ensures made { result ≡ new_desk cells }
    ensures kinds { (a : ℕ) → a < 256 → desk_meaning.keeps result a ≡ desk_keeps a }
{
    let memory = Layer::new(0x00, Memory::new(cells), Empty);
    let output = Layer::new(0x80, Output::new(), memory);
    let input = Layer::new(0x81, Input::new(), output);
    Layer::new(0x84, Buttons::new(), input)
}
