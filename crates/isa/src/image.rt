// The words of an image as instructions.
ghost use Rattle.std.specs.Prelude.{◌≡◌};
ghost use Rattle.isa.specs.Images.{instruction_in};

use crate::decoding::decode;
use crate::instruction::Instruction;

// The instruction at an address of an image, if its word is defined.
pub fn instruction_at(image: &[u16; 256], at: u8) -> Option<Instruction>
    ensures { result ≡ instruction_in image.now at }
{
    decode(image[usize::from(at)])
}
