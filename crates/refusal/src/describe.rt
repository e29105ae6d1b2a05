// The number, the name and the place of each refusal.
ghost use Rattle.std.specs.Prelude.{◌≡◌};
ghost use Rattle.refusal.specs.Refusals.{number_of, name_of, place_of, address_of, AroseAt};

use crate::place::Place;
use crate::refusal::Refusal;

impl Refusal {
    // The number by which the refusal is known, 1 to 15.
    pub fn number(self) -> u8
        ensures { result ≡ number_of self }
    {
        match self {
            Refusal::ImageSize => 1,
            Refusal::SheetEnd => 2,
            Refusal::SheetWord { index: _ } => 3,
            Refusal::SheetRange { index: _ } => 4,
            Refusal::MainWord { at: _ } => 5,
            Refusal::MainReturn { at: _ } => 6,
            Refusal::MainRegister { at: _ } => 7,
            Refusal::HandlerWord { at: _ } => 8,
            Refusal::HandlerReturn { at: _ } => 9,
            Refusal::HandlerWrite { at: _ } => 10,
            Refusal::Depth => 11,
            Refusal::Register => 12,
            Refusal::Port => 13,
            Refusal::Budget => 14,
            Refusal::BurnBuffer => 15,
        }
    }

    // Its name, in the words of the table of refusals.
    pub fn name(self) -> &'static str
        ensures { result.now ≡ name_of self }
    {
        match self {
            Refusal::ImageSize => "image size",
            Refusal::SheetEnd => "sheet end",
            Refusal::SheetWord { index: _ } => "sheet word",
            Refusal::SheetRange { index: _ } => "sheet range",
            Refusal::MainWord { at: _ } => "main word",
            Refusal::MainReturn { at: _ } => "main return",
            Refusal::MainRegister { at: _ } => "main register",
            Refusal::HandlerWord { at: _ } => "handler word",
            Refusal::HandlerReturn { at: _ } => "handler return",
            Refusal::HandlerWrite { at: _ } => "handler write",
            Refusal::Depth => "depth",
            Refusal::Register => "register",
            Refusal::Port => "port",
            Refusal::Budget => "budget",
            Refusal::BurnBuffer => "burn buffer",
        }
    }

    // Where it arose, if at a word of the sheet or of the image.
    pub(crate) fn origin(self) -> Option<Place>
        ensures { AroseAt self result }
    {
        match self {
            Refusal::SheetWord { index } | Refusal::SheetRange { index } => Some(Place::Sheet(
                index,
            )),
            Refusal::MainWord { at }
            | Refusal::MainReturn { at }
            | Refusal::MainRegister { at }
            | Refusal::HandlerWord { at }
            | Refusal::HandlerReturn { at }
            | Refusal::HandlerWrite { at } => Some(Place::Image(at)),
            Refusal::ImageSize
            | Refusal::SheetEnd
            | Refusal::Depth
            | Refusal::Register
            | Refusal::Port
            | Refusal::Budget
            | Refusal::BurnBuffer => None,
        }
    }

    // The index in the sheet for 3 and 4, an address for 5 to 10, else 0.
    pub fn place(self) -> u8
        ensures { result ≡ place_of self }
    {
        match self.origin() {
            Some(Place::Sheet(index)) => index,
            Some(Place::Image(at)) => at,
            None => 0,
        }
    }

    // The address of the image that it points at, for 5 to 10.
    pub fn address(self) -> Option<u8>
        ensures { result ≡ address_of self }
    {
        match self.origin() {
            Some(Place::Image(at)) => Some(at),
            _ => None,
        }
    }
}
