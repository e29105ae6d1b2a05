// How deep the calls of a program go.
ghost use Rattle.vetting.specs.Judging.{Small, DepthsAlone, DepthsTogether};

use refusal::Refusal;

// The longest lists of return addresses: of main's walk, of the handler's, and of both with the interrupt's own place.
#[derive(Clone, Copy, PartialEq, Eq, Debug)]
pub struct Depths {
    pub main: u8,
    pub handler: u8,
    pub total: u8,
}

// The places of the stack.
pub const STACK_SIZE: u8 = 16;

impl Depths {
    // The depths of a program whose handler is never entered, unless main's passes the stack.
    pub(crate) fn alone(main: Option<u8>) -> Result<Depths, Refusal>
        ensures { DepthsAlone main result }
    {
        let main = main.ok_or(Refusal::Depth)?;
        Ok(Depths {
            main,
            handler: 0,
            total: main,
        })
    }

    // The depths of main and of the handler, if they fit the stack with the interrupt's own place.
    pub(crate) fn together(main: Option<u8>, handler: Option<u8>) -> Result<Depths, Refusal>
        requires main { Small main }
        requires handler { Small handler }
        ensures { DepthsTogether main handler result }
    {
        let main = main.ok_or(Refusal::Depth)?;
        let handler = handler.ok_or(Refusal::Depth)?;
        let total = main + 1 + handler;
        if total > STACK_SIZE {
            return Err(Refusal::Depth);
        }
        Ok(Depths {
            main,
            handler,
            total,
        })
    }
}
