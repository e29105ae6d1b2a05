// The tests of the processor: words executed on a bus, and compared with what the instruction's row says.
#![tactic(auto)]

#[cfg(test)]
mod flow;
#[cfg(test)]
mod interrupts;
#[cfg(test)]
mod registers;
#[cfg(test)]
mod station;
