// The bus of a station: what every bus and every device does and keeps to.
#![tactic(auto)]

ghost use Rattle.std.specs.Prelude.{ℕ, ◌<◌, ◌^◌, ◌≤◌, ◌≡◌};
ghost use Rattle.bus.specs.Meaning.{Laws, Meaning, clock, drive, read, write};

mod empty;
mod layers;
mod seen;

pub use empty::Empty;
pub use layers::Layer;
pub use seen::seen_by_events;

// A bus of 256 addresses. `meaning` says what it shows in each condition and how events change it.
pub trait Bus {
    ghost meaning: { Meaning Self };

    // The byte at an address; a bus may change when it is read.
    fn read(&mut self, at: u8) -> u8
        ensures answer { result ≡ meaning.reads self.old at }
        ensures after { self.new ≡ meaning.after self.old (read at) };

    // Writes a byte to an address.
    fn write(&mut self, at: u8, byte: u8)
        ensures { self.new ≡ meaning.after self.old (write at byte) };

    // One clock.
    fn clock(&mut self)
        ensures { self.new ≡ meaning.after self.old clock };

    // Sets the outside lines at an address.
    fn drive(&mut self, at: u8, byte: u8)
        ensures { self.new ≡ meaning.after self.old (drive at byte) };

    // Whether an interrupt is asked for.
    fn requests(&self) -> bool
        ensures { result ≡ meaning.requests self.now };

    // Whether the address has a cell that holds what is written to it; it is a port otherwise.
    fn keeps(&self, at: u8) -> bool
        ensures { result ≡ meaning.keeps self.now at };

    ghost laws: { Laws 256 meaning };
}

// A device does at the offsets 0 to 2 ^ N - 1 what a bus does at its addresses. The ghost N is the constant, for clauses.
pub trait Device {
    const N: u32;

    ghost N: { ℕ };

    ghost meaning: { Meaning Self };

    fn read(&mut self, at: u8) -> u8
        requires { at < 2 ^ N }
        ensures answer { result ≡ meaning.reads self.old at }
        ensures after { self.new ≡ meaning.after self.old (read at) };

    fn write(&mut self, at: u8, byte: u8)
        requires { at < 2 ^ N }
        ensures { self.new ≡ meaning.after self.old (write at byte) };

    fn clock(&mut self)
        ensures { self.new ≡ meaning.after self.old clock };

    fn drive(&mut self, at: u8, byte: u8)
        requires { at < 2 ^ N }
        ensures { self.new ≡ meaning.after self.old (drive at byte) };

    fn requests(&self) -> bool
        ensures { result ≡ meaning.requests self.now };

    fn keeps(&self, at: u8) -> bool
        requires { at < 2 ^ N }
        ensures { result ≡ meaning.keeps self.now at };

    ghost range: { N ≤ 8 };

    ghost laws: { Laws (2 ^ N) meaning };
}
