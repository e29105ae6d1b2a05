// Sheets, read from their words.
ghost use Rattle.std.specs.Prelude.{◌≡◌, ℕ, ◌<◌, ◌≤◌, true, false, [], length, ◌==◌, ◌||◌, slice_index_or};
ghost use Rattle.vetting.specs.Sheets.{Ended, ReadFrom, SheetRead, guarded, handled};
ghost use Rattle.vetting.specs.SheetWords.{Added, is_in, is_set};

use crate::sheet_word::{AddressRange, SheetWord, is_end};
use isa::RegisterName;
use refusal::Refusal;

// A sheet as it was read: main's ranges by address, the handler's registers by number.
#[derive(Clone, Copy)]
pub struct Sheet {
    ranges: [bool; 256],
    handlers: [bool; 16],
}

// The most words of a sheet, its end word included.
const MOST_WORDS: usize = 64;

// Whether the last word of a sheet, and no other, is an end word, and the sheet is not too long.
fn ends(words: &[u32]) -> bool
    ensures yes { result ≡ true → Ended words.now }
    ensures not { result ≡ false → Ended words.now → ⊥ }
{
    words.len() <= MOST_WORDS
        && words.split_last().is_some_and(|(last, others)| {
            is_end(*last) && !others.iter().any(|word| is_end(*word))
        })
}

impl Sheet {
    // A sheet with no ranges and no registers.
    fn empty() -> Sheet
        ensures { ReadFrom [] result }
    {
        Sheet {
            ranges: [false; 256],
            handlers: [false; 16],
        }
    }

    // Adds the addresses of a range.
    fn add_range(&mut self, range: AddressRange)
        ensures ranges { (a : ℕ) → guarded self.new a ≡ (guarded self.old a || is_in range a) }
        ensures handlers { self.new.handlers ≡ self.old.handlers }
    {
        self.ranges[usize::from(range.first)..=usize::from(range.last)].fill(true);
    }

    // Adds the registers whose bits are set.
    #[tactic(auto, using(crate::proofs::Sheets::all_bits))]
    fn add_registers(&mut self, bits: u16)
        ensures ranges { self.new.ranges ≡ self.old.ranges }
        ensures handlers { (r : ℕ) → handled self.new r ≡ (handled self.old r || is_set bits r) }
    {
        for (register, handled) in self.handlers.iter_mut().enumerate() {
            *handled |= (bits >> register) % 2 == 1;
        }
    }

    // Adds what a word says.
    fn add(&mut self, word: SheetWord)
        ensures { Added self.old word self.new }
    {
        match word {
            SheetWord::Range(range) => self.add_range(range),
            SheetWord::Registers(bits) => self.add_registers(bits),
            SheetWord::End => {}
        }
    }

    // Reads a sheet from its words, or refuses it: its end first, then its words in order.
    #[tactic(auto, using(crate::proofs::Sheets::read_more))]
    pub fn read(words: &[u32]) -> Result<Sheet, Refusal>
        ensures { SheetRead words.now result }
    {
        if !ends(words) {
            return Err(Refusal::SheetEnd);
        }
        let mut sheet = Sheet::empty();
        for (i, word) in words.iter().enumerate() {
            sheet.add(SheetWord::try_from(*word).map_err(|error| error.at(i as u8))?);
        }
        Ok(sheet)
    }

    // Whether an address lies in a range of main's.
    pub fn guards(&self, at: u8) -> bool
        ensures { result ≡ guarded self.now at }
    {
        self.ranges[usize::from(at)]
    }

    // Whether a register is the handler's.
    pub fn handles(&self, register: RegisterName) -> bool
        ensures { result ≡ handled self.now register.number }
    {
        self.handlers[usize::from(register.number())]
    }
}
