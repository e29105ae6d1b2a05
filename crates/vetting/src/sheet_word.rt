// The words of a sheet, one by one.
ghost use Rattle.std.specs.Prelude.{◌≡◌, ◌≤◌, ◌==◌};
ghost use Rattle.vetting.specs.Sheets.{kind};

use refusal::Refusal;

// The addresses from one to another, both included.
#[derive(Clone, Copy)]
pub struct AddressRange {
    pub first: u8,
    pub last: u8,
    ghost in_order: { first ≤ last },
}

// What a word says: a range of main's, registers of the handler's by their bits, or the end of the sheet.
#[derive(Clone, Copy)]
pub enum SheetWord {
    Range(AddressRange),
    Registers(u16),
    End,
}

// Why a word is not one of a sheet's: its form, or a range whose first address lies above its last.
#[derive(Clone, Copy)]
pub enum WordError {
    Form,
    Range,
}

impl WordError {
    ghost use Rattle.vetting.specs.SheetWords.{word_refusal};

    // The refusal of a sheet for its word at an index.
    pub fn at(self, index: u8) -> Refusal
        ensures { result ≡ word_refusal self index }
    {
        match self {
            WordError::Form => Refusal::SheetWord { index },
            WordError::Range => Refusal::SheetRange { index },
        }
    }
}

// Whether a word is an end word, which its kind says, whatever its other bits.
pub fn is_end(word: u32) -> bool
    ensures { result ≡ (kind word == 2) }
{
    word / 0x4000_0000 == 2
}

// Reads a word by its upper half, which is the kind with the bits that must be zero.
impl TryFrom<u32> for SheetWord {
    ghost use Rattle.vetting.specs.SheetWords.{WordRead};

    type Error = WordError;

    ghost try_from_gives = { WordRead };

    fn try_from(word: u32) -> Result<SheetWord, WordError> {
        let [kind, unused, first, last] = word.to_be_bytes();
        let bits = u16::from_be_bytes([first, last]);
        match u16::from_be_bytes([kind, unused]) {
            0x0000 => {
                if first > last {
                    return Err(WordError::Range);
                }
                Ok(SheetWord::Range(AddressRange { first, last }))
            }
            0x4000 => Ok(SheetWord::Registers(bits)),
            0x8000 if bits == 0 => Ok(SheetWord::End),
            _ => Err(WordError::Form),
        }
    }
}
