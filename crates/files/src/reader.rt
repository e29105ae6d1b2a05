// The words of a text.
ghost use Rattle.files.specs.Texts.{line_tokens, tokens};
ghost use Rattle.files.specs.Reading.{Adds, IsRead, Reads};
ghost use Rattle.files.specs.Views.{token_of};

use crate::fault::Fault;
use crate::shown::Shown;
use crate::tokens::{Token, ends_line, is_blank, is_filled, without_comment};
use crate::word::Word;
use std::alloc::Global;

impl Token<'_> {
    // The word, or what is wrong with the token.
    fn word<W: Word>(&self, heap: Global) -> Result<W, Fault>
        ensures { IsRead W.Word.value W.Word.DIGITS (token_of self.now) result }
    {
        let Some(word) = W::read(self.bytes) else {
            return Err(Fault::Malformed {
                line: self.line,
                digits: W::DIGITS,
                found: Shown(self.bytes).to_string(heap)?,
            });
        };
        Ok(word)
    }
}

// Adds the words of the line with this number; a line with no byte has none. The tests are function pointers, since a loop
// over an iterator that holds a closure can have no invariant in a generic function.
fn add_line<W: Word>(
    heap: Global,
    words: &mut Vec<W>,
    line: usize,
    text: &[u8],
) -> Result<(), Fault>
    ensures { Adds W.Word.value W.Word.DIGITS (line_tokens line text.now) words.old.items result words.new.items }
{
    if text.is_empty() {
        return Ok(());
    }
    let blank: fn(&u8) -> bool = is_blank;
    let filled: fn(&&[u8]) -> bool = is_filled;
    for bytes in without_comment(text).split(blank).filter(filled) {
        words.push(Token { line, bytes }.word(heap)?)?;
    }
    Ok(())
}

// The words of all tokens of a text.
pub fn read<W: Word>(heap: Global, text: &[u8]) -> Result<Vec<W>, Fault>
    ensures { Reads W.Word.value W.Word.DIGITS (tokens text.now) result }
{
    let mut words = Vec::new(heap);
    let ends: fn(&u8) -> bool = ends_line;
    for (index, line) in text.split(ends).enumerate() {
        add_line(heap, &mut words, index + 1, line)?;
    }
    Ok(words)
}
