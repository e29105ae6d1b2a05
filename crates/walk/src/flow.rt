// How words lead on.

// Where the word at an address leads: to the next address, there or to a target, to a target only, into a call, back to the
// newest return address, or nowhere. Nowhere comes first since it stands for what lies past the last word.
#[derive(Clone, Copy)]
pub enum Flow {
    Nowhere,
    Next,
    Branch(u8),
    Jump(u8),
    Call(u8),
    Return,
}
