// What parts a text into its tokens.
ghost use Rattle.std.specs.Prelude.{◌≡◌};
ghost use Rattle.files.specs.Texts.{ends_line, is_blank, is_filled, uncommented};

// A row of bytes that is to be a word, and the number of its line.
#[derive(Clone, Copy)]
pub struct Token<'a> {
    pub line: usize,
    pub bytes: &'a [u8],
}

// Whether a line ends with this byte.
pub fn ends_line(byte: &u8) -> bool
    ensures { result ≡ ends_line byte.now }
{
    *byte == b'\n'
}

// Whether a byte parts the tokens of a line.
pub fn is_blank(byte: &u8) -> bool
    ensures { result ≡ is_blank byte.now }
{
    matches!(byte, b' ' | b'\t' | b'\r')
}

// Whether a piece of a line has a byte, and so is a token.
pub fn is_filled(piece: &&[u8]) -> bool
    ensures { result ≡ is_filled piece.now.now }
{
    !piece.is_empty()
}

// A line without its comment.
pub fn without_comment(line: &[u8]) -> &[u8]
    ensures { result.now ≡ uncommented line.now }
{
    let end = line
        .windows(2)
        .position(|pair| matches!(pair, b"//"))
        .unwrap_or(line.len());
    &line[..end]
}
