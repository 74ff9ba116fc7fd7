//! Classes of bytes, and runs of them.

ghost use Rattle.std.specs.Prelude.{◌≡◌, ◌≢◌, ◌<◌, ◌≤◌, ◌+◌, length, slice_index, true};
ghost use Rattle.std.specs.Char.{is_ascii_digit};
ghost use Rattle.lola_lexer.specs.Lexical as lexical;
ghost use Rattle.lola_lexer.specs.Spelling as spelled;

/// The bytes that a run has.
#[derive(Clone, Copy)]
pub enum Class {
    /// Letters, digits and `_`, ASCII all of them.
    Name,
    /// Decimal digits.
    Digit,
    /// All bytes but the end of a line.
    Line,
}

pub(crate) fn is_blank(b: u8) -> bool
    ensures { result ≡ spelled.is_blank b }
{
    matches!(b, b' ' | b'\t' | b'\n' | b'\r')
}

pub(crate) fn begins_name(b: u8) -> bool
    ensures { result ≡ spelled.begins_name b }
{
    b.is_ascii_alphabetic() || b == b'_'
}

pub(crate) fn is_digit(b: u8) -> bool
    ensures { result ≡ is_ascii_digit b }
{
    b.is_ascii_digit()
}

/// The byte at a place, and 0 behind the last one.
pub(crate) fn byte_at(bytes: &[u8], at: usize) -> u8
    ensures value { result ≡ slice_index bytes.now at }
    ensures within { result ≢ 0 → at < length bytes.now }
{
    if at < bytes.len() { bytes[at] } else { 0 }
}

impl Class {
    fn has(self, b: u8) -> bool
        ensures { result ≡ lexical.in_class self b }
    {
        match self {
            Class::Name => b.is_ascii_alphanumeric() || b == b'_',
            Class::Digit => is_digit(b),
            Class::Line => b != b'\n',
        }
    }

    /// How many bytes from the place on are of the class.
    pub(crate) fn run(self, bytes: &[u8], at: usize) -> usize
        requires { at ≤ length bytes.now }
        ensures value { result ≡ lexical.run (lexical.in_class self) at bytes.now }
        ensures within { at + result ≤ length bytes.now }
        ensures moves { at < length bytes.now → lexical.in_class self (slice_index bytes.now at) ≡ true → 0 < result }
    {
        let mut len = 0;
        while len < bytes.len() - at && self.has(bytes[at + len]) {
            len += 1;
        }
        len
    }
}
