//! The lines of a run are compared with those of a text, one after another.

ghost use Rattle.std.specs.Prelude.{◌≡◌, ◌≤◌, ◌<◌, ◌+◌, ◌^◌, length};
ghost use Rattle.lola_value.specs.Arithmetic.{bytes_equal};
ghost use Rattle.lola_replay.specs.Comparing.{after_line, comparison, compared_if, is_first_line, line_long, uncompared};

/// How far a comparison is.
#[derive(Clone, Copy)]
pub struct Compared<'a> {
    /// What is left of the text.
    pub rest: &'a [u8],
    /// How many lines were the same.
    pub lines: u64,
    /// The number of the first other line, from 1, if there was one.
    pub other: Option<u64>,
}

/// Before the first line.
pub fn uncompared(text: &[u8]) -> Compared<'_>
    ensures { comparison result ≡ uncompared text.now }
{
    Compared {
        rest: text,
        lines: 0,
        other: None,
    }
}

/// How long the first line is, with its LF if it has one.
pub fn line_length(text: &[u8]) -> usize
    ensures value { result ≡ line_long text.now }
    ensures within { result ≤ length text.now }
{
    let mut long = 0;
    for byte in text {
        long += 1;
        if *byte == b'\n' {
            return long;
        }
    }
    long
}

// Whether two texts are the same.
fn are_same(a: &[u8], b: &[u8]) -> bool
    ensures { result ≡ bytes_equal a.now b.now }
{
    a == b
}

// Whether a line is the first of what is left, which is so long.
fn is_first_line(line: &[u8], rest: &[u8], long: usize) -> bool
    requires first { long ≡ line_long rest.now }
    requires within { long ≤ length rest.now }
    ensures { result ≡ is_first_line line.now rest.now }
{
    !rest.is_empty() && are_same(&rest[..long], line)
}

// After one more line, where all were the same so far.
fn after_first<'a>(compared: Compared<'a>, line: &[u8]) -> Compared<'a>
    requires { compared.lines + length compared.rest.now < 2 ^ 63 }
    ensures value { comparison result ≡ compared_if (is_first_line line.now compared.entry.rest.now) (comparison compared.entry) }
    ensures room { result.lines + length result.rest.now ≤ compared.entry.lines + length compared.entry.rest.now }
{
    let rest = compared.rest;
    let long = line_length(rest);
    if is_first_line(line, rest, long) {
        Compared {
            rest: &rest[long..],
            lines: compared.lines + 1,
            other: None,
        }
    } else {
        Compared {
            rest,
            lines: compared.lines,
            other: Some(compared.lines + 1),
        }
    }
}

/// After one more line.
pub fn compare<'a>(compared: Compared<'a>, line: &[u8]) -> Compared<'a>
    requires { compared.lines + length compared.rest.now < 2 ^ 63 }
    ensures value { comparison result ≡ after_line (comparison compared.entry) line.now }
    ensures room { result.lines + length result.rest.now ≤ compared.entry.lines + length compared.entry.rest.now }
{
    match compared.other {
        Some(_) => compared,
        None => after_first(compared, line),
    }
}
