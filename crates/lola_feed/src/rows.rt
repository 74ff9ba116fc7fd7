//! The rows of a made-up source, one after another.

ghost use Rattle.std.specs.Prelude.{◌≡◌, ◌+◌, ◌-◌, ◌*◌, ◌<◌, ◌≤◌, ◌^◌, ◌∷◌, ◌++◌, pos, ◌-ℤ◌, length, decimal};
ghost use Rattle.std.specs.Fmt.{signed_decimal};
ghost use Rattle.arrayvec.specs.ArrayVec.{array_vec_len};
ghost use Rattle.arrayvec.specs.ArrayString.{array_string_len};
ghost use Rattle.lola_feed.specs.Drills.{device_row, draw, heading, number_after, plain_row, row_of, rows_from, seconds, stepped};

use arrayvec::ArrayString;
use itoa::Buffer;

/// A line of a source, with its line feed.
pub(crate) type Line = ArrayString<128>;

/// The rows to come of source 0 or 1: the number that was drawn from last, the time of the row before them in ms, and how
/// many they are.
#[derive(Drop)]
pub(crate) struct Rows {
    pub source: u32,
    pub number: u64,
    pub time: u64,
    pub left: u32,
    ghost in_range: { number < 2 ^ 31 },
    ghost in_time: { time + 200 * left ≤ 2 ^ 40 },
}

impl Rows {
    /// The next row, of which there is one.
    pub fn next_row(&mut self) -> Line
        requires { 0 < self.old.left }
        ensures row { rows_from self.old.source self.old.number self.old.time self.old.left
            ≡ result.bytes ∷ rows_from self.new.source self.new.number self.new.time self.new.left }
        ensures left { self.new.left + 1 ≡ self.old.left }
        ensures within { (0 < array_string_len result) × (array_string_len result ≤ 128) }
    {
        let number = step(self.number);
        let time = self.time + draw(number, 200);
        let (row, last) = row_at(self.source, time, number);
        *self = Rows {
            source: self.source,
            number: last,
            time,
            left: self.left - 1,
        };
        row
    }
}

/// The names of the columns of a source.
pub(crate) fn heading(source: u32) -> Line
    ensures { result.bytes ≡ heading source }
{
    let mut line = Line::new();
    if source == 0 {
        line.push_str("time,dev,v\n");
    } else {
        line.push_str("time,w\n");
    }
    line
}

// The number after a number.
fn step(x: u64) -> u64
    requires { x < 2 ^ 31 }
    ensures is { result ≡ stepped x }
    ensures below { result < 2 ^ 31 }
{
    (1_103_515_245 * x + 12_345) % (1 << 31)
}

// What is drawn below a bound where the numbers have come so far.
fn draw(x: u64, below: u64) -> u64
    requires { 0 < below }
    ensures is { result ≡ draw below x }
    ensures below { result < below }
{
    x / 65_536 % below
}

// The row of a source at a time in ms, where the numbers have come so far, and how far they come by it.
fn row_at(source: u32, time: u64, number: u64) -> (Line, u64)
    requires { number < 2 ^ 31 }
    ensures row { result.0.bytes ≡ row_of source time number }
    ensures number { result.1 ≡ number_after source number }
    ensures in_range { result.1 < 2 ^ 31 }
    ensures within { (0 < array_string_len result.0) × (array_string_len result.0 ≤ 128) }
{
    let next = step(number);
    if source == 0 {
        let last = step(next);
        (device_row(time, next, last), last)
    } else {
        (plain_row(time, next), next)
    }
}

// A row of source 0.
fn device_row(time: u64, first: u64, second: u64) -> Line
    ensures row { result.bytes ≡ device_row time first second }
    ensures within { (0 < array_string_len result) × (array_string_len result ≤ 128) }
{
    let mut line = time_of(time);
    line.push_str(",d");
    push_number(&mut line, draw(first, 8));
    line.push_str(",");
    push_value(&mut line, draw(second, 1001) as i64 - 500);
    line.push_str("\n");
    line
}

// A row of source 1.
fn plain_row(time: u64, number: u64) -> Line
    ensures row { result.bytes ≡ plain_row time number }
    ensures within { (0 < array_string_len result) × (array_string_len result ≤ 128) }
{
    let mut line = time_of(time);
    line.push_str(",");
    push_number(&mut line, draw(number, 101));
    line.push_str("\n");
    line
}

// A line that has a time in ms, in seconds.
fn time_of(time: u64) -> Line
    ensures bytes { result.bytes ≡ seconds time }
    ensures within { array_string_len result ≤ 81 }
{
    let mut line = Line::new();
    push_number(&mut line, time / 1000);
    line.push_str(".");
    push_number(&mut line, time / 100 % 10);
    push_number(&mut line, time / 10 % 10);
    push_number(&mut line, time % 10);
    line
}

// Appends a number in decimal.
fn push_number(line: &mut Line, number: u64)
    requires { array_string_len line.old + 20 ≤ 128 }
    ensures bytes { line.new.bytes ≡ line.old.bytes ++ decimal number }
    ensures within { array_string_len line.new ≤ array_string_len line.old + 20 }
{
    let mut buffer = Buffer::new();
    line.push_str(buffer.format(number));
}

// Appends a number in decimal, with `-` before a negative one.
fn push_value(line: &mut Line, value: i64)
    requires { array_string_len line.old + 20 ≤ 128 }
    ensures bytes { line.new.bytes ≡ line.old.bytes ++ signed_decimal value }
    ensures within { array_string_len line.new ≤ array_string_len line.old + 20 }
{
    let mut buffer = Buffer::new();
    line.push_str(buffer.format(value));
}
