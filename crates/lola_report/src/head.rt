//! What stands before the mark in a line of the trace, made in one buffer and appended at once.

ghost use Rattle.std.specs.Prelude.{◌≡◌, ◌+◌, ◌≤◌, [], ◌∷◌, ◌++◌, OnOk, OnErr, decimal, drop, replicate};
ghost use Rattle.lola_value.specs.Times.{time_text};
ghost use Rattle.lola_report.specs.Rows.{head_text};

use itoa::write_digits;
use lola_model::journal::Row;
use lola_value::text::{Memory, Text};
use lola_value::times::SECOND;

// Writes a time and a comma at the end of a buffer of zeros, and answers where they begin.
fn write_time(t: u64, room: &mut [u8; 64]) -> usize
    requires { room.old ≡ replicate 64 48 }
    ensures text { drop result room.new ≡ time_text t ++ 44 ∷ [] }
    ensures within { (42 ≤ result) × (result ≤ 64) }
{
    room[63] = b',';
    let _nanoseconds_from = write_digits(t % SECOND, room, 63);
    room[53] = b'.';
    write_digits(t / SECOND, room, 53)
}

// Writes a number and a comma before what begins at a place, and answers where they begin.
fn write_number(n: u64, room: &mut [u8; 64], before: usize) -> usize
    requires { (21 ≤ before) × (before ≤ 64) }
    ensures text { drop result room.new ≡ decimal n ++ 44 ∷ drop before room.old }
    ensures within { (before ≤ result + 21) × (result ≤ before) }
{
    let comma = before - 1;
    room[comma] = b',';
    write_digits(n, room, comma)
}

/// Appends the source, the number and the time of a row, each with a comma behind it. Where there is no memory the text is
/// as it was.
pub(crate) fn head_text(row: &Row, to: &mut Text) -> Result<(), Memory>
    ensures ok { OnOk result (to.new ≡ to.old ++ head_text row.now) }
    ensures err { OnErr result (to.new ≡ to.old) }
{
    // room for the twenty-one bytes of a time and for two numbers of twenty digits
    let mut room = [b'0'; 64];
    let time = write_time(row.stamp, &mut room);
    let number = write_number(row.number, &mut room, time);
    let source = write_number(row.source as u64, &mut room, number);
    to.append(&room[source..])
}
