//! Reads and writes of the system that are made again where a signal came in between.

ghost use Rattle.std.specs.Prelude.{◌≢◌, IfErr, IsTrue, IsFalse};
ghost use Rattle.std.specs.Io.{ReadsAtMost, WritesAtMost};
ghost use Rattle.std.specs.Io.KnownBytes.{Appends, ReadConsumes, WriteAppends};
ghost use Rattle.std.specs.IoError.{error_kind};
ghost use Rattle.lola_port.specs.Bytes.{AppendsPart};

use std::io::{ErrorKind, Read, Write};
use std::time::{Clock, Duration};
use std::{io, thread};

// How long a write waits for room before it is made again, in nanoseconds.
const PAUSE: u64 = 1_000_000;

/// A read, made again where a signal came before any byte did. That a read would block never comes: a source is opened by
/// its path, without `O_NONBLOCK`, and `/dev/stdin` too is then a descriptor of its own, however its pipe was opened before.
pub fn read_some<F: Read>(file: &mut F, buf: &mut [u8]) -> io::Result<usize>
    ensures within { ReadsAtMost result buf.new }
    ensures bytes { ReadConsumes (F.remaining file.old) (F.remaining file.new) result buf.new }
    ensures again { IfErr result (λ error. error_kind error ≢ ErrorKind.Interrupted) }
{
    for _ in 0..u64::MAX {
        match file.read(buf) {
            Err(error) if error.kind() == ErrorKind::Interrupted => {}
            answer => return answer,
        }
    }
    Err(io::Error::from(ErrorKind::TimedOut))
}

/// Whether all bytes were taken. A write that takes nothing is a failure: what is written to has ended.
pub fn put_all<W: Write, C: Clock>(writer: &mut W, clock: &C, bytes: &[u8]) -> bool
    ensures all { IsTrue result → Appends (W.contents writer.old) (W.contents writer.new) bytes.now }
    ensures part { IsFalse result → AppendsPart (W.contents writer.old) (W.contents writer.new) bytes.now }
{
    let mut rest = bytes;
    while !rest.is_empty() {
        match write_some(writer, clock, rest) {
            Ok(0) | Err(_) => return false,
            Ok(count) => rest = &rest[count..],
        }
    }
    true
}

// A write, made again where a signal came before any byte was taken, and after a pause where there is no room and the
// descriptor does not block. At a pause each the tries last longer than any machine.
fn write_some<W: Write, C: Clock>(writer: &mut W, clock: &C, bytes: &[u8]) -> io::Result<usize>
    ensures within { WritesAtMost result bytes.now }
    ensures bytes { WriteAppends (W.contents writer.old) (W.contents writer.new) result bytes.now }
    ensures again { IfErr result (λ error. error_kind error ≢ ErrorKind.Interrupted) }
    ensures waits { IfErr result (λ error. error_kind error ≢ ErrorKind.WouldBlock) }
{
    for _ in 0..u64::MAX {
        match writer.write(bytes) {
            Err(error) if error.kind() == ErrorKind::Interrupted => {}
            Err(error) if error.kind() == ErrorKind::WouldBlock => {
                thread::sleep(clock, Duration::from_nanos(PAUSE));
            }
            answer => return answer,
        }
    }
    Err(io::Error::from(ErrorKind::TimedOut))
}
