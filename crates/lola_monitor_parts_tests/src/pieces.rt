//! Bytes that come in pieces, and reads and writes that are made again.

use lola_port::again::{put_all, read_some};
use lola_port::line::Line;
use std::cell::Cell;
use std::io;
use std::io::{ErrorKind, Read, Write};
use std::time::{Clock, Duration};

#[test]
fn lines_that_are_not_empty_end(rt: HostRuntime) {
    let mut line = Line::Start;
    for (bytes, ended) in [
        (b"\xEF\xBB".as_slice(), None),
        (b"\xBF\r\n\n1,2".as_slice(), None),
        (b"\n3".as_slice(), Some(1)),
        (b"\r\n4\n\n\r".as_slice(), Some(4)),
        (b"\n\r".as_slice(), None),
        (b"\r\n".as_slice(), Some(2)),
    ] {
        assert!(rt; line.goes_on(bytes) == ended);
    }
    let mut no_mark = Line::Start;
    assert!(rt; no_mark.goes_on(b"\xEF\xBB\n") == Some(3));
}

/// A pipe of which each fourth call, from the one numbered 3 on, moves at most three bytes. The first of four is
/// interrupted, and the second and third of a writer would block. The call with the number `last` fails.
#[derive(Drop)]
struct Troubled {
    calls: u32,
    last: u32,
    bytes: Vec<u8>,
}

impl Troubled {
    // What trouble the next call has.
    fn trouble(&mut self) -> Option<ErrorKind> {
        let call = self.calls;
        self.calls = call.saturating_add(1);
        match call % 4 {
            _ if call == self.last => Some(ErrorKind::StorageFull),
            0 => Some(ErrorKind::Interrupted),
            1 | 2 => Some(ErrorKind::WouldBlock),
            _ => None,
        }
    }
}

impl Write for Troubled {
    fn write(&mut self, bytes: &[u8]) -> io::Result<usize> {
        if let Some(trouble) = self.trouble() {
            return Err(io::Error::from(trouble));
        }
        let count = bytes.len().min(3);
        self.bytes.extend_from_slice(&bytes[..count])?;
        Ok(count)
    }

    fn flush(&mut self) -> io::Result<()> {
        Ok(())
    }
}

/// A clock that counts how often a pause of a millisecond is asked for.
#[derive(Drop)]
struct Counted {
    pauses: Cell<u32>,
}

impl Clock for Counted {
    fn monotonic(&self) -> io::Result<Duration> {
        Err(io::Error::from(ErrorKind::Unsupported))
    }

    fn since_1970(&self) -> io::Result<Duration> {
        Err(io::Error::from(ErrorKind::Unsupported))
    }

    fn sleep(&self, duration: Duration) {
        if duration == Duration::from_millis(1) {
            self.pauses.set(self.pauses.get().saturating_add(1));
        }
    }
}

#[test]
fn writes_are_made_again(rt: HostRuntime) {
    let clock = Counted {
        pauses: Cell::new(0),
    };
    let mut pipe = Troubled {
        calls: 0,
        last: 15,
        bytes: Vec::new(rt.alloc()),
    };
    assert!(rt; put_all(&mut pipe, &clock, b"abcdefg"));
    assert!(rt; pipe.bytes.as_slice() == b"abcdefg".as_slice());
    assert!(rt; pipe.calls == 12 && clock.pauses.get() == 6);
    assert!(rt; !put_all(&mut pipe, &clock, b"hij"));
    assert!(rt; pipe.bytes.len() == 7 && pipe.calls == 16 && clock.pauses.get() == 8);
}

/// A source whose first two reads are interrupted, and whose fourth fails.
#[derive(Drop)]
struct Interrupted {
    reads: u32,
}

impl Read for Interrupted {
    fn read(&mut self, buf: &mut [u8]) -> io::Result<usize> {
        let read = self.reads;
        self.reads = read.saturating_add(1);
        match read {
            0 | 1 => Err(io::Error::from(ErrorKind::Interrupted)),
            3 => Err(io::Error::from(ErrorKind::WouldBlock)),
            _ => {
                buf.fill(b'x');
                Ok(buf.len())
            }
        }
    }
}

#[test]
fn reads_are_made_again(rt: HostRuntime) {
    let mut source = Interrupted { reads: 0 };
    let mut buf = [0u8; 3];
    assert!(rt; read_some(&mut source, &mut buf).ok() == Some(3));
    assert!(rt; source.reads == 3 && buf.as_slice() == b"xxx".as_slice());
    assert!(rt; read_some(&mut source, &mut buf).is_err());
    assert!(rt; source.reads == 4);
}
