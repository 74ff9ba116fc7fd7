//! Reads that fail in the middle of a source.

use crate::cases::{Case, Source, leaves, readable, worked};
use lola_value::text::Memory;

/// A source of two rows, given in pieces, of which one read fails.
const fn cut(piece: u32, failing_reads: &[u64]) -> Source<'_> {
    Source {
        bytes: "time,a\n0,1\n1,2\n",
        piece,
        failing_reads,
    }
}

/// A read that fails: before a line feed and behind it, at the first read of a second source, in a file beside another one, and behind a
/// row that has a fault. Words, sources, status, output, trace.
#[test]
fn reads_that_fail(rt: HostRuntime) -> Result<(), Memory> {
    let table: [(&[&str], &[Source<'_>], u8, &str, &str); 5] = [
        (
            &["lolamon", "run", "spec", "first"],
            &[cut(1, &[10])],
            6,
            "= unreadable source 0\n",
            "",
        ),
        (
            &["lolamon", "run", "spec", "first"],
            &[cut(1, &[11])],
            6,
            "= unreadable source 0\n",
            "0,1,0.000000000,A,1\n",
        ),
        (
            &["lolamon", "run", "spec", "first", "second"],
            &[cut(64, &[]), cut(8, &[0])],
            6,
            "1.000000000 trigger_1 \"high\"\n= unreadable source 1\n",
            "0,1,0.000000000,A,1\n0,2,1.000000000,A,2\n",
        ),
        (
            &["lolamon", "run", "--in-turns", "spec", "first", "second"],
            &[cut(11, &[1]), readable("time,a\n0,3\n2,4\n")],
            6,
            "0.000000000 trigger_1 \"high\"\n2.000000000 trigger_1 \"high\"\n= unreadable source 0\n",
            "0,1,0.000000000,A,1\n1,1,0.000000000,A,3\n1,2,2.000000000,A,4\n",
        ),
        (
            &["lolamon", "run", "spec", "first", "second"],
            &[
                Source {
                    bytes: "time,a\n0,9223372036854775807\n1,1\n",
                    piece: 29,
                    failing_reads: &[1],
                },
                readable("time,a\n"),
            ],
            5,
            "= fault b 1 Overflow at 0.000000000\n",
            "0,1,0.000000000,A,9223372036854775807\n",
        ),
    ];
    for (texts, sources, status, out, trace) in table {
        let case = Case {
            sources,
            status,
            out,
            trace,
            ..worked()
        };
        assert!(rt; leaves(&rt, rt.alloc(), texts, &case)?);
    }
    Ok(())
}
