//! A made-up source.

ghost use Rattle.std.specs.Prelude.{◌≡◌, ◌⊎◌, ◌+◌, ◌*◌, ◌<◌, ◌≤◌, ◌^◌, ◌++◌, [], Some, length, min, take, IfOk};
ghost use Rattle.std.specs.List.{concat};
ghost use Rattle.lola_feed.specs.Drills.{Drilling, IsRefilled, drill_bytes, drill_state};

use crate::rows::{Line, Rows, heading};
use lola_port::{ReadFailed, Source};
use std::marker::Model;

/// A source of made-up rows, which reads from no file, never fails, and takes no memory: it keeps one row at a time.
#[derive(Drop)]
pub struct Drill {
    line: Line,
    at: usize,
    rows: Rows,
}

impl Model for Drill {
    ghost use Rattle.std.specs.Prelude.{◌*◌, ◌≤◌, drop, length};
    ghost use Rattle.lola_feed.specs.Drills.{Drilling, rows_from};

    ghost Value = { Drilling };

    ghost view = { λ d. record {
      waiting = drop d.at d.line.bytes;
      behind = rows_from d.rows.source d.rows.number d.rows.time d.rows.left;
      most = 128 * d.rows.left;
    } };

    ghost invariant = { λ d. d.at ≤ length d.line.bytes };
}

impl Drill {
    /// Source 0 or 1 of the drill with a number, from which all draws come: a heading, and so many rows.
    pub fn create(number: u64, source: u32, rows: u32) -> Drill
        requires source { source < 2 }
        requires number { number < 2147483647 }
        ensures left { (drill_state result).left ≡ Some (drill_bytes number source rows) }
        ensures bound { (drill_state result).to_come ≤ 2 ^ 62 }
    {
        Drill {
            line: heading(source),
            at: 0,
            rows: Rows {
                source,
                number: number + source as u64,
                time: 0,
                left: rows,
            },
        }
    }

    // Where nothing is left of the line, makes the next, if there is one.
    fn refill(&mut self)
        ensures { IsRefilled self.old self.new }
    {
        if self.at < self.line.len() || self.rows.left == 0 {
            return;
        }
        self.line = self.rows.next_row();
        self.at = 0;
    }
}

impl Source for Drill {
    ghost state = { drill_state };

    fn read(&mut self, buf: &mut [u8]) -> Result<usize, ReadFailed> {
        self.refill();
        let count = moved(&self.line.as_str().as_bytes()[self.at..], buf);
        self.at += count;
        Ok(count)
    }
}

// Moves as many bytes into the front of a buffer as there are and it has room for.
fn moved(from: &[u8], buf: &mut [u8]) -> usize
    ensures count { result ≡ min (length buf.new) (length from.now) }
    ensures moved { take result buf.new ≡ take result from.now }
{
    let count = buf.len().min(from.len());
    buf[..count].copy_from_slice(&from[..count]);
    count
}
