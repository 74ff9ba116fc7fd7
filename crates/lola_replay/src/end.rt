//! The end line of a replay.

ghost use Rattle.std.specs.Prelude.{◌≡◌, ◌++◌, OnOk, OnErr, codes};
ghost use Rattle.lola_value.specs.Appending.{AppendsPart};
ghost use Rattle.lola_replay.specs.ReplayEnds.{counted_line, counted_text, finding_text, replay_end_text};

use crate::finding::Finding;
use lola_value::numbers::number_text;
use lola_value::text::{Memory, Text};

/// How a replay ended, once its specification was read and accepted.
#[derive(Clone, Copy)]
pub enum ReplayEnd {
    /// Both texts were read, and this was found of them.
    Found(Finding),
    /// The trace could not be read.
    UnreadableTrace,
    /// The verdicts could not be read.
    UnreadableVerdicts,
}

// Appends words and a number.
fn append_counted(words: &[u8], n: u64, to: &mut Text) -> Result<(), Memory>
    ensures ok { OnOk result (to.new ≡ to.old ++ counted_text words.now n) }
    ensures memory { OnErr result (AppendsPart to.old to.new (counted_text words.now n)) }
{
    to.append(words)?;
    number_text(n, to)
}

// Appends words and a number, which end a line.
fn append_counted_line(words: &[u8], n: u64, to: &mut Text) -> Result<(), Memory>
    ensures ok { OnOk result (to.new ≡ to.old ++ counted_line words.now n) }
    ensures memory { OnErr result (AppendsPart to.old to.new (counted_line words.now n)) }
{
    append_counted(words, n, to)?;
    to.append(b"\n")
}

// Appends the line of a trace and verdicts that are those of one run.
fn append_same(entries: u64, lines: u64, to: &mut Text) -> Result<(), Memory>
    ensures ok { OnOk result (to.new ≡ to.old ++ (counted_text (codes "= same entries ") entries ++ counted_line (codes " lines ") lines)) }
    ensures memory { OnErr result (AppendsPart to.old to.new (counted_text (codes "= same entries ") entries ++ counted_line (codes " lines ") lines)) }
{
    append_counted(b"= same entries ", entries, to)?;
    append_counted_line(b" lines ", lines, to)
}

// Appends the line of what was found.
fn append_finding(finding: Finding, to: &mut Text) -> Result<(), Memory>
    ensures ok { OnOk result (to.new ≡ to.old ++ finding_text finding) }
    ensures memory { OnErr result (AppendsPart to.old to.new (finding_text finding)) }
{
    match finding {
        Finding::Same { entries, lines } => append_same(entries, lines, to),
        Finding::TraceDiffers(line) => append_counted_line(b"= differs trace ", line, to),
        Finding::VerdictsDiffer(line) => append_counted_line(b"= differs verdicts ", line, to),
    }
}

/// Appends the line that tells how a replay ended, with its LF. After `Memory` a front of the line may stand behind what was
/// there.
pub fn replay_end_line(end: ReplayEnd, to: &mut Text) -> Result<(), Memory>
    ensures ok { OnOk result (to.new ≡ to.old ++ replay_end_text end) }
    ensures memory { OnErr result (AppendsPart to.old to.new (replay_end_text end)) }
{
    match end {
        ReplayEnd::Found(finding) => append_finding(finding, to),
        ReplayEnd::UnreadableTrace => to.append(b"= unreadable trace\n"),
        ReplayEnd::UnreadableVerdicts => to.append(b"= unreadable verdicts\n"),
    }
}
