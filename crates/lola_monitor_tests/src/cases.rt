//! Runs over objects in memory, and what they leave.
ghost use Rattle.std.specs.Prelude.{◌≡◌, ◌≤◌, ◌^◌, IfOk, IsTrue, MatchOption, length};

use lola_monitor::run_monitor;
use lola_port::{Gate, IdleGate, MemoryShelf, MemorySink};
use lola_text::keys::fixed_keys;
use lola_value::text::Memory;
use std::alloc::Global;
use std::sync::Wait;
use std::thread::Threads;

/// A source: its bytes, how many of them a read gives, and which of its reads fail.
#[derive(Clone, Copy)]
pub struct Source<'a> {
    pub bytes: &'a str,
    pub piece: u32,
    pub failing_reads: &'a [u64],
}

/// A specification, at most two sources, and what a run of them leaves.
#[derive(Clone, Copy)]
pub struct Case<'a> {
    pub specification: &'a str,
    pub sources: &'a [Source<'a>],
    pub status: u8,
    pub out: &'a str,
    pub trace: &'a str,
}

/// What the sources of a run hand their rows in at, as the command says it.
pub const INTAKES: [&str; 2] = ["--intake=lock", "--intake=queue"];

/// The most bytes that a case's texts have.
const MOST: usize = 10_000;

/// A source whose reads succeed.
pub const fn readable(bytes: &str) -> Source<'_> {
    Source {
        bytes,
        piece: 64,
        failing_reads: &[],
    }
}

/// Whether a source has a form that a shelf takes.
fn fits(source: &Source<'_>) -> bool
    ensures { IsTrue result → (1 ≤ source.now.piece) × (length source.now.bytes.now ≤ 2 ^ 62) }
{
    source.piece > 0 && source.bytes.len() <= MOST
}

/// The source of this number, or one that is not asked for.
fn source_at<'a>(case: &Case<'a>, number: usize) -> Source<'a> {
    match case.sources.get(number) {
        Some(source) => *source,
        None => readable(""),
    }
}

/// The words of a call, with this option behind the command's.
fn words(alloc: Global, texts: &[&str], option: &str) -> Result<Vec<String>, Memory> {
    let mut words = Vec::new(alloc);
    for (place, text) in texts.iter().enumerate() {
        if place == 2 {
            words.push(String::from_str(alloc, option)?)?;
        }
        words.push(String::from_str(alloc, text)?)?;
    }
    Ok(words)
}

/// A shelf with the specification and the sources of a case; none where one of them has no form that a shelf takes.
fn shelf_of(alloc: Global, case: &Case<'_>) -> Result<Option<MemoryShelf>, Memory>
    ensures { IfOk result (λ made. MatchOption made (Unit {0}) (λ shelf. shelf.out ≡ 0)) }
{
    let specification = readable(case.specification);
    let first = source_at(case, 0);
    let second = source_at(case, 1);
    if !fits(&specification) || !fits(&first) || !fits(&second) {
        return Ok(None);
    }
    let mut shelf = MemoryShelf::create(alloc);
    shelf.add("spec", specification.bytes.as_bytes(), 512, &[])?;
    shelf.add(
        "first",
        first.bytes.as_bytes(),
        first.piece,
        first.failing_reads,
    )?;
    shelf.add(
        "second",
        second.bytes.as_bytes(),
        second.piece,
        second.failing_reads,
    )?;
    Ok(Some(shelf))
}

/// What a run leaves.
#[derive(Drop)]
pub struct Left {
    pub status: u8,
    pub out: MemorySink,
    pub trace: MemorySink,
}

/// Runs a command with this option over the objects of a case; none where they have no form that a shelf takes.
pub fn run<R: Threads + Wait + Sync, G: Gate + Sync>(
    rt: &R,
    alloc: Global,
    texts: &[&str],
    option: &str,
    case: &Case<'_>,
    gate: &G,
) -> Result<Option<Left>, Memory> {
    let Some(mut shelf) = shelf_of(alloc, case)? else {
        return Ok(None);
    };
    let mut out = MemorySink::create(alloc, &[])?;
    let mut trace = MemorySink::create(alloc, &[])?;
    let words = words(alloc, texts, option)?;
    let status = run_monitor(
        rt,
        alloc,
        fixed_keys()?,
        &words,
        &mut shelf,
        &mut out,
        &mut trace,
        gate,
    );
    Ok(Some(Left { status, out, trace }))
}

/// Whether a call with this option leaves what the case says.
fn leaves_with<R: Threads + Wait + Sync>(
    rt: &R,
    alloc: Global,
    texts: &[&str],
    option: &str,
    case: &Case<'_>,
) -> Result<bool, Memory> {
    let Some(left) = run(rt, alloc, texts, option, case, &IdleGate)? else {
        return Ok(false);
    };
    Ok(
        left.status == case.status
            && left.out.written() == case.out.as_bytes()
            && left.trace.written() == case.trace.as_bytes(),
    )
}

/// Whether a run leaves what the case says, whatever its sources hand their rows in at.
pub fn leaves<R: Threads + Wait + Sync>(
    rt: &R,
    alloc: Global,
    texts: &[&str],
    case: &Case<'_>,
) -> Result<bool, Memory> {
    for intake in INTAKES {
        if !leaves_with(rt, alloc, texts, intake, case)? {
            return Ok(false);
        }
    }
    Ok(true)
}

/// The worked run, to be changed in one part.
pub fn worked() -> Case<'static> {
    Case {
        specification: "input a: Int64\noutput b: Int64 := a + 1\ntrigger b > 2 \"high\"",
        sources: &[],
        status: 0,
        out: "1.000000000 trigger_1 \"high\"\n= done accepted 2 late 0 steps 2 lines 1\n",
        trace: "0,1,0.000000000,A,1\n0,2,1.000000000,A,2\n",
    }
}
