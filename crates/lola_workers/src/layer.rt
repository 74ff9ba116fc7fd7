//! The tasks of a layer.

ghost use Rattle.std.specs.Prelude.{◌≡◌, ℕ, ◌+◌, ◌<◌, ◌≤◌, ◌^◌, length, slice_get, IsSomeAnd, Some};
ghost use Rattle.std.specs.Thread.{IsSync};
ghost use Rattle.lola_workers.specs.Shares.{AreFrom, AreShares, IsShare};

use crate::share::{Share, find_outcomes, outcome_of};
use lola_model::job::Job;
use lola_port::Gate;
use lola_value::brief::Brief;
use std::sync::atomic::{AtomicU64, Ordering};
use std::thread::{Threads, join_mut};

// Into how many pieces a layer is cut for each of its workers, so that one whose thread starts late leaves its part to the others.
const PIECES_EACH: usize = 8;

// How many tasks a piece has, but for the last, which may have less.
fn piece_size(tasks: usize, workers: usize) -> usize
    requires tasks { tasks < 2 ^ 32 }
    requires workers { 1 ≤ workers × workers ≤ 64 }
    ensures { 1 ≤ result }
{
    tasks.div_ceil(workers * PIECES_EACH).max(1)
}

// How many tasks stand from one on, of a piece at most.
fn count_from(tasks: usize, size: usize, start: usize) -> usize
    requires within { start < tasks }
    requires size { 1 ≤ size }
    ensures some { 1 ≤ result }
    ensures within { start + result ≤ tasks }
{
    size.min(tasks - start)
}

// Takes one piece after another that nobody has taken, and does its tasks, until none is left or memory runs out.
fn take_pieces<J: Job, G: Gate>(
    gate: &G,
    job: &J,
    next: &AtomicU64,
    tasks: usize,
    size: usize,
    share: &mut Share,
)
    requires tasks { tasks ≡ J.tasks job.now }
    requires numbered { J.tasks job.now < 2 ^ 32 }
    requires size { 1 ≤ size }
    ensures { IsShare (J.gives job.now) share.new }
{
    share.clear();
    for _ in 0..tasks {
        let start = next.fetch_add(size as u64, Ordering::SeqCst) as usize;
        if start >= tasks {
            return;
        }
        if share
            .take(gate, job, start, count_from(tasks, size, start))
            .is_err()
        {
            return;
        }
    }
}

// Does pieces for the one share that is left, if there is one.
fn take_last<J: Job, G: Gate>(
    gate: &G,
    job: &J,
    next: &AtomicU64,
    tasks: usize,
    size: usize,
    shares: &mut [Share],
)
    requires one { length shares.old ≤ 1 }
    requires tasks { tasks ≡ J.tasks job.now }
    requires numbered { J.tasks job.now < 2 ^ 32 }
    requires size { 1 ≤ size }
    ensures count { length shares.new ≡ length shares.old }
    ensures shares { AreShares (J.gives job.now) shares.new }
{
    if shares.len() == 1 {
        take_pieces(gate, job, next, tasks, size, &mut shares[0]);
    }
}

// Does pieces for each of these shares: for the last one the caller does, and before that it starts a thread for each other one. So no
// thread is waited for by one that another waits for.
fn share_among<R: Threads + Sync, J: Job + Sync, G: Gate + Sync>(
    rt: &R,
    gate: &G,
    job: &J,
    next: &AtomicU64,
    tasks: usize,
    size: usize,
    shares: &mut [Share],
)
    requires tasks { tasks ≡ J.tasks job.now }
    requires numbered { J.tasks job.now < 2 ^ 32 }
    requires size { 1 ≤ size }
    ensures count { length shares.new ≡ length shares.old }
    ensures shares { AreShares (J.gives job.now) shares.new }
{
    if shares.len() < 2 {
        take_last(gate, job, next, tasks, size, shares);
        return;
    }
    let (first, others) = shares.split_at_mut(1);
    join_mut(
        rt,
        &mut ||
            requires { (length first.now ≤ 1) × (tasks ≡ J.tasks job.now) × (J.tasks job.now < 2 ^ 32) × (1 ≤ size) }
            ensures { (length first.exit.now ≡ length first.entry.now) × AreShares (J.gives job.entry.now) first.exit.now }
        { take_last(gate, job, next, tasks, size, first) },
        &mut ||
            requires { IsSync R.row × IsSync J.row × IsSync G.row × (tasks ≡ J.tasks job.now) × (J.tasks job.now < 2 ^ 32) × (1 ≤ size) }
            ensures { (length others.exit.now ≡ length others.entry.now) × AreShares (J.gives job.entry.now) others.exit.now }
        { share_among(rt, gate, job, next, tasks, size, others) },
    );
}

// Shares the tasks out: each of these shares is one worker's.
fn share_out<R: Threads + Sync, J: Job + Sync, G: Gate + Sync>(
    rt: &R,
    gate: &G,
    job: &J,
    tasks: usize,
    size: usize,
    shares: &mut [Share],
)
    requires tasks { tasks ≡ J.tasks job.now }
    requires numbered { J.tasks job.now < 2 ^ 32 }
    requires size { 1 ≤ size }
    ensures count { length shares.new ≡ length shares.old }
    ensures shares { AreShares (J.gives job.now) shares.new }
{
    let next = AtomicU64::new(0);
    share_among(rt, gate, job, &next, tasks, size, shares);
}

// Writes these outcomes from a place on, as far as there are places.
fn write_from(results: &mut [Brief], start: usize, outcomes: &[Brief]) -> usize
    requires within { start < length results.old }
    requires some { 1 ≤ length outcomes.now }
    ensures some { 1 ≤ result }
    ensures within { start + result ≤ length results.old }
    ensures length { length results.new ≡ length results.old }
    ensures before { (i : ℕ) → i < start → slice_get results.new i ≡ slice_get results.old i }
    ensures written { (i : ℕ) → i < result → slice_get results.new (start + i) ≡ slice_get outcomes.now i }
    ensures few { result ≤ length outcomes.now }
{
    let count = outcomes.len().min(results.len() - start);
    for i in 0..count {
        results[start + i] = outcomes[i];
    }
    count
}

// Does so many tasks from one on where their outcomes are to stand.
fn do_from<J: Job, G: Gate>(gate: &G, job: &J, results: &mut [Brief], start: usize, count: usize)
    requires tasks { length results.old ≡ J.tasks job.now }
    requires numbered { J.tasks job.now < 2 ^ 32 }
    requires within { start + count ≤ length results.old }
    ensures length { length results.new ≡ length results.old }
    ensures before { (i : ℕ) → i < start → slice_get results.new i ≡ slice_get results.old i }
    ensures done { (i : ℕ) → i < count → IsSomeAnd (slice_get results.new (start + i)) (J.gives job.now (start + i)) }
{
    for i in 0..count {
        results[start + i] = outcome_of(gate, job, start + i);
    }
}

// Gives some tasks from one on their outcomes: those that a share has of these, or else by doing a piece of them. Answers how many.
fn settle<J: Job, G: Gate>(
    gate: &G,
    job: &J,
    shares: &[Share],
    size: usize,
    results: &mut [Brief],
    start: usize,
) -> usize
    requires tasks { length results.old ≡ J.tasks job.now }
    requires numbered { J.tasks job.now < 2 ^ 32 }
    requires size { 1 ≤ size }
    requires shares { AreShares (J.gives job.now) shares.now }
    requires within { start < length results.old }
    ensures some { 1 ≤ result }
    ensures within { start + result ≤ length results.old }
    ensures length { length results.new ≡ length results.old }
    ensures before { (i : ℕ) → i < start → slice_get results.new i ≡ slice_get results.old i }
    ensures done { (i : ℕ) → i < result → IsSomeAnd (slice_get results.new (start + i)) (J.gives job.now (start + i)) }
{
    match find_outcomes(job, shares, start) {
        Some(outcomes) => write_from(results, start, outcomes),
        None => {
            let count = count_from(results.len(), size, start);
            do_from(gate, job, results, start, count);
            count
        }
    }
}

/// Does each task of a job, and leaves the outcome of task `i` in `results[i]`. The tasks are cut into pieces of one length, the last of which
/// may be shorter, and each share is one worker's, who takes one piece after another: a thread of its own, or the caller where no thread can be
/// started. What they leave, for want of memory, the caller does. There are no more workers than tasks, so one share, and a layer of one task,
/// take no thread. All threads are joined. Of each task the gate hears before it is done.
pub fn run_layer<R: Threads + Sync, J: Job + Sync, G: Gate + Sync>(
    rt: &R,
    gate: &G,
    job: &J,
    shares: &mut [Share],
    results: &mut [Brief],
)
    requires workers { length shares.old ≤ 64 }
    requires tasks { length results.old ≡ J.tasks job.now }
    requires numbered { J.tasks job.now < 2 ^ 32 }
    ensures { (task : ℕ) → task < J.tasks job.now → IsSomeAnd (slice_get results.new task) (J.gives job.now task) }
{
    let workers = shares.len().min(results.len());
    share_and_settle(rt, gate, job, &mut shares[..workers], results);
}

// The same, where there are no more shares than tasks.
fn share_and_settle<R: Threads + Sync, J: Job + Sync, G: Gate + Sync>(
    rt: &R,
    gate: &G,
    job: &J,
    shares: &mut [Share],
    results: &mut [Brief],
)
    requires workers { length shares.old ≤ 64 }
    requires tasks { length results.old ≡ J.tasks job.now }
    requires numbered { J.tasks job.now < 2 ^ 32 }
    ensures { (task : ℕ) → task < J.tasks job.now → IsSomeAnd (slice_get results.new task) (J.gives job.now task) }
{
    let size = piece_size(results.len(), shares.len().max(1));
    share_out(rt, gate, job, results.len(), size, shares);
    let mut start = 0;
    while start < results.len() {
        start += settle(gate, job, shares, size, results, start);
    }
}
