//! Sources, fetched and given back.

ghost use Rattle.std.specs.Prelude.{◌≡◌, ◌+◌, ◌<◌, ◌≤◌, ℕ, List, [], Some, length, map, string_bytes, IfOk, OnOk, IsErrOf};
ghost use Rattle.std.specs.Vec.{vec_capacity};
ghost use Rattle.lola_port.specs.States.{FetchBroke, ShelfState, lent};
ghost use Rattle.lola_rows.specs.Reading.{Shape};
ghost use Rattle.lola_feed.specs.Feeding.{Working};
ghost use Rattle.lola_feed.specs.Fetching.{HasFetched};
ghost use Rattle.lola_feed.specs.Lending.{AreGiven, AreInPlace, Fetches, HasReturned, IsLent, IsLentTo, all_back, counts_of, names_at, places_of, sources_of};

use crate::worker::SourceWorker;
use lola_port::{FetchEnd, Shelf};
use lola_rows::EmptyReader;
use lola_value::words::word_at;

/// Why not all sources were fetched.
#[derive(Clone, Copy)]
pub enum FetchStop {
    /// The source of this number was not given.
    Failed(u32),
    /// There is no memory.
    Memory,
}

/// Fetches the sources that these words name, in order, and joins each with its room. Where one is not given, those before it
/// are given back.
pub fn fetch_all<F: Shelf>(
    shelf: &mut F,
    words: &[String],
    names: &[usize],
    rooms: Vec<EmptyReader>,
    workers: &mut Vec<SourceWorker<F::File>>,
) -> Result<(), FetchStop>
    requires none { workers.old.items ≡ [] }
    requires room { length names.now ≤ vec_capacity workers.old }
    requires many { length rooms.items ≡ length names.now }
    requires few { length names.now ≤ 64 }
    requires out { (F.state shelf.old).out + length names.now < 65536 }
    ensures { Fetches result (names_at (map string_bytes words.now) names.now) rooms.items (F.state shelf.old) (F.state shelf.new) workers.new.items }
{
    let mut rooms = rooms;
    match fetch_each(shelf, words, names, &mut rooms, workers) {
        Ok(()) => Ok(()),
        Err(stop) => {
            return_all(shelf, workers);
            Err(stop)
        }
    }
}

/// Gives the sources of all workers back, in order.
pub fn give_all_back<F: Shelf>(shelf: &mut F, workers: Vec<SourceWorker<F::File>>)
    requires given { AreGiven (F.state shelf.old).asks (places_of workers.items) }
    requires out { length workers.items ≤ (F.state shelf.old).out }
    ensures back { F.state shelf.new ≡ all_back (F.state shelf.old) (sources_of workers.items) }
    ensures returned { (names : List (List ℕ)) (rooms : List Shape) (before : ShelfState) (lent : List Working)
        → IsLent names rooms before (F.state shelf.old) lent → AreInPlace lent workers.items
        → HasReturned names (counts_of workers.items) before (F.state shelf.new) }
{
    let mut workers = workers;
    return_all(shelf, &mut workers);
}

// Fetches the sources in order, each for the room of its number, up to the first that is not given.
fn fetch_each<F: Shelf>(
    shelf: &mut F,
    words: &[String],
    names: &[usize],
    rooms: &mut Vec<EmptyReader>,
    workers: &mut Vec<SourceWorker<F::File>>,
) -> Result<(), FetchStop>
    requires none { workers.old.items ≡ [] }
    requires room { length names.now ≤ vec_capacity workers.old }
    requires many { length rooms.old.items ≡ length names.now }
    requires few { length names.now ≤ 64 }
    requires out { (F.state shelf.old).out + length names.now < 65536 }
    ensures { HasFetched result (names_at (map string_bytes words.now) names.now) rooms.old.items (F.state shelf.old) (F.state shelf.new) workers.new.items }
{
    for (at, number) in names.iter().enumerate() {
        let room = rooms.remove(0);
        match fetch_one(shelf, word_at(words, *number), room) {
            Ok(worker) => workers.push_reserved(worker),
            Err(FetchEnd::Failed) => return Err(FetchStop::Failed(at as u32)),
            Err(FetchEnd::Memory) => return Err(FetchStop::Memory),
        }
    }
    Ok(())
}

// Fetches one source, and joins it with its room.
fn fetch_one<F: Shelf>(
    shelf: &mut F,
    name: &str,
    room: EmptyReader,
) -> Result<SourceWorker<F::File>, FetchEnd>
    requires { (F.state shelf.old).out < 65536 }
    ensures worker { IfOk result (λ worker. IsLentTo (F.state shelf.old).told (length (F.state shelf.old).asks) name.now room worker) }
    ensures given { OnOk result (F.state shelf.new ≡ lent (F.state shelf.old) name.now) }
    ensures failed { IsErrOf result FetchEnd.Failed → FetchBroke (F.state shelf.old) (F.state shelf.new) name.now }
    ensures memory { IsErrOf result FetchEnd.Memory → F.state shelf.new ≡ F.state shelf.old }
{
    match shelf.fetch(name) {
        Ok(file) => Ok(SourceWorker::create(room.with(file))),
        Err(end) => Err(end),
    }
}

// Gives the sources of workers back, the first one first.
fn return_all<F: Shelf>(shelf: &mut F, workers: &mut Vec<SourceWorker<F::File>>)
    requires given { AreGiven (F.state shelf.old).asks (places_of workers.old.items) }
    requires out { length workers.old.items ≤ (F.state shelf.old).out }
    ensures { F.state shelf.new ≡ all_back (F.state shelf.old) (sources_of workers.old.items) }
{
    while !workers.is_empty() {
        let worker = workers.remove(0);
        shelf.give_back(worker.into_reader().into_source());
    }
}
