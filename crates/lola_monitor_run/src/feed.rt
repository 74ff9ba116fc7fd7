//! Sources that are read by one thread.

ghost use Rattle.std.specs.Prelude.{◌≡◌, ◌<◌, ◌≤◌, [], length};
ghost use Rattle.lola_merge.specs.Merging.{sources_of};
ghost use Rattle.lola_monitor_run.specs.Turning.{IsAtIndex, TookEntry, TookTurn};

use lola_feed::desk::StateDesk;
use lola_feed::worker::{SourceWorker, TurnEnd};
use lola_merge::batch::Batch;
use lola_merge::state::MergeState;
use lola_model::journal::Entry;
use lola_port::Source;
use std::marker::Model;

/// The workers of some sources, the merge object that they share, and room for what is taken out of it.
#[derive(Drop)]
pub struct Feed<S: Source> {
    pub(crate) workers: Vec<SourceWorker<S>>,
    pub(crate) desk: StateDesk,
    pub(crate) batch: Batch,
}

impl<S: Source> Model for Feed<S> {
    ghost use Rattle.lola_monitor_run.specs.Feeds.{Feeding};

    ghost Value = { Feeding };

    ghost view = { λ f. record { workers = f.workers.items; merging = f.desk.merging; batch = f.batch } };
}

impl<S: Source> Feed<S> {
    /// These workers at a merge object that has just been made for as many sources, and a batch with nothing in it.
    pub fn create(workers: Vec<SourceWorker<S>>, state: MergeState, batch: Batch) -> Feed<S>
        requires sources { sources_of state ≡ length workers.items }
        requires many { (1 ≤ length workers.items) × (length workers.items ≤ 64) }
        requires batch { batch ≡ [] }
        ensures { result ≡ record { workers = workers.items; merging = state; batch = batch } }
    {
        Feed {
            workers,
            desk: StateDesk::create(state, 0),
            batch,
        }
    }

    /// How many sources there are.
    pub fn sources(&self) -> u32
        requires { length self.now.workers ≤ 64 }
        ensures { result ≡ length self.now.workers }
    {
        self.workers.len() as u32
    }

    // A turn of this source.
    pub(crate) fn turn(&mut self, source: u32) -> TurnEnd
        requires there { source < length self.old.workers }
        requires many { sources_of self.old.merging ≡ length self.old.workers }
        requires index { IsAtIndex source self.old.workers }
        ensures { TookTurn source result self.old self.new }
    {
        self.desk.serve(source);
        self.workers[source as usize].turn(&mut self.desk)
    }

    // Takes out what is pending, and of that the first entry.
    pub(crate) fn take(&mut self) -> Option<Entry>
        requires { self.old.batch ≡ [] }
        ensures { TookEntry result self.old self.new }
    {
        self.desk.take(&mut self.batch);
        self.batch.pop_front()
    }

    // The workers, as these turns left them.
    pub(crate) fn into_workers(self) -> Vec<SourceWorker<S>>
        ensures { result.items ≡ self.workers }
    {
        self.workers
    }
}
