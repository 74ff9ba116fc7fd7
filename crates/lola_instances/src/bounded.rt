//! The bounded store as a store.

use crate::store::BoundedStore;
use crate::{begin, changes, giving, prepare, reading};
use lola_model::store::{SpawnEnd, StreamStore, Whereabouts};
use lola_value::brief::{Brief, BriefValue};
use lola_value::text::Memory;
use lola_value::value::{Outcome, Params};
use std::thread::Threads;

impl StreamStore for BoundedStore {
    const BOUNDED: bool = true;

    ghost use Rattle.std.specs.Prelude.{true};
    ghost use Rattle.lola_instances.specs.Stores.{bounded_seen, bounded_remembers};
    ghost use Rattle.lola_instances.specs.Renaming.{bounded_renamed};

    ghost BOUNDED = { true };

    ghost seen = { bounded_seen };

    ghost remembers = { bounded_remembers };

    fn start_at(&mut self, start: u64) {
        begin::start_at(self, start)
    }

    fn prepare(&mut self) -> Result<(), Memory> {
        prepare::prepare(self)
    }

    fn begin(&mut self, time: u64) {
        begin::begin(self, time)
    }

    fn now(&self, stream: u32, params: &Params) -> Outcome {
        reading::now(self, stream, params)
    }

    fn newest(&self, stream: u32, params: &Params) -> Outcome {
        reading::newest(self, stream, params)
    }

    fn back(&self, stream: u32, params: &Params, k: u32) -> Outcome {
        reading::back(self, stream, params, k)
    }

    #[inline(always)]
    fn now_alone(&self, stream: u32) -> Brief {
        reading::now_alone(self, stream)
    }

    #[inline(always)]
    fn newest_alone(&self, stream: u32) -> Brief {
        reading::newest_alone(self, stream)
    }

    #[inline(always)]
    fn back_alone(&self, stream: u32, k: u32) -> Brief {
        reading::back_alone(self, stream, k)
    }

    fn window(&self, window: u32, params: &Params) -> Outcome {
        reading::window(self, window, params)
    }

    fn instances(&self, stream: u32) -> u32 {
        reading::instances(self, stream)
    }

    fn params_of(&self, stream: u32, index: u32) -> Params {
        reading::params_of(self, stream, index)
    }

    fn born(&self, stream: u32, index: u32) -> u64 {
        reading::born(self, stream, index)
    }

    fn local_due(&self, from: u64) -> Option<u64> {
        reading::local_due(self, from)
    }

    fn list_due(&self, stream: u32, time: u64, places: &mut Vec<u32>) {
        reading::list_due(self, stream, time, places)
    }

    fn find(&self, stream: u32, params: &Params) -> Whereabouts {
        reading::find(self, stream, params)
    }

    fn push(&mut self, stream: u32, index: u32, value: BriefValue) {
        changes::push(self, stream, index, value)
    }

    fn poison(&mut self, stream: u32, index: u32) {
        changes::poison(self, stream, index)
    }

    fn give_each<R: Threads + Sync>(
        &mut self,
        rt: &R,
        stream: u32,
        outcomes: &[Brief],
        workers: u32,
    ) {
        giving::give_each(self, rt, stream, outcomes, workers)
    }

    fn poison_stream(&mut self, stream: u32) {
        changes::poison_stream(self, stream)
    }

    fn spawn(&mut self, stream: u32, params: Params) -> SpawnEnd {
        changes::spawn(self, stream, params)
    }

    fn close(&mut self, stream: u32, index: u32) {
        changes::close(self, stream, index)
    }

    ghost renamed = { bounded_renamed };
}
