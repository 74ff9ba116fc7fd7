//! Passes that count how often they found the queue full or empty.
//!
//! The functions here are proved for every rule of a queue, and so without knowing one: that a queue was full or empty
//! at a moment of a call can be had from the queue alone, and so a count rises only where it was found so.

ghost use Rattle.std.specs.Prelude.{◌≡◌, ◌+◌, List, MatchOption, MatchResult};
ghost use Rattle.crossbeam_queue.specs.Fifo.{Pushes, Pops, Learns, Held};
ghost use Rattle.crossbeam_queue.specs.Passes.{view, IsPassOf, IsSamePass, ruled_capacity};

use crossbeam_queue::protocol::{Lesson, Outcome, Protocol};
use crossbeam_queue::{Pass, RuledArrayQueue};
use std::sync::Wait;
use std::thread;

/// A pass of a queue under a rule, with the number of its pushes that found the queue full, and of its pops that found it
/// empty.
#[derive(Drop)]
pub struct CountedPass<T, V> {
    pass: Pass<T, V>,
    full: u64,
    empty: u64,
}

// One more. A count that stands at the greatest u64 waits for ever, so that it is never wrong.
fn raised<R: Wait>(rt: &R, count: u64) -> u64
    ensures { result ≡ count + 1 }
{
    for _ in rt.forever() {
        if count < u64::MAX {
            return count + 1;
        }
        thread::yield_now();
    }
    unreachable!()
}

impl<T, V> CountedPass<T, V> {
    /// A pass that has counted nothing.
    pub fn of(pass: Pass<T, V>) -> CountedPass<T, V>
        ensures { (result.pass ≡ pass) × (result.full ≡ 0) × (result.empty ≡ 0) }
    {
        CountedPass {
            pass,
            full: 0,
            empty: 0,
        }
    }

    /// The pass, without its counts.
    pub fn into_pass(self) -> Pass<T, V>
        ensures { result ≡ self.pass }
    {
        let CountedPass {
            pass,
            full: _,
            empty: _,
        } = self;
        pass
    }

    /// Learns of the values that the queue holds at one moment of the call.
    pub fn learn<P: Protocol<T, V>, M: Lesson<T, V>>(&mut self, queue: &RuledArrayQueue<T, V, P>)
        requires queue { IsPassOf queue.now self.old.pass }
        requires rule { Learns P.holds self.old.pass.id (view self.old.pass) (M.fact (view self.old.pass)) }
        ensures queue { IsSamePass self.old.pass self.new.pass × (view self.new.pass ≡ view self.old.pass) }
        ensures counts { (self.new.full ≡ self.old.full) × (self.new.empty ≡ self.old.empty) }
        ensures rule { (items : List T) × M.fact (view self.old.pass) items }
    {
        queue.learn_as::<M>(&mut self.pass);
    }

    /// Pushes a value. It comes back only if the queue was full at one moment of the call, and that is counted.
    pub fn push<P, M, R: Wait>(
        &mut self,
        rt: &R,
        queue: &RuledArrayQueue<T, V, P>,
        value: T,
    ) -> Result<(), T>
    where
        P: Protocol<T, V>,
        M: Outcome<T, V> + Lesson<T, V>,
        requires queue { IsPassOf queue.now self.old.pass }
        requires rule { Pushes P.holds (ruled_capacity queue.now) self.old.pass.id (view self.old.pass) value (M.then (view self.old.pass) value) × Learns P.holds self.old.pass.id (view self.old.pass) (M.fact (view self.old.pass)) }
        ensures queue { IsSamePass self.old.pass self.new.pass }
        ensures pushed { MatchResult result
            (λ _. M.then (view self.old.pass) value (view self.new.pass) × (self.new.full ≡ self.old.full))
            (λ x. (x ≡ value) × (view self.new.pass ≡ view self.old.pass) × Held (ruled_capacity queue.now) (M.fact (view self.old.pass)) × (self.new.full ≡ self.old.full + 1)) }
        ensures empty { self.new.empty ≡ self.old.empty }
    {
        match queue.push_as::<M, R>(rt, &mut self.pass, value) {
            Ok(()) => Ok(()),
            Err(value) => {
                self.full = raised(rt, self.full);
                Err(value)
            }
        }
    }

    /// Pops a value. There is none only if the queue was empty at one moment of the call, and that is counted.
    pub fn pop<P, M, R: Wait>(&mut self, rt: &R, queue: &RuledArrayQueue<T, V, P>) -> Option<T>
    where
        P: Protocol<T, V>,
        M: Outcome<T, V> + Lesson<T, V>,
        requires queue { IsPassOf queue.now self.old.pass }
        requires rule { Pops P.holds self.old.pass.id (view self.old.pass) (M.then (view self.old.pass)) × Learns P.holds self.old.pass.id (view self.old.pass) (M.fact (view self.old.pass)) }
        ensures queue { IsSamePass self.old.pass self.new.pass }
        ensures popped { MatchOption result
            ((view self.new.pass ≡ view self.old.pass) × Held 0 (M.fact (view self.old.pass)) × (self.new.empty ≡ self.old.empty + 1))
            (λ x. M.then (view self.old.pass) x (view self.new.pass) × (self.new.empty ≡ self.old.empty)) }
        ensures full { self.new.full ≡ self.old.full }
    {
        let popped = queue.pop_as::<M, R>(rt, &mut self.pass);
        if popped.is_none() {
            self.empty = raised(rt, self.empty);
        }
        popped
    }
}
