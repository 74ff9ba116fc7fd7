//! What one worker does of a layer.

ghost use Rattle.std.specs.Prelude.{ℕ, ◌≡◌, ◌+◌, ◌<◌, ◌≤◌, ◌^◌, ◌++◌, [], List, IfSome, IsSomeAnd, OnOk, OnErr, Some, length, slice_get, vec_len};
ghost use Rattle.std.specs.Vec.{vec_capacity};
ghost use Rattle.lola_workers.specs.Shares.{AreFrom, AreShares, IsPieceOf, IsShare};

use lola_model::job::Job;
use lola_port::Gate;
use lola_value::brief::Brief;
use lola_value::text::Memory;
use std::alloc::Global;

/// Tasks that follow on one another: the number of the first, how many there are, and where their outcomes stand in the share.
#[derive(Clone, Copy)]
pub(crate) struct Piece {
    pub(crate) start: usize,
    pub(crate) count: usize,
    pub(crate) from: usize,
}

/// The pieces of a layer that one worker took, and the outcomes of their tasks. It is kept from one layer to the next, so that it takes
/// memory only where it never held as much.
#[derive(Drop)]
pub struct Share {
    pub(crate) pieces: Vec<Piece>,
    pub(crate) outcomes: Vec<Brief>,
}

/// What a task comes to, once the gate has heard of it.
pub(crate) fn outcome_of<J: Job, G: Gate>(gate: &G, job: &J, task: usize) -> Brief
    requires listed { task < J.tasks job.now }
    requires numbered { J.tasks job.now < 2 ^ 32 }
    ensures { J.gives job.now task result }
{
    let number = task as u32;
    gate.enter(number);
    job.answer(number)
}

// Puts the outcomes of so many tasks behind those that stand there.
fn answer<J: Job, G: Gate>(gate: &G, job: &J, start: usize, count: usize, outcomes: &mut Vec<Brief>)
    requires numbered { J.tasks job.now < 2 ^ 32 }
    requires tasks { start + count ≤ J.tasks job.now }
    requires room { vec_len outcomes.old + count ≤ vec_capacity outcomes.old }
    ensures before { (i : ℕ) → i < length outcomes.old.items → slice_get outcomes.new.items i ≡ slice_get outcomes.old.items i }
    ensures more { length outcomes.new.items ≡ length outcomes.old.items + count }
    ensures each { (i : ℕ) → i < count → IsSomeAnd (slice_get outcomes.new.items (length outcomes.old.items + i)) (J.gives job.now (start + i)) }
{
    for i in 0..count {
        outcomes.push_reserved(outcome_of(gate, job, start + i));
    }
}

impl Share {
    /// One that holds nothing.
    pub fn empty(alloc: Global) -> Share {
        Share {
            pieces: Vec::new(alloc),
            outcomes: Vec::new(alloc),
        }
    }

    /// Lets go of what it holds, and keeps the room.
    pub(crate) fn clear(&mut self)
        ensures { self.new.pieces.items ≡ [] }
    {
        self.pieces.clear();
        self.outcomes.clear();
    }

    /// Does so many tasks from one on, where there is memory for their outcomes.
    pub(crate) fn take<J: Job, G: Gate>(
        &mut self,
        gate: &G,
        job: &J,
        start: usize,
        count: usize,
    ) -> Result<(), Memory>
        requires numbered { J.tasks job.now < 2 ^ 32 }
        requires tasks { start + count ≤ J.tasks job.now }
        requires share { IsShare (J.gives job.now) self.old }
        ensures { IsShare (J.gives job.now) self.new }
    {
        let from = self.outcomes.len();
        self.pieces.reserve(1)?;
        self.outcomes.reserve(count)?;
        answer(gate, job, start, count, &mut self.outcomes);
        self.pieces.push_reserved(Piece { start, count, from });
        Ok(())
    }

    // The outcomes of one of its pieces.
    fn piece<J: Job>(&self, _job: &J, piece: Piece) -> &[Brief]
        requires of { IsPieceOf (J.gives _job.now) self.now.outcomes.items piece }
        ensures count { length result.now ≡ piece.count }
        ensures from { AreFrom (J.gives _job.now) piece.start result.now }
    {
        &self.outcomes[piece.from..piece.from + piece.count]
    }

    // The outcomes of a piece whose tasks are those from one on, if it has such a piece.
    fn outcomes_from<J: Job>(&self, _job: &J, start: usize) -> Option<&[Brief]>
        requires share { IsShare (J.gives _job.now) self.now }
        ensures some { IfSome result (λ outcomes. 1 ≤ length outcomes.now) }
        ensures from { IfSome result (λ outcomes. AreFrom (J.gives _job.now) start outcomes.now) }
    {
        for piece in self.pieces.as_slice() {
            if piece.start == start && piece.count > 0 {
                return Some(self.piece(_job, *piece));
            }
        }
        None
    }
}

/// The outcomes of the tasks from one on that some share has, if one has a piece of these.
pub(crate) fn find_outcomes<'a, J: Job>(
    job: &J,
    shares: &'a [Share],
    start: usize,
) -> Option<&'a [Brief]>
    requires shares { AreShares (J.gives job.now) shares.now }
    ensures some { IfSome result (λ outcomes. 1 ≤ length outcomes.now) }
    ensures from { IfSome result (λ outcomes. AreFrom (J.gives job.now) start outcomes.now) }
{
    for share in shares {
        if let Some(outcomes) = share.outcomes_from(job, start) {
            return Some(outcomes);
        }
    }
    None
}
