//! The intake.

ghost use Rattle.std.specs.Prelude.{◌≡◌, ◌≢◌, ◌<◌, ◌≤◌, ◌+◌, ◌++◌, ◌⊎◌, ◌∷◌, ℕ, [], List, length, IfOk, IsTrue, IsFalse, MatchResult, Option, Some, slice_get, IfErr, true, false};
ghost use Rattle.crossbeam_queue.specs.Passes.{view, IsPassOf, IsSamePass, ruled_capacity};
ghost use Rattle.lola_model.specs.declared.journal.Entry.{Entry};
ghost use Rattle.lola_merge.specs.Merging.{sources_of, has_finished};
ghost use Rattle.lola_merge.specs.declared.state.Take.TheVariants.{AllDone};
ghost use Rattle.lola_model.specs.declared.journal.Row.{Row};
ghost use Rattle.lola_queue_intake.specs.declared.item.Item.{Item};
ghost use Rattle.lola_queue_intake.specs.declared.item.Item.TheVariants as item;
ghost use Rattle.lola_queue_intake.specs.declared.answer.Push.TheVariants as push;
ghost use Rattle.lola_feed.specs.declared.intake.Finish.TheVariants as finish;
ghost use Rattle.lola_queue_intake.specs.declared.delivery.Role.TheVariants.{Taker, Source};
ghost use Rattle.lola_queue_intake.specs.Deliveries.{most_items, source_of, has_finish, with_item, with_items, rows_in, Accounts};
ghost use Rattle.lola_queue_intake.specs.Intakes.{AreSeatsOf, new_source, new_taker, after_push, IsBack, IsSameSeat, after_finish, Took, Whole, Mirrors, after_item};

use crate::answer::Push;
use crate::closing::Word;
use crate::counted::CountedPass;
use crate::delivery::{Delivery, ItemQueue, Pops, Queues, SourcePass, View};
use crate::item::Item;
use crate::seats::{QueueSeat, TakerSeat};
use lola_feed::intake::Finish;
use lola_merge::batch::{Batch, MOST};
use lola_merge::state::{MergeState, Take};
use lola_model::journal::Row;
use lola_value::text::Memory;
use std::alloc::Global;
use std::marker::Model;
use std::sync::Wait;

/// A queue of rows and finishes, and the closing word. Contracts see which intake it is.
#[derive(Drop)]
pub struct QueueIntake {
    queue: ItemQueue,
    word: Word,
}

impl Model for QueueIntake {
    ghost use Rattle.std.specs.Prelude.{◌≡◌};
    ghost use Rattle.crossbeam_queue.specs.Passes.{ruled_capacity};
    ghost use Rattle.lola_queue_intake.specs.Deliveries.{most_items};
    ghost use Rattle.lola_queue_intake.specs.Intakes.{IntakeId};

    ghost Value = { IntakeId };

    ghost view = { λ i. record { queue = i.queue.table.shared.table_id; word = i.word.table.shared.table_id } };

    ghost invariant = { λ i. ruled_capacity i.queue ≡ most_items };
}

// Queues an item of a source that has not finished. It comes back only where the queue was full.
fn queue_item<R: Wait>(
    rt: &R,
    queue: &ItemQueue,
    pass: &mut CountedPass<Item, View>,
    item: Item,
) -> Result<(), Item>
    requires queue { (ruled_capacity queue.now ≡ most_items) × IsPassOf queue.now pass.old.pass }
    requires source { (view pass.old.pass).role ≡ Source (source_of item) }
    requires unfinished { has_finish (view pass.old.pass).mine ≡ false }
    ensures same { IsSamePass pass.old.pass pass.new.pass }
    ensures told { MatchResult result
        (λ _. (view pass.new.pass ≡ with_item (view pass.old.pass) item) × (pass.new.full ≡ pass.old.full))
        (λ back. (back ≡ item) × (view pass.new.pass ≡ view pass.old.pass) × (pass.new.full ≡ pass.old.full + 1)) }
{
    pass.push::<Delivery, Queues, R>(rt, queue, item)
}

// What a source is told of its row, which is queued or came back.
fn row_answer(queued: Result<(), Item>) -> Push
    requires { IfErr queued (λ back. (row : Row) × (back ≡ item.Row row)) }
    ensures { MatchResult queued (λ _. result ≡ push.Queued) (λ back. (row : Row) → back ≡ item.Row row → result ≡ push.Full row) }
{
    match queued {
        Ok(()) => Push::Queued,
        Err(Item::Row(row)) => Push::Full(row),
        Err(Item::Finish(_)) => unreachable!(),
    }
}

// What a source is told of its finish, which is queued or came back.
fn finish_answer(queued: Result<(), Item>) -> Finish
    ensures { MatchResult queued (λ _. result ≡ finish.Finished) (λ _. result ≡ finish.Full) }
{
    match queued {
        Ok(()) => Finish::Finished,
        Err(_) => Finish::Full,
    }
}

// Whether each source has finished, and nothing was pending.
fn is_all_done(take: Take) -> bool
    ensures done { IsTrue result → take ≡ AllDone }
    ensures other { IsFalse result → take ≢ AllDone }
{
    matches!(take, Take::AllDone)
}

// The taker's merge object takes an item in, and says how many rows it is.
fn receive(merging: &mut MergeState, item: Item) -> usize
    ensures after { merging.new ≡ after_item merging.old item }
    ensures rows { result ≡ length (rows_in (item ∷ [])) }
    ensures sources { sources_of merging.new ≡ sources_of merging.old }
{
    match item {
        Item::Row(row) => {
            let _ = merging.offer(row);
            1
        }
        Item::Finish(source) => {
            merging.finish(source);
            0
        }
    }
}

// Pops items until as many rows are pending as there is room for, or a pop found the queue empty.
fn fill<R: Wait>(
    rt: &R,
    queue: &ItemQueue,
    pass: &mut CountedPass<Item, View>,
    merging: &mut MergeState,
)
    requires queue { IsPassOf queue.now pass.old.pass }
    requires taker { (view pass.old.pass).role ≡ Taker }
    requires empty { (merging.old.pending ≡ []) × (merging.old.closed ≡ false) }
    ensures same { IsSamePass pass.old.pass pass.new.pass }
    ensures popped { (more : List Item) × (view pass.new.pass ≡ with_items (view pass.old.pass) more) }
    ensures mirrors { (start : Option ℕ) (done : List Entry) → Mirrors start (view pass.old.pass).mine done merging.old → Mirrors start (view pass.new.pass).mine done merging.new }
    ensures sources { sources_of merging.new ≡ sources_of merging.old }
    ensures stopped { ((length merging.new.pending ≡ most_items) × (pass.new.empty ≡ pass.old.empty)) ⊎ (pass.new.empty ≡ pass.old.empty + 1) }
{
    let mut rows = 0;
    for _ in rt.forever() {
        if rows == MOST {
            return;
        }
        match pass.pop::<Delivery, Pops, R>(rt, queue) {
            Some(item) => rows += receive(merging, item),
            None => return,
        }
    }
    unreachable!()
}

// Pops all items, once all sources came back. Then the queue is empty.
fn drain<R: Wait>(
    rt: &R,
    queue: &ItemQueue,
    pass: &mut CountedPass<Item, View>,
    merging: &mut MergeState,
)
    requires queue { IsPassOf queue.now pass.old.pass }
    requires taker { ((view pass.old.pass).role ≡ Taker) × (length (view pass.old.pass).known ≡ (view pass.old.pass).made) }
    requires empty { (merging.old.pending ≡ []) × (merging.old.closed ≡ false) }
    ensures popped { (more : List Item) × (view pass.new.pass ≡ with_items (view pass.old.pass) more) }
    ensures settled { Accounts (view pass.new.pass) [] }
    ensures mirrors { (start : Option ℕ) (done : List Entry) → Mirrors start (view pass.old.pass).mine done merging.old → Mirrors start (view pass.new.pass).mine done merging.new }
{
    pass.learn::<Delivery, Pops>(queue);
    for _ in rt.forever() {
        match pass.pop::<Delivery, Pops, R>(rt, queue) {
            Some(item) => {
                receive(merging, item);
            }
            None => return,
        }
    }
    unreachable!()
}

impl QueueIntake {
    /// A queue with room for 1,024 items, with a seat for each of so many sources, that of source s at place s, and the
    /// taker's seat. The merged time is the start, or else 0.
    pub fn create(
        alloc: Global,
        sources: u32,
        start: Option<u64>,
    ) -> Result<(QueueIntake, Vec<QueueSeat>, TakerSeat), Memory>
        requires { (1 ≤ sources) × (sources ≤ 64) }
        ensures taker { IfOk result (λ r. r.2 ≡ new_taker r.0 sources start) }
        ensures count { IfOk result (λ r. length r.1.items ≡ sources) }
        ensures own { IfOk result (λ r. AreSeatsOf r.0 r.1.items) }
        ensures seats { IfOk result (λ r. (s : ℕ) → s < sources → slice_get r.1.items s ≡ Some (new_source r.0 s)) }
    {
        let merging = MergeState::create(alloc, sources, start)?;
        let mut seats = Vec::with_capacity(alloc, sources as usize)?;
        let (queue, mut pass) = ItemQueue::ruled(alloc, MOST)?;
        let (word, mut word_seat) = Word::create(alloc)?;
        for source in 0..sources {
            let theirs = queue.another::<SourcePass>(&mut pass);
            let their_word = word.another(&mut word_seat);
            let counted = CountedPass::of(theirs);
            seats.push_reserved(QueueSeat {
                pass: counted,
                word: their_word,
                source,
            });
        }
        let pass = CountedPass::of(pass);
        let taker = TakerSeat {
            pass,
            word: word_seat,
            merging,
            start,
        };
        Ok((QueueIntake { queue, word }, seats, taker))
    }

    /// Queues a row of the seat's source, which has not finished. First the closing word is looked at.
    pub fn push<R: Wait>(&self, rt: &R, seat: &mut QueueSeat, row: Row) -> Push
        requires own { seat.old.intake ≡ self.now }
        requires source { row.source ≡ seat.old.source }
        requires unfinished { seat.old.finished ≡ false }
        ensures told { seat.new ≡ after_push seat.old row result }
        ensures kept { IsSameSeat seat.old seat.new }
        ensures back { IsBack row result }
    {
        if self.word.look(&mut seat.word) {
            return Push::Closed(row);
        }
        let queued = queue_item(rt, &self.queue, &mut seat.pass, Item::Row(row));
        row_answer(queued)
    }

    /// Queues that the seat's source, which has not finished, has no more rows. First the closing word is looked at.
    pub fn finish<R: Wait>(&self, rt: &R, seat: &mut QueueSeat) -> Finish
        requires own { seat.old.intake ≡ self.now }
        requires unfinished { seat.old.finished ≡ false }
        ensures { seat.new ≡ after_finish seat.old result }
    {
        if self.word.look(&mut seat.word) {
            return Finish::Closed;
        }
        let source = seat.source;
        let queued = queue_item(rt, &self.queue, &mut seat.pass, Item::Finish(source));
        finish_answer(queued)
    }

    /// Pops items, marks each row by the merged time at its pop, and moves the entries into an empty batch: until it is
    /// full, or a pop found the queue empty. Where each source's finish was popped before, nothing is popped.
    pub fn take<R: Wait>(&self, rt: &R, seat: &mut TakerSeat, into: &mut Batch) -> Take
        requires own { seat.old.intake ≡ self.now }
        requires empty { into.old ≡ [] }
        ensures { Took result into.new seat.old seat.new }
    {
        if is_all_done(seat.merging.take(into)) {
            return Take::AllDone;
        }
        fill(rt, &self.queue, &mut seat.pass, &mut seat.merging);
        seat.merging.take(into)
    }

    /// From now on each look at the closing word finds that the taker has closed.
    pub fn close(&self, seat: &mut TakerSeat)
        requires { seat.old.intake ≡ self.now }
        ensures { seat.new ≡ record seat.old { closed = true } }
    {
        self.word.close(&mut seat.word);
    }

    /// Takes all seats back, in any order, pops what the queue still holds, and moves its rows, marked, into an empty batch.
    pub fn end<R: Wait>(self, rt: &R, taker: TakerSeat, seats: Vec<QueueSeat>, into: &mut Batch)
        requires taker { taker.intake ≡ self }
        requires seats { AreSeatsOf self seats.items }
        requires all { length seats.items ≡ taker.sources }
        requires empty { into.old ≡ [] }
        ensures { Whole taker seats.items into.new }
    {
        let TakerSeat {
            pass,
            word: mut word_seat,
            mut merging,
            start: _,
        } = taker;
        let mut pass = pass.into_pass();
        for seat in seats {
            let QueueSeat {
                pass: counted,
                word: their_word,
                source: _,
            } = seat;
            let theirs = counted.into_pass();
            self.queue.absorb::<SourcePass>(&mut pass, theirs);
            self.word.take_back(&mut word_seat, their_word);
        }
        let QueueIntake { queue, word } = self;
        let mut pass = CountedPass::of(pass);
        drain(rt, &queue, &mut pass, &mut merging);
        merging.take(into);
        word.end(word_seat);
    }
}
