//! The closing word. It is 0, and 1 once the taker has closed. A seat at it counts its looks that found 1.

ghost use Rattle.std.specs.Prelude.{◌≡◌, ◌≢◌, [], IfOk, IsTrue, IsFalse};
ghost use Rattle.lola_queue_intake.specs.Closings.{Closes, unseen, after_found, after_close, with_returned, AfterLook, AfterWrite, IsClosedWhereFound};

use atomic_table::{Join, Play, Seat, Split, Table, TableRule};
use std::alloc::{AllocError, Global};
use std::collections::LinkedList;

/// What a seat at the word knows. No value of it is made.
pub struct WordView {
    /// Of the taker: whether it has closed.
    pub closed: bool,
    /// How many of its looks found 1.
    pub found: u64,
    /// Of the taker: of each source that came back how many of its looks found 1.
    pub known: LinkedList<u64>,
}

/// The rule of the word.
pub(crate) struct Closing;

impl TableRule<(), WordView, ()> for Closing {
    ghost holds = { λ _. Closes };

    ghost first = { λ _. unseen };
}

/// A seat at the word. It has no bytes, and may go to another thread.
pub(crate) type WordSeat = Seat<(), WordView>;

// The one word.
const WORD: usize = 0;

struct Looks;

impl Play<(), WordView> for Looks {
    ghost then = { AfterLook };
}

struct Writes;

impl Play<(), WordView> for Writes {
    ghost then = { AfterWrite };
}

// A source's seat is made of the taker's, or taken back.
struct SourceSeat;

impl Split<WordView> for SourceSeat {
    ghost left = { λ v. v };

    ghost right = { λ v. unseen };
}

impl Join<WordView> for SourceSeat {
    ghost both = { with_returned };

    ghost spent = { unseen };
}

/// The word.
#[derive(Drop)]
pub(crate) struct Word {
    table: Table<(), WordView, (), Closing, Global>,
    ghost sized: { (table.shared.table_id.words ≡ 1) × (table.shared.table_id.slots ≡ 0) },
}

impl Word {
    /// The word, which is 0, and the taker's seat.
    pub fn create(alloc: Global) -> Result<(Word, WordSeat), AllocError>
        ensures { IfOk result (λ r. (r.1.table_id ≡ r.0.table.shared.table_id) × (r.1.id ≡ 0) × (r.1.me ≡ (unseen, []))) }
    {
        let (table, seat) = Table::of_words(alloc, &[0], &())?;
        Ok((Word { table }, seat))
    }

    /// Makes a source's seat.
    pub fn another(&self, taker: &mut WordSeat) -> WordSeat
        requires { taker.old.table_id ≡ self.now.table.shared.table_id }
        ensures same { (taker.new.table_id ≡ taker.old.table_id) × (taker.new.id ≡ taker.old.id) × (taker.new.me ≡ taker.old.me) }
        ensures new { (result.table_id ≡ taker.old.table_id) × (result.me ≡ (unseen, [])) }
    {
        self.table.shared.split_seat::<SourceSeat>(taker)
    }

    /// Whether the word is 1 at this look.
    pub fn look(&self, seat: &mut WordSeat) -> bool
        requires { seat.old.table_id ≡ self.now.table.shared.table_id }
        ensures same { (seat.new.table_id ≡ seat.old.table_id) × (seat.new.id ≡ seat.old.id) }
        ensures closed { IsTrue result → seat.new.me ≡ (after_found seat.old.me.0, seat.old.me.1) }
        ensures not_closed { IsFalse result → seat.new.me ≡ seat.old.me }
    {
        self.table.shared.load::<Looks>(seat, WORD) == 1
    }

    /// The taker closes: from now on each look finds 1.
    pub fn close(&self, taker: &mut WordSeat)
        requires own { taker.old.table_id ≡ self.now.table.shared.table_id }
        requires first { taker.old.id ≡ 0 }
        ensures same { (taker.new.table_id ≡ taker.old.table_id) × (taker.new.id ≡ taker.old.id) }
        ensures closed { taker.new.me ≡ (after_close taker.old.me.0, taker.old.me.1) }
    {
        self.table.shared.store::<Writes>(taker, WORD, 1);
    }

    /// Takes a source's seat back.
    pub fn take_back(&self, taker: &mut WordSeat, source: WordSeat)
        requires own { (taker.old.table_id ≡ self.now.table.shared.table_id) × (source.table_id ≡ self.now.table.shared.table_id) }
        requires first { (taker.old.id ≡ 0) × (source.me.1 ≡ []) }
        ensures same { (taker.new.table_id ≡ taker.old.table_id) × (taker.new.id ≡ taker.old.id) }
        ensures taken { taker.new.me ≡ (with_returned taker.old.me.0 source.me.0, taker.old.me.1) }
    {
        self.table.shared.join_seat::<SourceSeat>(taker, source);
    }

    /// Ends the word. Where a look of a source that came back found 1, the taker has closed.
    pub fn end(self, taker: WordSeat)
        requires own { taker.table_id ≡ self.table.shared.table_id }
        requires first { taker.id ≡ 0 }
        ensures { IsClosedWhereFound taker.me.0 }
    {
        let Word { table } = self;
        table.close_with(taker).free();
    }
}
