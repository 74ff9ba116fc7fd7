//! The state of a run as a text: what a run holds between two steps, which states a plan can have, their text, and at which line other
//! bytes are damaged.
//!
//! And the laws of saved states. What the state of a journal is stands here as a definition, over the one table that solves the equations of the
//! plan: the start and the time of the last accepted row, the number of settled steps, and of each stream the instances that live, in the
//! order of birth, each with its parameters, its last values, and the panes of each window, folded anew from the values of its life; and
//! which values an instance had that was saved.
//!
//! Promised: a text tells one state. A reader that takes a text line by line is a machine of places; the lines that fit are exactly the
//! beginnings of state texts, and the first line that does not fit is the one at which bytes are damaged.
//! Over each journal an accepted plan has exactly one state; of a journal that a run can take, of at most 2^62 settled steps, the
//! state is one that the plan can have, where the plan's text literals are in UTF-8, so its text is a state text of the plan. The start
//! that it tells serves as the start option of whatever comes behind the journal. Over the same values the panes of a store, by offsets
//! from the start, and those of a state, by times, have the same partial results; panes that are restored from a state's stand for the
//! values that it was folded from. A store that was restored from a state with a start stands, between steps, for what each journal comes
//! to that has this state, that a run can take and that has no fault; the state of a journal without an accepted row has no values.
//! Not promised: that a store or an engine holds a state, or was restored from it. That the text literals of a compiled text are in UTF-8
//! is a law of `lola_front_law`.
#![tactic(auto)]

pub mod forms;
pub mod journal_law;
pub mod law;
pub mod panes;
pub mod restored;
pub mod state;
