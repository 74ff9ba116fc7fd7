//! What the words of a command line say, one after another.

use lola_model::journal::Show;
use lola_value::list::ListOf;

/// What the sources of a run hand their rows in at.
#[derive(Clone, Copy)]
pub enum IntakeKind {
    /// A merge object round which there is a lock.
    Lock,
    /// A queue.
    Queue,
}

/// Where a name stands on the command line: the number of its word, and how many bytes of the word stand before it.
#[derive(Clone, Copy)]
pub struct NamePlace {
    /// The number of the word, from 0 for the program's name.
    pub word: usize,
    /// How many bytes of the word stand before the name.
    pub from: usize,
}

/// A name, or an option with its value.
#[derive(Clone, Copy)]
pub enum Said {
    /// A name, by the number of its word, from 0 for the program's name.
    Name(usize),
    /// `--show`
    Show(Show),
    /// `--workers`
    Workers(u32),
    /// `--start`, in nanoseconds.
    Start(u64),
    /// `--in-turns`
    InTurns,
    /// `--intake`
    Intake(IntakeKind),
    /// `--resume`, by where the name of the state stands.
    Resume(NamePlace),
}

/// What one word says where it stands.
#[derive(Clone, Copy)]
pub enum WordSense {
    /// `--`: all words behind it are names.
    Dashes,
    /// A name, or an option; and whether the next word is its value.
    Says(Said, bool),
    /// No name and no option of a command.
    Wrong,
}

/// What words say, in order.
pub type SaidList = ListOf<Said>;
