//! The outside as the monitor sees it: where bytes come from, where lines go, and hooks for tests. Each source, shelf
//! and sink has a count of its failures, which never falls and rises with each call that answers a failure; it ends at
//! the greatest u64. An object may tell its content: those in memory do, files and standard streams do not.

ghost use Rattle.std.specs.Prelude.{◌≡◌, ◌<◌, length, take, IfOk, OnOk, OnErr, IsErrOf};
ghost use Rattle.std.specs.Io.{ReadsAtMost};
ghost use Rattle.std.specs.Io.KnownBytes.{IsAtEnd};

use crate::bell::Bell;
use lola_value::text::Text;

/// A read that failed: no bytes were moved, and the source's count rose.
#[derive(Clone, Copy)]
pub struct ReadFailed;

/// Bytes in order, with an end: at most 2^62 are still to come of a source that was just fetched. A source has a
/// place, a number that no call changes, by which its shelf knows it again.
pub trait Source: Drop {
    ghost use Rattle.lola_port.specs.States.{Moved, ReadBroke, SourceState};

    /// What is known of it.
    ghost state: { Self → SourceState };

    /// Moves the next bytes into the front of `buf`, and says how many. None come only at the end, or where `buf` has
    /// no room.
    fn read(&mut self, buf: &mut [u8]) -> Result<usize, ReadFailed>
        ensures within { ReadsAtMost result buf.new }
        ensures moved { IfOk result (λ count. Moved (state self.old) (state self.new) (take count buf.new)) }
        ensures end { IfOk result (λ count. count ≡ 0 → 0 < length buf.new → IsAtEnd (state self.new).left) }
        ensures failed { OnErr result (ReadBroke (state self.old) (state self.new)) };

    /// Whether each read answers at once, as those of a file on a disk do, whose bytes are there already. Nobody has to
    /// wait for a source that does not say so: its next bytes may be long in coming.
    fn answers_at_once(&self) -> bool {
        false
    }

    /// Waits until the next line can be read at once, or whatever ends the source, for so many milliseconds at most, and says whether
    /// it can. A source that cannot know says yes.
    fn wait_for_bytes(&self, _milliseconds: u16) -> bool {
        true
    }

    /// Asks that its bytes be read before they are asked for, by a thread of its own, which rings this bell whenever what a read would
    /// have waited for has come. A source that has no such thread does nothing.
    fn read_ahead(&mut self, _bell: &Bell)
        ensures { state self.new ≡ state self.old }
    {}

    /// Whether a thread reads its bytes ahead and rings a bell. It can then be told at the cost of a look whether the next line has come:
    /// `wait_for_bytes` takes no lock and makes no call of the system where it is to wait for no time.
    fn rings(&self) -> bool {
        false
    }
}

/// One ask of a shelf: for which name, whether a source was given, and how many failures there were: 1 where none was
/// given, and else those of the source, once it is given back.
#[derive(Drop)]
pub struct Ask {
    pub name: Text,
    pub given: bool,
    pub count: u64,
}

/// Why no source was given: the fetch failed, and the shelf's count rose, or there was no memory, and nothing changed.
#[derive(Clone, Copy)]
pub enum FetchEnd {
    Failed,
    Memory,
}

/// Sources by their names. A shelf keeps the list of what it was asked for, and the number of its sources that are
/// out. No call changes the bytes that it tells of a name.
pub trait Shelf {
    ghost use Rattle.lola_port.specs.Asks.{IsGivenAt};
    ghost use Rattle.lola_port.specs.States.{FetchBroke, IsFresh, ShelfState, back, lent};

    type File: Source + Send;

    /// What is known of it.
    ghost state: { Self → ShelfState };

    /// A source with all bytes of a name, and no failures yet. Its place is that of its ask. A name may be fetched more
    /// than once. Fewer than 65,536 sources are to be out.
    fn fetch(&mut self, name: &str) -> Result<Self::File, FetchEnd>
        requires { (state self.old).out < 65536 }
        ensures file { IfOk result (λ file. IsFresh (state self.old) name.now (Self.File.state file)) }
        ensures given { OnOk result (state self.new ≡ lent (state self.old) name.now) }
        ensures failed { IsErrOf result FetchEnd.Failed → FetchBroke (state self.old) (state self.new) name.now }
        ensures memory { IsErrOf result FetchEnd.Memory → state self.new ≡ state self.old };

    /// Takes a source back that is out: its count becomes that of its ask, and is added to the shelf's, up to the
    /// greatest u64.
    fn give_back(&mut self, source: Self::File)
        requires is_out { 0 < (state self.old).out }
        requires given { IsGivenAt (state self.old).asks (Self.File.state source).place }
        ensures { state self.new ≡ back (state self.old) (Self.File.state source) };
}

/// Why not all bytes were taken: the put failed, only a part was taken, and the sink's count rose, or there was no
/// memory, and nothing was taken.
#[derive(Clone, Copy)]
pub enum PutEnd {
    Failed,
    Memory,
}

/// Where lines go.
pub trait Sink {
    ghost use Rattle.lola_port.specs.States.{PutBroke, SinkState, grown};

    /// What is known of it.
    ghost state: { Self → SinkState };

    /// Takes bytes, of which there are some, behind those that it has.
    fn put(&mut self, bytes: &[u8]) -> Result<(), PutEnd>
        requires { 0 < length bytes.now }
        ensures ok { OnOk result (state self.new ≡ grown (state self.old) bytes.now) }
        ensures failed { IsErrOf result PutEnd.Failed → PutBroke (state self.old) (state self.new) bytes.now }
        ensures memory { IsErrOf result PutEnd.Memory → state self.new ≡ state self.old };
}

/// Hooks, by which a test makes threads wait for each other. A gate answers nothing, and changes nothing that a
/// contract speaks of.
pub trait Gate {
    /// A worker begins a task of a step, numbered from 0.
    fn enter(&self, task: u32);

    /// The worker of a source, numbered from 0, begins a turn.
    fn source_turn(&self, source: u32);

    /// The engine is done with a step, over a bounded store or over another.
    fn step_done(&self, bounded: bool);
}
