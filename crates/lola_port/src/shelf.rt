//! A shelf in memory, which tells its content, and the list of asks that every shelf keeps.

ghost use Rattle.std.specs.Prelude.{◌≡◌, ◌+◌, ◌^◌, ◌<◌, ◌≤◌, ◌++◌, [], ◌∷◌, Some, None, true, false, length, option_map, IfOk, OnOk, OnErr, IsErrOf, IsTrue, IsFalse};
ghost use Rattle.std.specs.Option.{option_copied};
ghost use Rattle.std.specs.List.{list_any};
ghost use Rattle.std.specs.Str.{bytes_eq};
ghost use Rattle.lola_port.specs.Asks.{IsGivenAt, count_set, failed_ask, given_ask};
ghost use Rattle.lola_port.specs.Memory.{bytes_under, file_under, is_refused, lent_state, refused_state, shelf_state, source_of, source_state};
ghost use Rattle.lola_port.specs.States.{FetchBroke, IsFresh, back, lent};

use crate::memory::MemorySource;
use crate::{Ask, FetchEnd, Shelf};
use lola_value::text::{Memory, Text};
use std::alloc::Global;
use std::marker::Model;

// A file of a shelf in memory.
#[derive(Drop)]
struct Stored {
    name: Text,
    bytes: Vec<u8>,
    piece: u32,
    fails: Vec<u64>,
}

impl Model for Stored {
    ghost use Rattle.std.specs.Prelude.{◌^◌, ◌≤◌, length};
    ghost use Rattle.lola_port.specs.Memory.{StoredFile};

    ghost Value = { StoredFile };

    ghost view = { λ s. record { name = s.name; bytes = s.bytes.items; piece = s.piece; fails = s.fails.items } };

    ghost invariant = { λ s. (length s.bytes.items ≤ 2 ^ 62) × (1 ≤ s.piece) };
}

/// Files in memory, with reads and fetches that fail as the test wants it.
#[derive(Drop)]
pub struct MemoryShelf {
    alloc: Global,
    stored: Vec<Stored>,
    failing: Vec<Text>,
    asks: Vec<Ask>,
    sources_out: u64,
    failures: u64,
}

impl Model for MemoryShelf {
    ghost use Rattle.lola_port.specs.Memory.{MemoryShelfState};

    ghost Value = { MemoryShelfState };

    ghost view = { λ s. record {
      files = s.stored.items;
      failing = s.failing.items;
      asks = s.asks.items;
      count = s.failures;
      out = s.sources_out;
    } };
}

impl MemoryShelf {
    /// An empty shelf.
    pub fn create(alloc: Global) -> MemoryShelf
        ensures { result ≡ record { files = []; failing = []; asks = []; count = 0; out = 0 } }
    {
        MemoryShelf {
            alloc,
            stored: Vec::new(alloc),
            failing: Vec::new(alloc),
            asks: Vec::new(alloc),
            sources_out: 0,
            failures: 0,
        }
    }

    /// Keeps the bytes of a name that is new to the shelf. Reads of its sources give at most `piece` bytes, and those
    /// with the numbers of `fails`, from 0, fail. Where there is no memory the shelf is as it was.
    pub fn add(&mut self, name: &str, bytes: &[u8], piece: u32, fails: &[u64]) -> Result<(), Memory>
        requires some { 1 ≤ piece }
        requires small { length bytes.now ≤ 2 ^ 62 }
        requires new { bytes_under self.old.files name.now ≡ None }
        ensures ok { OnOk result (self.new ≡ record self.old {
          files = self.old.files
              ++ record { name = name.now; bytes = bytes.now; piece = piece; fails = fails.now } ∷ [];
        }) }
        ensures err { OnErr result (self.new ≡ self.old) }
    {
        let stored = Stored {
            name: Text::from_bytes(self.alloc, name.as_bytes())?,
            bytes: bytes.to_vec(self.alloc)?,
            piece,
            fails: fails.to_vec(self.alloc)?,
        };
        self.stored.push(stored)?;
        Ok(())
    }

    /// Lets every fetch of a name fail. Where there is no memory the shelf is as it was.
    pub fn fail_fetch(&mut self, name: &str) -> Result<(), Memory>
        ensures ok { OnOk result (self.new ≡ record self.old { failing = self.old.failing ++ name.now ∷ [] }) }
        ensures err { OnErr result (self.new ≡ self.old) }
    {
        self.failing
            .push(Text::from_bytes(self.alloc, name.as_bytes())?)?;
        Ok(())
    }

    /// What it was asked for, in order.
    pub fn asks(&self) -> &[Ask]
        ensures { result.now ≡ self.now.asks }
    {
        &self.asks
    }

    // Notes a fetch that fails.
    fn refuse(&mut self, name: &str) -> FetchEnd
        ensures failed { result ≡ FetchEnd.Failed → self.new ≡ refused_state self.old name.now }
        ensures broke { result ≡ FetchEnd.Failed → FetchBroke (shelf_state self.old) (shelf_state self.new) name.now }
        ensures memory { result ≡ FetchEnd.Memory → self.new ≡ self.old }
    {
        match note(self.alloc, &mut self.asks, name, false) {
            Ok(()) => {
                self.failures = self.failures.saturating_add(1);
                FetchEnd::Failed
            }
            Err(_) => FetchEnd::Memory,
        }
    }

    // Hands a source out for a name, and notes that.
    fn lend(&mut self, name: &str, source: MemorySource) -> Result<MemorySource, FetchEnd>
        requires { self.old.out < 65536 }
        ensures ok { IfOk result (λ file. file ≡ source) }
        ensures lent { OnOk result (self.new ≡ lent_state self.old name.now) }
        ensures memory { OnErr result (self.new ≡ self.old) }
        ensures no_other { IsErrOf result FetchEnd.Failed → ⊥ }
    {
        match note(self.alloc, &mut self.asks, name, true) {
            Ok(()) => {
                self.sources_out += 1;
                Ok(source)
            }
            Err(_) => Err(FetchEnd::Memory),
        }
    }
}

impl Shelf for MemoryShelf {
    type File = MemorySource;

    ghost state = { shelf_state };

    fn fetch(&mut self, name: &str) -> Result<MemorySource, FetchEnd>
        requires { (shelf_state self.old).out < 65536 }
        ensures file { IfOk result (λ file. IsFresh (shelf_state self.old) name.now (source_state file)) }
        ensures given { OnOk result (shelf_state self.new ≡ lent (shelf_state self.old) name.now) }
        ensures failed { IsErrOf result FetchEnd.Failed →
            FetchBroke (shelf_state self.old) (shelf_state self.new) name.now }
        ensures memory { IsErrOf result FetchEnd.Memory → shelf_state self.new ≡ shelf_state self.old }

        // which source, what the shelf is then, and which fetches fail
        ensures opened { IfOk result (λ file.
            option_map (source_of (length self.old.asks)) (file_under self.old.files name.now) ≡ Some file) }
        ensures lent { OnOk result (self.new ≡ lent_state self.old name.now) }
        ensures refused { IsErrOf result FetchEnd.Failed → self.new ≡ refused_state self.old name.now }
        ensures same { IsErrOf result FetchEnd.Memory → self.new ≡ self.old }
        ensures works { OnOk result (is_refused self.old name.now ≡ false) }
        ensures fails { IsErrOf result FetchEnd.Failed → is_refused self.old name.now ≡ true }
    {
        let file = find(&self.stored, name.as_bytes());
        let Some(file) = file else {
            return Err(self.refuse(name));
        };
        if is_one_of(&self.failing, name.as_bytes()) {
            return Err(self.refuse(name));
        }
        match open(self.alloc, file, self.asks.len()) {
            Ok(source) => self.lend(name, source),
            Err(_) => Err(FetchEnd::Memory),
        }
    }

    fn give_back(&mut self, source: MemorySource)
        requires is_out { 0 < (shelf_state self.old).out }
        requires given { IsGivenAt (shelf_state self.old).asks (source_state source).place }
        ensures back { shelf_state self.new ≡ back (shelf_state self.old) (source_state source) }
        ensures rest { (self.new.files ≡ self.old.files) × (self.new.failing ≡ self.old.failing) }
    {
        set_count(&mut self.asks, source.place, source.failures);
        self.sources_out -= 1;
        self.failures = self.failures.saturating_add(source.failures);
    }
}

// The file of a name.
fn find<'a>(stored: &'a [Stored], name: &[u8]) -> Option<&'a Stored>
    ensures { option_copied result ≡ file_under stored.now name.now }
{
    for file in stored {
        if file.name.as_bytes() == name {
            return Some(file);
        }
    }
    None
}

// A source over a copy of a file's bytes.
fn open(alloc: Global, file: &Stored, place: usize) -> Result<MemorySource, Memory>
    ensures source { IfOk result (λ source. source ≡ source_of place file.now) }
    ensures small { length file.now.bytes ≤ 2 ^ 62 }
{
    Ok(MemorySource {
        bytes: file.bytes.to_vec(alloc)?,
        at: 0,
        piece: file.piece,
        fails: file.fails.to_vec(alloc)?,
        reads: 0,
        failures: 0,
        place,
    })
}

// Whether a name is one of these.
fn is_one_of(names: &[Text], name: &[u8]) -> bool
    ensures { result ≡ list_any (λ other. bytes_eq other name.now) names.now }
{
    names.iter().any(|other| other.as_bytes() == name)
}

// Notes an ask behind the others.
pub(crate) fn note(
    alloc: Global,
    asks: &mut Vec<Ask>,
    name: &str,
    given: bool,
) -> Result<(), Memory>
    ensures given { OnOk result (IsTrue given → asks.new.items ≡ asks.old.items ++ given_ask name.now ∷ []) }
    ensures failed { OnOk result (IsFalse given → asks.new.items ≡ asks.old.items ++ failed_ask name.now ∷ []) }
    ensures err { OnErr result (asks.new.items ≡ asks.old.items) }
{
    asks.push(Ask {
        name: Text::from_bytes(alloc, name.as_bytes())?,
        given,
        count: if given { 0 } else { 1 },
    })?;
    Ok(())
}

// Sets the count of the ask at a place.
pub(crate) fn set_count(asks: &mut [Ask], place: usize, count: u64)
    requires { IsGivenAt asks.old place }
    ensures { asks.new ≡ count_set asks.old place count }
{
    asks[place].count = count;
}
