//! A source and a sink in memory, which tell their content, and a gate that does nothing.

ghost use Rattle.std.specs.Prelude.{◌≡◌, ◌<◌, [], true, false, length, take, is_err, IfOk, OnOk, OnErr, IsErrOf};
ghost use Rattle.std.specs.Io.{ReadsAtMost};
ghost use Rattle.std.specs.Io.KnownBytes.{IsAtEnd};
ghost use Rattle.lola_port.specs.Memory.{failed_put_state, failed_read_state, given_count, is_failing, put_state, read_state, sink_state, source_state};
ghost use Rattle.lola_port.specs.States.{Moved, PutBroke, ReadBroke, grown};

use crate::{Gate, PutEnd, ReadFailed, Sink, Source};
use lola_value::text::Memory;
use std::alloc::Global;
use std::marker::Model;

/// A gate that does nothing.
#[derive(Clone, Copy)]
pub struct IdleGate;

impl Gate for IdleGate {
    fn enter(&self, _task: u32) {}

    fn source_turn(&self, _source: u32) {}

    fn step_done(&self, _bounded: bool) {}
}

/// A sink that keeps what was put. Puts are numbered from 0, and those with chosen numbers fail, of which nothing is
/// kept; no other put fails. A put that finds no memory has no number.
#[derive(Drop)]
pub struct MemorySink {
    bytes: Vec<u8>,
    fails: Vec<u64>,
    puts: u64,
    failures: u64,
}

impl Model for MemorySink {
    ghost use Rattle.lola_port.specs.Memory.{MemorySinkState};

    ghost Value = { MemorySinkState };

    ghost view = { λ s. record { written = s.bytes.items; fails = s.fails.items; puts = s.puts; count = s.failures } };
}

impl MemorySink {
    /// An empty sink, whose puts with these numbers fail.
    pub fn create(alloc: Global, fails: &[u64]) -> Result<MemorySink, Memory>
        ensures { IfOk result (λ sink. sink ≡ record { written = []; fails = fails.now; puts = 0; count = 0 }) }
    {
        Ok(MemorySink {
            bytes: Vec::new(alloc),
            fails: fails.to_vec(alloc)?,
            puts: 0,
            failures: 0,
        })
    }

    /// All that was put.
    pub fn written(&self) -> &[u8]
        ensures { result.now ≡ self.now.written }
    {
        &self.bytes
    }
}

impl Sink for MemorySink {
    ghost state = { sink_state };

    fn put(&mut self, bytes: &[u8]) -> Result<(), PutEnd>
        requires { 0 < length bytes.now }
        ensures ok { OnOk result (sink_state self.new ≡ grown (sink_state self.old) bytes.now) }
        ensures failed { IsErrOf result PutEnd.Failed →
            PutBroke (sink_state self.old) (sink_state self.new) bytes.now }
        ensures memory { IsErrOf result PutEnd.Memory → sink_state self.new ≡ sink_state self.old }

        // what it is then, and which puts fail
        ensures put { OnOk result (self.new ≡ put_state self.old bytes.now) }
        ensures not_put { IsErrOf result PutEnd.Failed → self.new ≡ failed_put_state self.old }
        ensures same { IsErrOf result PutEnd.Memory → self.new ≡ self.old }
        ensures works { OnOk result (is_failing self.old.fails self.old.puts ≡ false) }
        ensures fails { IsErrOf result PutEnd.Failed → is_failing self.old.fails self.old.puts ≡ true }
    {
        if self.fails.contains(&self.puts) {
            self.puts = self.puts.saturating_add(1);
            self.failures = self.failures.saturating_add(1);
            return Err(PutEnd::Failed);
        }
        if self.bytes.extend_from_slice(bytes).is_err() {
            return Err(PutEnd::Memory);
        }
        self.puts = self.puts.saturating_add(1);
        Ok(())
    }
}

/// A source over bytes in memory, which gives at most so many bytes a read. Reads are numbered from 0, and those with
/// chosen numbers fail; no other read fails.
#[derive(Drop)]
pub struct MemorySource {
    pub(crate) bytes: Vec<u8>,
    pub(crate) at: usize,
    pub(crate) piece: u32,
    pub(crate) fails: Vec<u64>,
    pub(crate) reads: u64,
    pub(crate) failures: u64,
    pub(crate) place: usize,
}

impl Model for MemorySource {
    ghost use Rattle.std.specs.Prelude.{◌≤◌, drop, length};
    ghost use Rattle.lola_port.specs.Memory.{MemorySourceState};

    ghost Value = { MemorySourceState };

    ghost view = { λ s. record {
      left = drop s.at s.bytes.items;
      piece = s.piece;
      fails = s.fails.items;
      reads = s.reads;
      count = s.failures;
      place = s.place;
    } };

    ghost invariant = { λ s. (s.at ≤ length s.bytes.items) × (1 ≤ s.piece) };
}

impl Source for MemorySource {
    ghost state = { source_state };

    fn read(&mut self, buf: &mut [u8]) -> Result<usize, ReadFailed>
        ensures within { ReadsAtMost result buf.new }
        ensures moved { IfOk result (λ count.
            Moved (source_state self.old) (source_state self.new) (take count buf.new)) }
        ensures end { IfOk result (λ count.
            count ≡ 0 → 0 < length buf.new → IsAtEnd (source_state self.new).left) }
        ensures failed { OnErr result (ReadBroke (source_state self.old) (source_state self.new)) }

        // how many bytes, what it is then, and which reads fail
        ensures count { IfOk result (λ count. count ≡ given_count self.old (length buf.new)) }
        ensures read { IfOk result (λ count. self.new ≡ read_state self.old count) }
        ensures not_read { OnErr result (self.new ≡ failed_read_state self.old) }
        ensures fails { is_err result ≡ is_failing self.old.fails self.old.reads }
    {
        let number = self.reads;
        self.reads = self.reads.saturating_add(1);
        if self.fails.contains(&number) {
            self.failures = self.failures.saturating_add(1);
            return Err(ReadFailed);
        }
        let most = buf.len().min(self.piece as usize);
        let count = most.min(self.bytes.len() - self.at);
        buf[..count].copy_from_slice(&self.bytes[self.at..self.at + count]);
        self.at += count;
        Ok(count)
    }
}
