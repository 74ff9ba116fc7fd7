//! A ring of the last values, seen as the list of them.

ghost use Rattle.std.specs.Prelude.{◌≡◌, ◌≤◌, [], ◌∷◌, ◌++◌, length, IfOk};
ghost use Rattle.circular_buffer.specs.Buffer.{keep_last};
ghost use Rattle.lola_buffer.specs.Kept.{kept, before_newest};

use circular_buffer::HeapCircularBuffer;
use lola_value::brief::BriefValue;
use lola_value::text::Memory;
use std::alloc::Global;
use std::marker::Model;

/// The last values of a list that grows, at most `capacity` of them.
#[derive(Drop)]
pub struct Buffer {
    ring: HeapCircularBuffer<BriefValue>,
}

impl Model for Buffer {
    ghost use Rattle.std.specs.Prelude.{◌≤◌, ◌<◌, ◌^◌, length};
    ghost use Rattle.lola_buffer.specs.Kept.{Kept, kept};

    ghost Value = { Kept };

    ghost view = { λ b. kept b.ring.items b.ring.capacity };

    ghost invariant = { λ b. (1 ≤ b.ring.capacity) × (b.ring.capacity < 2 ^ 32) × (length b.ring.items ≤ b.ring.capacity) };
}

impl Buffer {
    /// An empty buffer, with all the memory that it will ever take: for `capacity` values, one at least.
    pub fn create(alloc: Global, capacity: u32) -> Result<Buffer, Memory>
        requires { 1 ≤ capacity }
        ensures { IfOk result (λ b. b ≡ kept [] capacity) }
    {
        match HeapCircularBuffer::with_capacity(alloc, capacity as usize) {
            Ok(ring) => Ok(Buffer { ring }),
            Err(_) => Err(Memory),
        }
    }

    /// Puts a value behind the others. The oldest one goes where there would be more than `capacity`.
    pub fn push(&mut self, value: BriefValue)
        ensures { self.new ≡ kept (keep_last self.old.capacity (self.old.values ++ value ∷ [])) self.old.capacity }
    {
        self.ring.push_back(value);
    }

    /// The value that stands `k` places before the newest, which is at 0; `None` where there are not so many. The
    /// places of a buffer are below its capacity, which is 1 at least.
    pub fn back(&self, k: u32) -> Option<BriefValue>
        ensures capacity { 1 ≤ self.now.capacity }
        ensures value { result ≡ before_newest k self.now.values }
    {
        self.ring.nth_back(k as usize).copied()
    }

    /// How many values there are.
    pub fn len(&self) -> u32
        ensures length { result ≡ length self.now.values }
        ensures capacity { result ≤ self.now.capacity }
    {
        self.ring.len() as u32
    }
}
