// A feed over bytes in memory.
ghost use Rattle.std.specs.Prelude.{◌≡◌, ◌≤◌, Some, length, take, IfOk};
ghost use Rattle.desk_edge.specs.MemoryFeed.{most_of, take_answer, after_take};

use crate::count::one_more;
use crate::{CallList, Failed, Feed, SizeList};
use std::marker::Model;

/// Bytes in memory that arrive in pieces of given sizes, with failing calls. Calls are numbered from 1. Each call that does
/// not fail uses the next size, of which 0 counts as 1. Without a size left, a call fills the buffer.
#[derive(Drop)]
pub struct MemoryFeed {
    bytes: Vec<u8>,
    place: usize,
    sizes: SizeList,
    turn: usize,
    fails: CallList,
    calls: u64,
    faults: u64,
}

impl Model for MemoryFeed {
    ghost use Rattle.std.specs.Prelude.{◌≤◌, drop, length, vec_len};
    ghost use Rattle.desk_edge.specs.MemoryFeed.{FeedState};

    ghost Value = { FeedState };

    ghost view = { λ s. record {
      rest = drop s.place s.bytes.items;
      sizes = drop s.turn s.sizes;
      fails = s.fails;
      calls = s.calls;
      faults = s.faults;
    } };

    ghost invariant = { λ s. (s.place ≤ vec_len s.bytes) × (s.turn ≤ length s.sizes) };
}

impl MemoryFeed {
    /// Makes a feed of these bytes, piece sizes and numbers of failing calls.
    pub fn new(bytes: Vec<u8>, sizes: SizeList, fails: CallList) -> MemoryFeed
        ensures { result ≡ record {
          rest = bytes.items;
          sizes = sizes;
          fails = fails;
          calls = 0;
          faults = 0;
        } }
    {
        MemoryFeed {
            bytes,
            place: 0,
            sizes,
            turn: 0,
            fails,
            calls: 0,
            faults: 0,
        }
    }

    /// Returns how many calls were made.
    pub fn calls(&self) -> u64
        ensures { result ≡ self.now.calls }
    {
        self.calls
    }

    /// Returns how many calls failed.
    pub fn faults(&self) -> u64
        ensures { result ≡ self.now.faults }
    {
        self.faults
    }

    /// See `Feed::take`. Fails exactly if the number of the call is listed.
    pub fn take(&mut self, buf: &mut [u8]) -> Result<usize, Failed>
        ensures answer { result ≡ take_answer self.old (length buf.old) }
        ensures state { self.new ≡ after_take self.old (length buf.old) }
        ensures bytes { IfOk result (λ count. take count buf.new ≡ take count self.old.rest) }
        ensures faults { self.old.faults ≤ self.new.faults }
    {
        self.calls = one_more(self.calls);
        if self.fails.items().contains(&self.calls) {
            self.faults = one_more(self.faults);
            return Err(Failed);
        }
        let (_, sizes) = self.sizes.items().split_at(self.turn);
        let (_, rest) = self.bytes.as_slice().split_at(self.place);
        let count = most_of(sizes, buf.len()).min(rest.len());
        buf[..count].copy_from_slice(&rest[..count]);
        self.place += count;
        if !sizes.is_empty() {
            self.turn += 1;
        }
        Ok(count)
    }
}

impl Feed for MemoryFeed {
    ghost content = { λ s. Some s.rest };

    ghost faults = { λ s. s.faults };

    fn take(&mut self, buf: &mut [u8]) -> Result<usize, Failed> {
        MemoryFeed::take(self, buf)
    }
}

// Returns the greatest length of the next piece.
fn most_of(sizes: &[usize], room: usize) -> usize
    ensures { result ≡ most_of sizes.now room }
{
    match sizes {
        [] => room,
        [size, ..] => room.min((*size).max(1)),
    }
}
