// A sink of bytes in memory.
ghost use Rattle.std.specs.Prelude.{◌≡◌, ◌≤◌, Some, [], IfOk};
ghost use Rattle.desk_edge.specs.MemorySink.{put_answer, after_put, flush_answer, after_flush};

use crate::count::one_more;
use crate::{CallList, Failed, Sink};
use std::alloc::{AllocError, Global};
use std::marker::Model;

/// A buffer of fixed size, with a limit of bytes for each call and failing calls. Calls of `put` and `flush` are numbered
/// together, from 1. `new` allocates the buffer, and no other call allocates.
#[derive(Drop)]
pub struct MemorySink {
    bytes: Vec<u8>,
    // How many of the bytes were flushed.
    sent: usize,
    room: usize,
    most: usize,
    fails: CallList,
    calls: u64,
    faults: u64,
}

impl Model for MemorySink {
    ghost use Rattle.std.specs.Prelude.{◌≤◌, take, vec_len, vec_capacity};
    ghost use Rattle.desk_edge.specs.MemorySink.{SinkState};

    ghost Value = { SinkState };

    ghost view = { λ s. record {
      bytes = s.bytes.items;
      sent = take s.sent s.bytes.items;
      room = s.room;
      most = s.most;
      fails = s.fails;
      calls = s.calls;
      faults = s.faults;
    } };

    ghost invariant = { λ s.
        (1 ≤ s.most) × (s.sent ≤ vec_len s.bytes) × (vec_len s.bytes ≤ s.room) × (s.room ≤ vec_capacity s.bytes) };
}

impl MemorySink {
    /// Makes a sink with room for `room` bytes, of which a call takes at most `most`. The calls with the numbers in `fails` fail.
    ///
    /// # Errors
    ///
    /// `AllocError` where memory runs out.
    pub fn new(
        alloc: Global,
        room: usize,
        most: usize,
        fails: CallList,
    ) -> Result<MemorySink, AllocError>
        requires { 1 ≤ most }
        ensures { IfOk result (λ sink. sink ≡ record {
          bytes = [];
          sent = [];
          room = room;
          most = most;
          fails = fails;
          calls = 0;
          faults = 0;
        }) }
    {
        let bytes = Vec::with_capacity(alloc, room)?;
        Ok(MemorySink {
            bytes,
            sent: 0,
            room,
            most,
            fails,
            calls: 0,
            faults: 0,
        })
    }

    /// Returns the bytes that were put.
    pub fn bytes(&self) -> &[u8]
        ensures { result.now ≡ self.now.bytes }
    {
        &self.bytes
    }

    /// Returns the bytes that were flushed.
    pub fn sent(&self) -> &[u8]
        ensures { result.now ≡ self.now.sent }
    {
        &self.bytes.as_slice()[..self.sent]
    }

    /// Returns how many calls were made.
    pub fn calls(&self) -> u64
        ensures { result ≡ self.now.calls }
    {
        self.calls
    }

    /// Returns how many calls failed.
    pub fn faults(&self) -> u64
        ensures { result ≡ self.now.faults }
    {
        self.faults
    }

    /// See `Sink::put`. Fails exactly if the number of the call is listed, or if the piece is not empty and the buffer is full.
    pub fn put(&mut self, piece: &[u8]) -> Result<usize, Failed>
        ensures answer { result ≡ put_answer self.old piece.now }
        ensures state { self.new ≡ after_put self.old piece.now }
        ensures faults { self.old.faults ≤ self.new.faults }
        ensures some { 1 ≤ self.old.most }
    {
        self.calls = one_more(self.calls);
        let left = self.room - self.bytes.len();
        if self.fails.items().contains(&self.calls) || (!piece.is_empty() && left == 0) {
            self.faults = one_more(self.faults);
            return Err(Failed);
        }
        let count = piece.len().min(self.most).min(left);
        self.bytes.extend_from_slice(&piece[..count]).unwrap();
        Ok(count)
    }

    /// See `Sink::flush`. Fails exactly if the number of the call is listed.
    pub fn flush(&mut self) -> Result<(), Failed>
        ensures answer { result ≡ flush_answer self.old }
        ensures state { self.new ≡ after_flush self.old }
        ensures faults { self.old.faults ≤ self.new.faults }
    {
        self.calls = one_more(self.calls);
        if self.fails.items().contains(&self.calls) {
            self.faults = one_more(self.faults);
            return Err(Failed);
        }
        self.sent = self.bytes.len();
        Ok(())
    }
}

impl Sink for MemorySink {
    ghost bytes = { λ s. Some s.bytes };

    ghost sent = { λ s. Some s.sent };

    ghost faults = { λ s. s.faults };

    fn put(&mut self, piece: &[u8]) -> Result<usize, Failed> {
        MemorySink::put(self, piece)
    }

    fn flush(&mut self) -> Result<(), Failed> {
        MemorySink::flush(self)
    }
}
