ghost use Rattle.std.specs.Prelude.{◌≡◌, ◌+◌, ◌<◌, ◌≤◌, ◌-◌, ◌^◌, min, [], ◌++◌, length, take, drop, Some, None, Ok, IfOk, OnErr};
ghost use Rattle.std.specs.Io.KnownBytes.{prepend_known, append_known, IsAtEnd};
ghost use Rattle.sw_tool.specs.Faults.{HasRisen};
ghost use Rattle.sw_tool.specs.Memory.{supplied, supply_after, fitting, stored, storage_after};

use crate::calls::Calls;
use crate::sink::Sink;
use crate::source::{Failed, Source};
use std::alloc::{AllocError, Global};
use std::marker::Model;

/// A source in memory that gives at most so many bytes a call, and fails at the calls that
/// are listed.
#[derive(Drop)]
pub struct MemSource {
    bytes: Vec<u8>,
    at: usize,
    most: usize,
    calls: Calls,
}

impl Model for MemSource {
    ghost use Rattle.std.specs.Prelude.{◌≤◌, length, drop};
    ghost use Rattle.sw_tool.specs.Memory.{Supply};

    ghost Value = { Supply };

    ghost view = { λ s. record { left = drop s.at s.bytes.items; most = s.most; calls = s.calls } };

    ghost invariant = { λ s. s.at ≤ length s.bytes.items };
}

impl MemSource {
    /// Over these bytes: gives at most `most` bytes a call, where 0 means 1. The calls of the
    /// numbers in `fails`, from 1, fail and raise the count. It takes no memory.
    pub fn new(bytes: Vec<u8>, fails: Vec<u64>, most: usize) -> MemSource
        ensures { result ≡ record { left = bytes.items; most = most; calls = record { fails = fails.items; made = 0; faults = 0 } } }
    {
        MemSource {
            bytes,
            at: 0,
            most,
            calls: Calls::new(fails),
        }
    }
}

impl Source for MemSource {
    ghost left = { λ s. Some s.left };

    ghost faults = { λ s. s.calls.faults };

    fn read(&mut self, buf: &mut [u8]) -> Result<usize, Failed>
        ensures answer { result ≡ supplied self.old (length buf.old) }
        ensures after { self.new ≡ supply_after self.old (length buf.old) }
        ensures bytes { IfOk result (λ n. take n buf.new ≡ take n self.old.left) }
        ensures within { IfOk result (λ n. n ≤ length buf.new) }
        ensures given { IfOk result (λ n. Some self.old.left ≡ prepend_known (take n buf.new) (Some self.new.left)) }
        ensures end { IfOk result (λ n. n ≡ 0 → 0 < length buf.new → IsAtEnd (Some self.new.left)) }
        ensures failed { OnErr result (Some self.new.left ≡ Some self.old.left) }
        ensures fault { OnErr result (HasRisen self.old.calls.faults self.new.calls.faults) }
        ensures counts { self.old.calls.faults ≤ self.new.calls.faults }
    {
        if self.calls.begin() {
            self.calls.fault();
            return Err(Failed);
        }
        let count = give(&self.bytes[self.at..], self.most.max(1), buf);
        self.at += count;
        Ok(count)
    }
}

/// A source in memory that gives all that fits, and never fails.
///
/// It means the bytes that are left.
#[derive(Drop)]
pub struct SureSource {
    bytes: Vec<u8>,
    at: usize,
}

impl Model for SureSource {
    ghost use Rattle.std.specs.Prelude.{ℕ, List, ◌≤◌, length, drop};

    ghost Value = { List ℕ };

    ghost view = { λ s. drop s.at s.bytes.items };

    ghost invariant = { λ s. s.at ≤ length s.bytes.items };
}

impl SureSource {
    /// Over these bytes. It takes no memory.
    pub fn new(bytes: Vec<u8>) -> SureSource
        ensures { result ≡ bytes.items }
    {
        SureSource { bytes, at: 0 }
    }
}

impl Source for SureSource {
    ghost left = { λ s. Some s };

    ghost faults = { λ _. 0 };

    fn read(&mut self, buf: &mut [u8]) -> Result<usize, Failed>
        ensures answer { result ≡ Ok (min (length buf.old) (length self.old)) }
        ensures within { IfOk result (λ n. n ≤ length buf.new) }
        ensures given { IfOk result (λ n. Some self.old ≡ prepend_known (take n buf.new) (Some self.new)) }
        ensures end { IfOk result (λ n. n ≡ 0 → 0 < length buf.new → IsAtEnd (Some self.new)) }
        ensures failed { OnErr result (Some self.new ≡ Some self.old) }
        ensures fault { OnErr result (HasRisen 0 0) }
        ensures counts { 0 ≤ 0 }
    {
        let count = give(&self.bytes[self.at..], usize::MAX, buf);
        self.at += count;
        Ok(count)
    }
}

/// A sink in memory that keeps so many bytes, and fails at the calls that are listed and at
/// those for which it has no room left.
///
/// It means the bytes that it took, how many it can take in all, and its calls.
#[derive(Drop)]
pub struct MemSink {
    bytes: Vec<u8>,
    room: usize,
    calls: Calls,
}

impl Model for MemSink {
    ghost use Rattle.std.specs.Prelude.{◌≤◌, vec_len, vec_capacity};
    ghost use Rattle.sw_tool.specs.Memory.{Storage};

    ghost Value = { Storage };

    ghost view = { λ s. record { taken = s.bytes.items; room = s.room; calls = s.calls } };

    ghost invariant = { λ s. (vec_len s.bytes ≤ s.room) × (s.room ≤ vec_capacity s.bytes) };
}

impl MemSink {
    /// Keeps up to `room` bytes, for which it takes the memory now. The calls of the numbers
    /// in `fails`, from 1, fail and raise the count, as does a call where no room is left.
    pub fn new(alloc: Global, room: usize, fails: Vec<u64>) -> Result<MemSink, AllocError>
        ensures { IfOk result (λ s. s ≡ record { taken = []; room = room; calls = record { fails = fails.items; made = 0; faults = 0 } }) }
    {
        Ok(MemSink {
            bytes: Vec::with_capacity(alloc, room)?,
            room,
            calls: Calls::new(fails),
        })
    }

    /// The bytes that it took. It takes no memory.
    pub fn bytes(&self) -> &[u8]
        ensures { result.now ≡ self.now.taken }
    {
        self.bytes.as_slice()
    }

    /// Takes as many of the bytes as there is room for.
    fn take(&mut self, piece: &[u8]) -> usize
        ensures count { result ≡ fitting self.old piece.now }
        ensures after { self.new ≡ record self.old { taken = self.old.taken ++ take (fitting self.old piece.now) piece.now } }
    {
        let count = piece.len().min(self.room - self.bytes.len());
        self.bytes.extend_from_slice(&piece[..count]).unwrap();
        count
    }
}

impl Sink for MemSink {
    ghost taken = { λ s. Some s.taken };

    ghost faults = { λ s. s.calls.faults };

    fn write(&mut self, piece: &[u8]) -> Result<usize, Failed>
        ensures answer { result ≡ stored self.old piece.now }
        ensures after { self.new ≡ storage_after self.old piece.now }
        ensures within { IfOk result (λ n. n ≤ length piece.now) }
        ensures some { IfOk result (λ n. 0 < length piece.now → 0 < n) }
        ensures taken { IfOk result (λ n. Some self.new.taken ≡ append_known (Some self.old.taken) (take n piece.now)) }
        ensures failed { OnErr result (Some self.new.taken ≡ Some self.old.taken) }
        ensures fault { OnErr result (HasRisen self.old.calls.faults self.new.calls.faults) }
        ensures counts { self.old.calls.faults ≤ self.new.calls.faults }
    {
        if self.calls.begin() || self.bytes.len() == self.room {
            self.calls.fault();
            return Err(Failed);
        }
        Ok(self.take(piece))
    }
}

/// A sink that takes everything, keeps nothing and never fails.
///
/// It means how many bytes it took; the number stands still at its type's end.
#[derive(Drop)]
pub struct CountSink {
    count: u64,
}

impl Model for CountSink {
    ghost use Rattle.std.specs.Prelude.{ℕ};

    ghost Value = { ℕ };

    ghost view = { λ s. s.count };
}

impl CountSink {
    /// It took nothing so far. It takes no memory.
    pub fn new() -> CountSink
        ensures { result ≡ 0 }
    {
        CountSink { count: 0 }
    }

    /// How many bytes it took. It takes no memory.
    pub fn count(&self) -> u64
        ensures { result ≡ self.now }
    {
        self.count
    }
}

impl Sink for CountSink {
    ghost taken = { λ _. None };

    ghost faults = { λ _. 0 };

    fn write(&mut self, piece: &[u8]) -> Result<usize, Failed>
        ensures answer { result ≡ Ok (length piece.now) }
        ensures after { self.new ≡ min (self.old + length piece.now) (2 ^ 64 - 1) }
        ensures within { IfOk result (λ n. n ≤ length piece.now) }
        ensures some { IfOk result (λ n. 0 < length piece.now → 0 < n) }
        ensures taken { IfOk result (λ n. None ≡ append_known None (take n piece.now)) }
        ensures fault { OnErr result (HasRisen 0 0) }
    {
        self.count = self.count.saturating_add(piece.len() as u64);
        Ok(piece.len())
    }
}

/// Copies to the buffer's start as many of the bytes as fit, at most so many.
fn give(bytes: &[u8], most: usize, buf: &mut [u8]) -> usize
    ensures count { result ≡ min (length buf.old) (min most (length bytes.now)) }
    ensures given { take result buf.new ≡ take result bytes.now }
{
    let count = buf.len().min(most.min(bytes.len()));
    buf[..count].copy_from_slice(&bytes[..count]);
    count
}
