//! The standard streams: the edge that is trusted. They tell no content.

ghost use Rattle.std.specs.Prelude.{◌≡◌, ◌<◌, ◌≤◌, None, length, IfOk, IfErr};

use crate::sink::Sink;
use crate::source::{Failed, Source};
use std::io::{ErrorKind, Read, Stderr, Stdin, Stdout, Write};
use std::marker::Model;

/// Standard input. It means its count of faults, which stands still at its type's end.
#[derive(Drop)]
pub struct StdSource {
    stream: Stdin,
    faults: u64,
}

impl Model for StdSource {
    ghost use Rattle.std.specs.Prelude.{ℕ};

    ghost Value = { ℕ };

    ghost view = { λ s. s.faults };
}

impl StdSource {
    /// Over that stream, without a fault so far.
    pub fn new(stream: Stdin) -> StdSource
        ensures { result ≡ 0 }
    {
        StdSource { stream, faults: 0 }
    }
}

impl Source for StdSource {
    ghost left = { λ _. None };

    ghost faults = { λ n. n };

    fn read(&mut self, buf: &mut [u8]) -> Result<usize, Failed> {
        let answer = read_once(&mut self.stream, buf);
        if answer.is_err() {
            self.faults = self.faults.saturating_add(1);
        }
        answer
    }
}

/// A standard stream that is written. It means its count of faults, which stands still at
/// its type's end.
#[derive(Drop)]
pub struct StdWriter<W> {
    stream: W,
    faults: u64,
}

/// Standard output.
pub type StdSink = StdWriter<Stdout>;

/// Standard error.
pub type StdNotes = StdWriter<Stderr>;

impl<W> Model for StdWriter<W> {
    ghost use Rattle.std.specs.Prelude.{ℕ};

    ghost Value = { ℕ };

    ghost view = { λ s. s.faults };
}

impl<W> StdWriter<W> {
    /// Over that stream, without a fault so far.
    pub fn new(stream: W) -> StdWriter<W>
        ensures { result ≡ 0 }
    {
        StdWriter { stream, faults: 0 }
    }
}

impl<W: Write> Sink for StdWriter<W> {
    ghost taken = { λ _. None };

    ghost faults = { λ n. n };

    fn write(&mut self, piece: &[u8]) -> Result<usize, Failed> {
        let answer = write_once(&mut self.stream, piece);
        if answer.is_err() {
            self.faults = self.faults.saturating_add(1);
        }
        answer
    }
}

/// One read, made again where it was interrupted.
fn read_once<R: Read>(stream: &mut R, buf: &mut [u8]) -> Result<usize, Failed>
    ensures { IfOk result (λ n. n ≤ length buf.new) }
{
    for _ in 0..u64::MAX {
        match stream.read(buf) {
            Ok(count) => return Ok(count),
            Err(error) => {
                if error.kind() != ErrorKind::Interrupted {
                    break;
                }
            }
        }
    }
    Err(Failed)
}

/// One write, made again where it was interrupted, and a flush. A write that takes nothing of
/// a piece that isn't empty failed.
fn write_once<W: Write>(stream: &mut W, piece: &[u8]) -> Result<usize, Failed>
    ensures within { IfOk result (λ n. n ≤ length piece.now) }
    ensures some { IfOk result (λ n. 0 < length piece.now → 0 < n) }
{
    for _ in 0..u64::MAX {
        match stream.write(piece) {
            Ok(count) => {
                let done = count > 0 || piece.is_empty();
                return if done && stream.flush().is_ok() {
                    Ok(count)
                } else {
                    Err(Failed)
                };
            }
            Err(error) => {
                if error.kind() != ErrorKind::Interrupted {
                    break;
                }
            }
        }
    }
    Err(Failed)
}
