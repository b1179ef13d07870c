//! A reader that fails.

ghost use Rattle.std.specs.Prelude.{◌≡◌, Some, false, is_err, length};
ghost use Rattle.std.specs.Io.KnownBytes.{ReadConsumes};
ghost use Rattle.std.specs.Io.{ReadsAtMost};
ghost use Rattle.macsec_test_tools.specs.Calls.{fails_at};

use super::Fails;
use std::io::{self, Read};

/// A reader over octets, with a maximum number of octets a call, which is at least one. A failing call returns the
/// error `Interrupted`, and reads nothing. The reader counts its calls, and the calls after it failed or was at its
/// end.
#[derive(Drop)]
pub struct FailingReader<'a> {
    rest: &'a [u8],
    piece: usize,
    fails: Fails,
    calls: usize,
    has_ended: bool,
    calls_after: usize,
}

impl<'a> FailingReader<'a> {
    /// A reader over these octets that returns at most `piece` octets a call.
    pub fn new(octets: &'a [u8], piece: usize, fails: Fails) -> FailingReader<'a>
        ensures rest { result.rest.now ≡ octets.now }
        ensures piece { result.piece ≡ piece }
        ensures fails { result.fails ≡ fails }
        ensures calls { result.calls ≡ 0 }
        ensures has_ended { result.has_ended ≡ false }
        ensures calls_after { result.calls_after ≡ 0 }
    {
        FailingReader {
            rest: octets,
            piece,
            fails,
            calls: 0,
            has_ended: false,
            calls_after: 0,
        }
    }

    /// The number of calls.
    pub fn calls(&self) -> usize
        ensures { result ≡ self.now.calls }
    {
        self.calls
    }

    /// The number of calls after it failed or was at its end.
    pub fn calls_after(&self) -> usize
        ensures { result ≡ self.now.calls_after }
    {
        self.calls_after
    }
}

impl Read for FailingReader<'_> {
    ghost remaining = { λ reader. Some reader.rest.now };

    fn read(&mut self, buf: &mut [u8]) -> io::Result<usize>
        ensures bound { ReadsAtMost result buf.new }
        ensures bytes { ReadConsumes (Some self.old.rest.now) (Some self.new.rest.now) result buf.new }
        ensures fails { is_err result ≡ fails_at self.old.fails self.old.calls }
    {
        if self.has_ended {
            self.calls_after = self.calls_after.saturating_add(1);
        }
        let call = self.calls;
        self.calls = call.saturating_add(1);
        if self.fails.fails_at(call) {
            self.has_ended = true;
            return Err(io::Error::from(io::ErrorKind::Interrupted));
        }
        let count = self.rest.len().min(buf.len()).min(self.piece.max(1));
        buf[..count].copy_from_slice(&self.rest[..count]);
        self.rest = &self.rest[count..];
        self.has_ended |= count == 0;
        Ok(count)
    }
}
