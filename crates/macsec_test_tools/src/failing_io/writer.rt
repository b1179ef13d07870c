//! A writer that fails.

ghost use Rattle.std.specs.Prelude.{◌≡◌, [], IfOk, Some, false};
ghost use Rattle.std.specs.Io.KnownBytes.{Keeps, WriteAppends};
ghost use Rattle.std.specs.Io.{WritesAtMost};
ghost use Rattle.macsec_test_tools.specs.Calls.{fails_at};

use super::Fails;
use std::alloc::Global;
use std::io::{self, Write};

/// A writer to memory. It counts its calls, and the calls after it failed.
#[derive(Drop)]
pub struct FailingWriter {
    written: Vec<u8>,
    fails: Fails,
    calls: usize,
    has_failed: bool,
    calls_after: usize,
}

impl FailingWriter {
    /// A writer that has written nothing.
    pub fn new(alloc: Global, fails: Fails) -> FailingWriter
        ensures written { result.written.items ≡ [] }
        ensures fails { result.fails ≡ fails }
        ensures calls { result.calls ≡ 0 }
        ensures has_failed { result.has_failed ≡ false }
        ensures calls_after { result.calls_after ≡ 0 }
    {
        FailingWriter {
            written: Vec::new(alloc),
            fails,
            calls: 0,
            has_failed: false,
            calls_after: 0,
        }
    }

    /// What was written.
    pub fn written(&self) -> &[u8]
        ensures { result.now ≡ self.now.written.items }
    {
        self.written.as_slice()
    }

    /// The number of writes.
    pub fn calls(&self) -> usize
        ensures { result ≡ self.now.calls }
    {
        self.calls
    }

    /// The number of writes after it failed.
    pub fn calls_after(&self) -> usize
        ensures { result ≡ self.now.calls_after }
    {
        self.calls_after
    }
}

impl Write for FailingWriter {
    ghost contents = { λ writer. Some writer.written.items };

    fn write(&mut self, buf: &[u8]) -> io::Result<usize>
        ensures bound { WritesAtMost result buf.now }
        ensures bytes { WriteAppends (Some self.old.written.items) (Some self.new.written.items) result buf.now }
        ensures works { IfOk result (λ _. fails_at self.old.fails self.old.calls ≡ false) }
    {
        if self.has_failed {
            self.calls_after = self.calls_after.saturating_add(1);
        }
        let call = self.calls;
        self.calls = call.saturating_add(1);
        if self.fails.fails_at(call) {
            self.has_failed = true;
            return Err(io::Error::from(io::ErrorKind::Other));
        }
        self.written.extend_from_slice(buf)?;
        Ok(buf.len())
    }

    fn flush(&mut self) -> io::Result<()>
        ensures bytes { Keeps (Some self.old.written.items) (Some self.new.written.items) }
    {
        Ok(())
    }
}
