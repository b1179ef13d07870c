//! Readers and writers over memory that fail at chosen calls.

mod reader;
mod writer;

ghost use Rattle.std.specs.Prelude.{◌≡◌};
ghost use Rattle.macsec_test_tools.specs.Calls.{fails_at};

pub use reader::FailingReader;
pub use writer::FailingWriter;

/// Which calls of a device fail. Calls are numbered from 0.
#[derive(Clone, Copy, Debug)]
pub enum Fails {
    /// No call fails.
    Never,
    /// The call of this number fails, and no other.
    At(usize),
    /// The calls from this number on fail.
    From(usize),
}

impl Fails {
    /// Whether the call of this number fails.
    pub fn fails_at(self, call: usize) -> bool
        ensures { result ≡ fails_at self call }
    {
        match self {
            Fails::Never => false,
            Fails::At(number) => call == number,
            Fails::From(number) => call >= number,
        }
    }
}
