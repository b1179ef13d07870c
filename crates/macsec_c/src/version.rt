//! The version of the library.

ghost use Rattle.std.specs.Prelude.{◌≡◌};
ghost use Rattle.macsec_c.specs.Version.{version};

/// This version as a number.
const VERSION: u32 = 1_001_000;

/// The version as a number: 1,000,000 times its first number, plus 1,000 times its second, plus its third.
#[unsafe(no_mangle)]
pub extern "C" fn macsec_version() -> u32
    ensures { result ≡ version }
{
    VERSION
}
