//! Key numbers.

ghost use Rattle.std.specs.Prelude.{◌≡◌, ◌<◌, ◌↔◌, IsSome, IfSome};
ghost use Rattle.macsec_suite.specs.KeyNumbers.{max_key_count};

use std::marker::Model;

/// The number of keys that an endpoint can have. Every key number is below it.
pub(crate) const MAX_KEY_COUNT: u16 = 4096;

/// The number by which SAs (secure associations) refer to a key of their endpoint, 0 to 4,095.
#[derive(Clone, Copy, PartialEq, Eq, Debug, Default)]
pub struct KeyNumber(pub(crate) u16);

impl Model for KeyNumber {
    ghost use Rattle.std.specs.Prelude.{ℕ, ◌<◌};
    ghost use Rattle.macsec_suite.specs.KeyNumbers.{max_key_count};

    ghost Value = { ℕ };

    ghost view = { λ k. k.0 };

    ghost invariant = { λ k. k.0 < max_key_count };

    ghost inverse = { λ n. record { 0 = n } };
}

impl KeyNumber {
    /// Returns the key number `n`, or `None` if `n` is above 4,095.
    pub fn new(n: u16) -> Option<KeyNumber>
        ensures valid { IsSome result ↔ (n < max_key_count) }
        ensures value { IfSome result (λ key. key ≡ n) }
    {
        if n < MAX_KEY_COUNT {
            Some(KeyNumber(n))
        } else {
            None
        }
    }

    /// The number, 0 to 4,095.
    pub fn number(self) -> u16
        ensures value { result ≡ self }
        ensures below { result < max_key_count }
    {
        self.0
    }
}
