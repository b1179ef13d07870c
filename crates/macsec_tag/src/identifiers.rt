//! The SCI and the association number: who sends, and under which SA.

ghost use Rattle.std.specs.Prelude.{◌≡◌, ◌<◌, ◌↔◌, ℕ, IsSome, IfSome};

use std::marker::Model;

/// A secure channel identifier: a MAC address of 6 octets and a port identifier of 2 (9.9).
#[derive(Clone, Copy, PartialEq, Eq, Debug, Default)]
pub struct Sci(pub [u8; 8]);

/// The number of association numbers, which is also the number of SAs that an SC can have (9.6).
pub const ASSOCIATION_COUNT: usize = 4;

/// An association number, 0 to 3 (9.6).
#[derive(Clone, Copy, PartialEq, Eq, Debug, Default)]
pub struct An(pub(crate) u8);

impl Model for An {
    ghost Value = { ℕ };

    ghost view = { λ a. a.0 };

    ghost invariant = { λ a. a.0 < 4 };

    ghost inverse = { λ n. record { 0 = n } };
}

impl An {
    /// Returns the association number `n`, or `None` if `n` is above 3.
    pub fn new(n: u8) -> Option<An>
        ensures valid { IsSome result ↔ (n < 4) }
        ensures value { IfSome result (λ an. an ≡ n) }
    {
        if usize::from(n) < ASSOCIATION_COUNT {
            Some(An(n))
        } else {
            None
        }
    }

    /// The number, 0 to 3.
    pub fn number(self) -> u8
        ensures value { result ≡ self }
        ensures below { result < 4 }
    {
        self.0
    }
}
