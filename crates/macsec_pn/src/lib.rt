//! Packet numbers (IEEE 802.1AE, 10.5 and 10.6).
//!
//! Proved: `TxNumbers::take` returns the next packet number and adds one to it. If all numbers up to the last are used,
//! it returns none and changes nothing. For `RxNumbers`: when a number is late; the effect of accepting, raising and
//! narrowing (`raise` requires a number that is not below the lowest acceptable one); and the packet number of a frame.
//! That is the PN of its SecTAG. With extended packet numbers it is what the recovery rule gives (`recovered_number`),
//! or none. So every number from 1 to 2^64 - 1 that is the lowest acceptable one, or less than 2^31 above it, is
//! recovered from its lower half.
#![tactic(auto)]

ghost use Rattle.std.specs.Prelude.{◌≡◌, ◌+◌, ◌%◌, ◌^◌, ◌<◌, ◌≤◌, ℕ, true, IfNone, OnSome, Some, SomeIff};
ghost use Rattle.macsec_pn.specs.Numbers.{accept, is_late, narrow, raise, recovered_number};

/// The next packet number of a transmit SA (secure association, 10.5.2).
#[derive(Clone, Copy, PartialEq, Eq, Debug)]
pub struct TxNumbers {
    pub next: u128,
}

impl TxNumbers {
    /// The number of an SA whose first packet number is `pn`.
    pub fn at(pn: u64) -> TxNumbers
        ensures { result.next ≡ pn }
    {
        TxNumbers {
            next: u128::from(pn),
        }
    }

    /// Returns the next packet number and marks it as used. If all numbers up to `last` are used, returns `None` and
    /// changes nothing.
    pub fn take(&mut self, last: u64) -> Option<u64>
        ensures taken { SomeIff result (self.old.next ≤ last) self.old.next }
        ensures used { OnSome result (self.new.next ≡ self.old.next + 1) }
        ensures unchanged { IfNone result (self.new ≡ self.old) }
    {
        if self.next > u128::from(last) {
            return None;
        }
        let pn = self.next as u64;
        self.next += 1;
        Some(pn)
    }
}

/// The packet numbers of a receive SA (10.6): the next one, which is above every number that was accepted, and the
/// lowest acceptable one.
#[derive(Clone, Copy, PartialEq, Eq, Debug)]
pub struct RxNumbers {
    pub next: u128,
    pub lowest: u128,
}

impl RxNumbers {
    /// The numbers of an SA whose lowest acceptable packet number is `pn`.
    pub fn at(pn: u64) -> RxNumbers
        ensures next { result.next ≡ pn }
        ensures lowest { result.lowest ≡ pn }
    {
        let number = u128::from(pn);
        RxNumbers {
            next: number,
            lowest: number,
        }
    }

    /// Returns the packet number of a frame, given the 32 bits of PN in its SecTAG.
    ///
    /// Without extended packet numbers (`xpn` is false) it is these bits, even if they are 0. With extended ones, `low`
    /// is its lower half. The upper half is the lowest acceptable number's, or one more if `low` is below 2^31 and the
    /// lower half of the lowest acceptable number is not. Returns `None` if the number is not from 1 to 2^64 - 1.
    pub fn recover(&self, xpn: bool, low: u32) -> Option<u64>
        ensures value { result ≡ recovered_number xpn self.now.lowest low }
        // The lowest acceptable number and the numbers less than 2^31 above it are recovered.
        ensures near { (n : ℕ) → xpn ≡ true → 1 ≤ n → n < 2 ^ 64 → self.now.lowest ≤ n → n < self.now.lowest + 2 ^ 31 →
            low ≡ n % 2 ^ 32 → result ≡ Some n }
    {
        if !xpn {
            return Some(u64::from(low));
        }
        let half: u128 = 1 << 31;
        let has_wrapped = u128::from(low) < half && self.lowest % (1 << 32) >= half;
        let lowest_upper = self.lowest / (1 << 32);
        let upper = if has_wrapped {
            lowest_upper + 1
        } else {
            lowest_upper
        };
        if upper > 0xffff_ffff {
            return None;
        }
        let number = upper * (1 << 32) + u128::from(low);
        if number == 0 {
            return None;
        }
        Some(number as u64)
    }

    /// Whether a packet number is below the lowest acceptable one.
    pub fn is_late(&self, pn: u64) -> bool
        ensures { result ≡ is_late self.now.lowest pn }
    {
        u128::from(pn) < self.lowest
    }

    /// Records that a frame with the packet number `pn` was accepted. `window` is the replay window.
    pub fn accept(&mut self, pn: u64, window: u64)
        ensures { self.new ≡ accept self.old pn window }
    {
        self.next = self.next.max(u128::from(pn) + 1);
        self.narrow(window);
    }

    /// Raises the lowest acceptable number to `pn`, which must not be below it.
    pub fn raise(&mut self, pn: u64)
        requires { self.old.lowest ≤ pn }
        ensures { self.new ≡ raise self.old pn }
    {
        self.lowest = u128::from(pn);
        self.next = self.next.max(u128::from(pn));
    }

    /// Raises the lowest acceptable number to the next one minus the window, if it is lower.
    pub fn narrow(&mut self, window: u64)
        ensures { self.new ≡ narrow self.old window }
    {
        let behind = self.next.saturating_sub(u128::from(window));
        self.lowest = self.lowest.max(behind);
    }
}
