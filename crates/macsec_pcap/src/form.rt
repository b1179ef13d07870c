//! The form of a capture file, which its magic number fixes: the byte order of its numbers, and the unit of its times.

ghost use Rattle.std.specs.Prelude.{◌≡◌, ◌≤◌, length};
ghost use Rattle.macsec_pcap.specs.Numbers.{number};
ghost use Rattle.macsec_pcap.specs.Header.{form_of, magic, resolution_of};

use byteorder::{BigEndian, ByteOrder, LittleEndian};

/// The magic number of a file with times in microseconds.
const MICRO_MAGIC: u32 = 0xa1b2_c3d4;

/// The magic number of a file with times in nanoseconds.
const NANO_MAGIC: u32 = 0xa1b2_3c4d;

/// The unit of the fraction of a second in a record's time.
#[derive(Clone, Copy, PartialEq, Eq, Debug)]
pub enum Resolution {
    /// Microseconds.
    Micro,
    /// Nanoseconds.
    Nano,
}

/// The byte order of a number.
#[derive(Clone, Copy)]
pub enum Order {
    /// Big endian.
    Big,
    /// Little endian.
    Little,
}

/// The form of a file, which its magic number fixes.
#[derive(Clone, Copy)]
pub(crate) struct Form {
    pub(crate) order: Order,
    pub(crate) resolution: Resolution,
}

impl Resolution {
    /// The magic number of a file of this resolution.
    pub(crate) fn magic(self) -> u32
        ensures { result ≡ magic self }
    {
        match self {
            Resolution::Micro => MICRO_MAGIC,
            Resolution::Nano => NANO_MAGIC,
        }
    }

    /// The resolution with this magic number.
    fn of_magic(magic: u32) -> Option<Resolution>
        ensures { result ≡ resolution_of magic }
    {
        match magic {
            MICRO_MAGIC => Some(Resolution::Micro),
            NANO_MAGIC => Some(Resolution::Nano),
            _ => None,
        }
    }
}

impl Order {
    /// The number in the first two octets.
    pub fn u16(self, octets: &[u8]) -> u16
        requires { 2 ≤ length octets.now }
        ensures { result ≡ number self 2 octets.now }
    {
        match self {
            Order::Big => BigEndian::read_u16(octets),
            Order::Little => LittleEndian::read_u16(octets),
        }
    }

    /// The number in the first four octets.
    pub fn u32(self, octets: &[u8]) -> u32
        requires { 4 ≤ length octets.now }
        ensures { result ≡ number self 4 octets.now }
    {
        match self {
            Order::Big => BigEndian::read_u32(octets),
            Order::Little => LittleEndian::read_u32(octets),
        }
    }

    /// The number in the first eight octets.
    pub fn u64(self, octets: &[u8]) -> u64
        requires { 8 ≤ length octets.now }
        ensures { result ≡ number self 8 octets.now }
    {
        match self {
            Order::Big => BigEndian::read_u64(octets),
            Order::Little => LittleEndian::read_u64(octets),
        }
    }
}

impl Form {
    /// The form that the first four octets name, if they are a magic number.
    pub(crate) fn of(octets: &[u8]) -> Option<Form>
        requires { 4 ≤ length octets.now }
        ensures { result ≡ form_of octets.now }
    {
        if let Some(resolution) = Resolution::of_magic(Order::Big.u32(octets)) {
            return Some(Form {
                order: Order::Big,
                resolution,
            });
        }
        let resolution = Resolution::of_magic(Order::Little.u32(octets))?;
        Some(Form {
            order: Order::Little,
            resolution,
        })
    }
}
