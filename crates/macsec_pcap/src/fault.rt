//! Why a capture file can't be read or written.

ghost use Rattle.std.specs.Prelude.{◌≡◌};
ghost use Rattle.macsec_pcap.specs.FaultNumbers.{name_of_fault, number_of_fault};

use thiserror::Error;

/// Why a capture file can't be read or written. A reader or writer that has returned a fault returns it from every
/// later call.
#[derive(Clone, Copy, PartialEq, Eq, Debug, Error)]
pub enum PcapFault {
    /// The file, or a section of it, begins with none of the format's magic numbers in either byte order.
    #[error("the file begins with no magic number of the format")]
    Magic = 1,
    /// The version is not one of the format: 2.4 (pcap), 1.0 or 1.2 (pcapng).
    #[error("the version is not one of the format")]
    Version = 2,
    /// The link type is not Ethernet.
    #[error("the link type is not that of Ethernet")]
    LinkType = 3,
    /// The file has fewer octets than its header.
    #[error("the file ends within its header")]
    CutHeader = 4,
    /// The file ends within a record.
    #[error("the file ends within a record")]
    CutRecord = 5,
    /// A record has more than 262,144 captured octets.
    #[error("a record is too long")]
    RecordLength = 6,
    /// The reader failed.
    #[error("the file can't be read")]
    Read = 7,
    /// The writer failed.
    #[error("the file can't be written")]
    Write = 8,
    /// Out of memory.
    #[error("out of memory")]
    Memory = 9,
    /// The file goes on after 16,777,216 records, or has too many blocks.
    #[error("the file has too many records")]
    RecordCount = 10,
    /// The two lengths of a block differ, or the length is not a multiple of four or too small for the block's
    /// contents. Or a description of an interface is too long, or has an option of a wrong length.
    #[error("a block has a wrong length")]
    BlockLength = 11,
    /// A packet names an interface that its section does not describe.
    #[error("a packet's interface is not described")]
    NoInterface = 12,
    /// A section describes more than 256 interfaces.
    #[error("a section has too many interfaces")]
    InterfaceCount = 13,
    /// A time is before 1970, or its seconds have more than 32 bits.
    #[error("a time is out of range")]
    Time = 14,
}

impl PcapFault {
    /// The number of the fault, 1 to 14.
    pub fn number(self) -> u8
        ensures { result ≡ number_of_fault self }
    {
        self as u8
    }

    /// The name of the fault.
    pub fn name(self) -> &'static str
        ensures { result.now ≡ name_of_fault self }
    {
        match self {
            PcapFault::Magic => "Magic",
            PcapFault::Version => "Version",
            PcapFault::LinkType => "LinkType",
            PcapFault::CutHeader => "CutHeader",
            PcapFault::CutRecord => "CutRecord",
            PcapFault::RecordLength => "RecordLength",
            PcapFault::Read => "Read",
            PcapFault::Write => "Write",
            PcapFault::Memory => "Memory",
            PcapFault::RecordCount => "RecordCount",
            PcapFault::BlockLength => "BlockLength",
            PcapFault::NoInterface => "NoInterface",
            PcapFault::InterfaceCount => "InterfaceCount",
            PcapFault::Time => "Time",
        }
    }
}
