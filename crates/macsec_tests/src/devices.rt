//! Failing devices. Shared by the tests: a script, and a capture in each direction with its configuration.

mod runs;

/// A script without a fault.
const SCRIPT: &str = "end A gcm128 12153524c0895e81 1518 sci\n\
    end B gcm128 0000000000000002 1518 auto\n\
    A key 0 ad7a2bd03eac835a6f620fdcb506b345 0\n\
    A txsa 2 0 1 int\n\
    A sendu ffffffffffff0200000000010800\n\
    A numbers\n";

/// The text that the script prints, in four lines.
const SCRIPT_TEXT: &str =
    "3 done\n4 done\n5 frame 0 ffffffffffff0200000000010800\n6 tx 2 0 0000000000000001 off int\n";

/// An endpoint that protects client frames for integrity, from packet number 1 on.
const SENDER: &str = "end A gcm128 0200000000010001 1518 sci\n\
    A key 0 ad7a2bd03eac835a6f620fdcb506b345 0\n\
    A txsa 0 0 1 int\n\
    A txon 0\n";

/// An endpoint that receives what the sender sends.
const RECEIVER: &str = "end A gcm128 0000000000000002 1518 auto\n\
    A key 0 ad7a2bd03eac835a6f620fdcb506b345 0\n\
    A rxsc 0200000000010001\n\
    A rxsa 0200000000010001 0 0 1\n\
    A rxon 0200000000010001 0\n";

/// A capture file in microseconds with a client frame of 14 octets twice: a header of 24 octets, and two records of 30.
const CLIENT: &[u8] =
    b"\xd4\xc3\xb2\xa1\x02\x00\x04\x00\x00\x00\x00\x00\x00\x00\x00\x00\xff\xff\x00\x00\x01\x00\x00\x00\
    \x00\x00\x00\x00\x00\x00\x00\x00\x0e\x00\x00\x00\x0e\x00\x00\x00\xff\xff\xff\xff\xff\xff\x02\x00\
    \x00\x00\x00\x01\x08\x00\
    \x00\x00\x00\x00\x00\x00\x00\x00\x0e\x00\x00\x00\x0e\x00\x00\x00\xff\xff\xff\xff\xff\xff\x02\x00\
    \x00\x00\x00\x01\x08\x00";

/// A capture file of what is sent for these two frames, with packet numbers 1 and 2: a header, and two records of 62.
/// OpenSSL computed their ICVs.
const LINK: &[u8] =
    b"\xd4\xc3\xb2\xa1\x02\x00\x04\x00\x00\x00\x00\x00\x00\x00\x00\x00\xff\xff\x00\x00\x01\x00\x00\x00\
    \x00\x00\x00\x00\x00\x00\x00\x00\x2e\x00\x00\x00\x2e\x00\x00\x00\xff\xff\xff\xff\xff\xff\x02\x00\
    \x00\x00\x00\x01\x88\xe5\x20\x02\x00\x00\x00\x01\x02\x00\x00\x00\x00\x01\x00\x01\x08\x00\x8e\x3d\
    \x3a\x0b\xba\x94\x02\xaa\xc2\x1a\x03\x9e\x88\x12\x69\xe6\
    \x00\x00\x00\x00\x00\x00\x00\x00\x2e\x00\x00\x00\x2e\x00\x00\x00\xff\xff\xff\xff\xff\xff\x02\x00\
    \x00\x00\x00\x01\x88\xe5\x20\x02\x00\x00\x00\x02\x02\x00\x00\x00\x00\x01\x00\x01\x08\x00\x71\x1a\
    \x35\x9b\x8f\x9a\x2b\x7c\x88\x0d\xca\x11\x96\xf4\x1d\x67";
