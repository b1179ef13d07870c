//! The frames that were sent under each key and delivered from each SA.

use super::world_after;
use macsec_link::{End, KeyNumber, World};
use std::process::Abort;
use std::test::Fail;

/// A sends frames 0 and 1 under the first key, and frame 2 and then frame 3, from its uncontrolled port, under the
/// second. B receives frame 0 twice and frame 1, then frame 2, which it receives again on an SA that is created again.
const ROLLOVER: &str = "end A gcm128 12153524c0895e81 1518 sci
end B gcm128 0000000000000002 1518 auto
A key 0 ad7a2bd03eac835a6f620fdcb506b345 0
A txsa 0 0 1 int
A txon 0
B key 0 ad7a2bd03eac835a6f620fdcb506b345 0
B rxsc 12153524c0895e81
B rxsa 12153524c0895e81 0 0 1
B rxon 12153524c0895e81 0
A send ffffffffffff0200000000010800
A send ffffffffffff0200000000010801
B deliver 0
B deliver 1
B deliver 0
A key 1 ad7a2bd03eac835a6f620fdcb506b344 0
A txsa 1 1 1 int
A txon 1
B key 1 ad7a2bd03eac835a6f620fdcb506b344 0
B rxsa 12153524c0895e81 1 1 1
B rxon 12153524c0895e81 1
A send ffffffffffff0200000000010802
B deliver 2
A sendu ffffffffffff0200000000010803
B rxdel 12153524c0895e81 1
B rxsa 12153524c0895e81 1 1 1
B rxon 12153524c0895e81 1
B deliver 2
";

/// The octets of a client frame, except the last.
const CLIENT: [u8; 13] = [0xff, 0xff, 0xff, 0xff, 0xff, 0xff, 2, 0, 0, 0, 0, 1, 8];

/// The frames that each end sent under each key, by their last octets.
const SENT: [(End, u8, &[u8]); 4] = [
    (End::A, 0, &[0, 1]),
    (End::A, 1, &[2]),
    (End::A, 2, &[]),
    (End::B, 0, &[]),
];

/// The frames that each end delivered from each SA that it ever had, by their last octets.
const DELIVERED: [(End, usize, Option<&[u8]>); 5] = [
    (End::B, 0, Some(&[0, 1])),
    (End::B, 1, Some(&[2])),
    (End::B, 2, Some(&[2])),
    (End::B, 3, None),
    (End::A, 0, None),
];

/// Whether this is the client frame with this last octet.
fn is_client(frame: &[u8], last: u8) -> bool {
    frame.len() == 14 && frame.starts_with(&CLIENT) && frame.ends_with(&[last])
}

/// Whether these are the frames of a log.
fn is_log(log: Option<&[Vec<u8>]>, clients: Option<&[u8]>) -> bool {
    match (log, clients) {
        (Some(log), Some(clients)) => log.len() == clients.len()
            && log
                .iter()
                .zip(clients)
                .all(|(frame, last)| is_client(frame.as_slice(), *last)),
        (None, None) => true,
        _ => false,
    }
}

fn key_number(number: u8) -> KeyNumber {
    KeyNumber::new(u16::from(number)).unwrap()
}

fn assert_logs(rt: &impl Abort, world: &World) {
    for (end, key, clients) in SENT {
        assert!(rt;
            is_log(Some(world.sent(end, key_number(key))), Some(clients)),
            "{key}"
        );
    }
    for (end, number, clients) in DELIVERED {
        assert!(rt; is_log(world.delivered(end, number), clients), "{number}");
    }
}

/// A receive SA that is created again starts a new log. A late frame and a frame from the uncontrolled port are in no
/// log.
///
/// Finds the mistake: An event on the link always reports that it is out of memory.
#[test]
fn rollover(rt: HostRuntime) -> Result<(), Fail> {
    let world = world_after(&rt, rt.alloc(), ROLLOVER)?;
    assert_logs(&rt, &world);
    Ok(())
}
