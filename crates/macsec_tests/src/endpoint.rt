//! That an endpoint is made of a configuration without a fault, if there is memory; and the frame at the uncontrolled
//! port, which no script prints.

use macsec_secy::{EndConfig, Sci, Secy, Suite, TagForm};

const CONFIG: EndConfig = EndConfig {
    suite: Suite::Gcm128,
    sci: Sci([0x12, 0x15, 0x35, 0x24, 0xc0, 0x89, 0x5e, 0x81]),
    max_frame: 1518,
    form: TagForm::Sci,
};

/// Configurations at the limits make an endpoint. `Secy::new` says which fault others have.
///
/// Finds the mistake: A new endpoint always reports that it is out of memory.
///
/// Finds the mistake: The table of keys always reports that it is out of memory.
#[test]
fn configurations(rt: HostRuntime) {
    for (max_frame, port, form) in [
        (64, 0x81, TagForm::Sci),
        (9248, 0x81, TagForm::Auto),
        (1518, 1, TagForm::Es),
        (1518, 0, TagForm::Scb),
    ] {
        let config = EndConfig {
            sci: Sci([2, 0, 0, 0, 0, 1, 0, port]),
            max_frame,
            form,
            ..CONFIG
        };
        assert!(rt; Secy::new(rt.alloc(), config).is_ok());
    }
}

/// A frame without a SecTAG, which a new endpoint drops.
const FRAME: [u8; 14] = [0xff, 0xff, 0xff, 0xff, 0xff, 0xff, 2, 0, 0, 0, 0, 1, 8, 0];

/// Whether this link frame is shown unchanged at the uncontrolled port alone.
fn is_shown(secy: &mut Secy, frame: &[u8]) -> bool {
    match secy.receive(frame) {
        Ok(received) => received.uncontrolled == frame && received.controlled.is_none(),
        Err(_) => false,
    }
}

#[test]
fn uncontrolled_port(rt: HostRuntime) {
    let mut secy = Secy::new(rt.alloc(), CONFIG).expect(&rt, "an endpoint");
    assert!(rt; is_shown(&mut secy, &FRAME));
}
