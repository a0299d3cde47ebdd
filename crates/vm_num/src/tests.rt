use super::*;

// A ring's descriptor: 8 readable bytes at the start of page 16, with the descriptor 1 after it.
const DESCRIPTOR: [u8; 16] = [0, 0, 1, 0, 0, 0, 0, 0, 8, 0, 0, 0, 1, 0, 1, 0];

#[test]
fn a_descriptor_is_read_and_written(rt: HostRuntime) {
    assert_eq!(rt; le64(&DESCRIPTOR, 0), 0x10000);
    assert_eq!(rt; le32(&DESCRIPTOR, 8), 8);
    assert_eq!(rt; le16(&DESCRIPTOR, 12), 1);
    assert_eq!(rt; le16(&DESCRIPTOR, 14), 1);

    let mut written = [0; 16];
    put64(&mut written, 0, 0x10000);
    put32(&mut written, 8, 8);
    put16(&mut written, 12, 1);
    put16(&mut written, 14, 1);
    assert_eq!(rt; written, DESCRIPTOR);
}

#[test]
fn pages_and_ring_places(rt: HostRuntime) {
    for (len, want) in [
        (0, 0),
        (1, 1),
        (4096, 1),
        (4097, 2),
        (921_600, 225),
        (929_791, 227),
    ] {
        assert_eq!(rt; pages_of(len), want, "at {len}");
    }
    // The used rings of queues of 16 and 64 descriptors begin where the available rings end.
    for (end, want) in [(294, 296), (1158, 1160), (1160, 1160)] {
        assert_eq!(rt; align_up(end, 4), want, "at {end}");
    }
}
