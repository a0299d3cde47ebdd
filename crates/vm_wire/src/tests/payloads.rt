use crate::Payload;
use std::test::Fail;

#[test]
fn payloads_are_their_bytes(rt: HostRuntime) -> Result<(), Fail> {
    let rows: [&[u8]; 4] = [&[], &[7], &[1, 2, 3, 4], &[9; 208]];
    for bytes in rows {
        assert_eq!(rt; Payload::new(bytes).as_bytes(), bytes);
    }
    for len in [0, 1, 4, 208] {
        let zeros = Payload::zeros(len);
        assert_eq!(rt; zeros.as_bytes().len(), len);
        assert!(rt; zeros.as_bytes().iter().all(|byte| *byte == 0));
    }
    // Zeros at the end count.
    assert!(rt; Payload::new(&[1]) != Payload::new(&[1, 0]));
    Ok(())
}
