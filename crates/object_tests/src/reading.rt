// An object of 51 bytes: read, cut at each place, and with one byte changed.
use object_reader::{ObjectFault, read_object};
use std::test::Fail;

/// One query `open`, which opens the state, an authenticated unit.
const OPEN: [u8; 51] = [
    0x4C, 0x41, 0x4F, 0x31, 0, 0, 0, 2, 0x00, 0x06, 0, 0, 0, 0, 0, 0, 0, 1, 0, 1, 2, 4, 0x6F, 0x70,
    0x65, 0x6E, 2, 0, 0, 0, 1, 0, 0, 0, 0, 0, 0, 0, 0, 0, 0, 0, 3, 0x04, 0, 0x11, 0, 0, 0, 0, 0x0F,
];

#[test]
fn an_object_is_read(rt: HostRuntime) -> Result<(), Fail> {
    let object = read_object(rt.alloc(), &OPEN)
        .ok()
        .ok_or("the bytes are an object")?;
    assert_eq!(rt; object.types.len(), 2);
    assert_eq!(rt; object.state, 1);
    assert_eq!(rt; object.functions.len(), 1);
    for function in &object.functions {
        assert_eq!(rt; function.parameters.as_slice(), [1, 0].as_slice());
        assert_eq!(rt; function.code.len(), 3);
        for role in &function.role {
            assert_eq!(rt; role.name, b"open".as_slice());
        }
    }
    Ok(())
}

#[test]
fn each_front_is_cut(rt: HostRuntime) {
    for n in 0..51 {
        assert!(rt;
            matches!(read_object(rt.alloc(), &OPEN[..n]), Err(ObjectFault::Cut(m)) if m == n)
        );
    }
}

#[test]
fn a_field_that_is_not_allowed_is_told(rt: HostRuntime) {
    let mut bytes = OPEN;
    bytes[9] = 7;
    assert!(rt;
        matches!(
            read_object(rt.alloc(), &bytes),
            Err(ObjectFault::BadField(9))
        )
    );
    let mut bytes = OPEN;
    bytes[0] = 0;
    assert!(rt;
        matches!(
            read_object(rt.alloc(), &bytes),
            Err(ObjectFault::BadField(0))
        )
    );
    let mut bytes = OPEN;
    bytes[22] = b'O';
    assert!(rt;
        matches!(
            read_object(rt.alloc(), &bytes),
            Err(ObjectFault::BadField(21))
        )
    );
    let mut bytes = OPEN;
    bytes[9] = 0;
    assert!(rt;
        matches!(
            read_object(rt.alloc(), &bytes),
            Err(ObjectFault::BadField(9))
        )
    );
}
