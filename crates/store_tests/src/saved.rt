// The one image of a state, whatever image it was loaded from.
use crate::large::{LISTS, TREES, list_image, tree_image};
use crate::stage::{image, is_saved_as, program_of};
use std::test::Fail;

/// A program whose state is a pair of authenticated bools.
const PAIR: &[u8] = b"state (auth bool, auth bool);";

/// A program whose state has parts of each kind.
const SHAPES: &[u8] = b"type shape = Dot | Box(int, text); state (shape, (unit, auth bool));";

/// How many records there are, and their bytes.
type Records = (u32, &'static [u8]);

/// The records of `(auth true, auth true)`.
const TRUE_TRUE: Records = (3, b"\x01\x01\x06\0\0\0\0\x04\0\0\0\x01\0\0\0\x01");

/// The records of `(auth true, auth false)`.
const TRUE_FALSE: Records = (
    5,
    b"\x01\x01\x06\0\0\0\0\x01\0\x06\0\0\0\x02\x04\0\0\0\x01\0\0\0\x03",
);

/// The records of `(Box(-2, "ab"), ((), auth false))`, and of `(Dot, ((), auth false))`.
const BOX: Records = (
    8,
    b"\x02\xff\xff\xff\xff\xff\xff\xff\xfe\x03\0\0\0\x02ab\x05\0\0\x01\0\0\0\0\0\0\0\x01\0\x01\0\x06\0\0\0\x04\x04\0\0\0\x03\0\0\0\x05\x04\0\0\0\x02\0\0\0\x06",
);

const DOT: Records = (
    6,
    b"\x05\0\0\0\0\x01\0\x06\0\0\0\x02\x04\0\0\0\x01\0\0\0\x03\x04\0\0\0\0\0\0\0\x04",
);

/// A program, the records of an image, and those that are saved for its state.
static SAVED: [(&[u8], Records, Records); 7] = [
    (PAIR, TRUE_TRUE, TRUE_TRUE),
    // equal parts are saved once
    (
        PAIR,
        (
            5,
            b"\x01\x01\x01\x01\x06\0\0\0\0\x06\0\0\0\x01\x04\0\0\0\x02\0\0\0\x03",
        ),
        TRUE_TRUE,
    ),
    (PAIR, TRUE_FALSE, TRUE_FALSE),
    // parts are saved from left to right
    (
        PAIR,
        (
            5,
            b"\x01\0\x06\0\0\0\0\x01\x01\x06\0\0\0\x02\x04\0\0\0\x03\0\0\0\x01",
        ),
        TRUE_FALSE,
    ),
    // records that are no parts are left out
    (
        PAIR,
        (4, b"\x01\0\x01\x01\x06\0\0\0\x01\x04\0\0\0\x02\0\0\0\x02"),
        TRUE_TRUE,
    ),
    // each kind of record
    (SHAPES, BOX, BOX),
    (SHAPES, DOT, DOT),
];

#[test]
fn a_state_has_one_image(rt: HostRuntime) -> Result<(), Fail> {
    let alloc = rt.alloc();
    for (number, (text, (count, records), (saved_count, saved))) in SAVED.iter().enumerate() {
        let program = program_of(alloc, text)?;
        let from = image(alloc, *count, records)?;
        let wanted = image(alloc, *saved_count, saved)?;
        if !is_saved_as(alloc, &program, &from, &wanted) {
            return Err(Fail::new(format_args!("row {number}")));
        }
    }
    Ok(())
}

#[test]
fn two_to_the_thirtieth_leaves(rt: HostRuntime) -> Result<(), Fail> {
    let alloc = rt.alloc();
    let program = program_of(alloc, TREES)?;
    let tree = tree_image(alloc, 30)?;
    assert!(rt; is_saved_as(alloc, &program, &tree, &tree));
    Ok(())
}

#[test]
fn a_list_of_many_elements(rt: HostRuntime) -> Result<(), Fail> {
    let alloc = rt.alloc();
    let program = program_of(alloc, LISTS)?;
    let list = list_image(alloc, 1_000)?;
    assert!(rt; is_saved_as(alloc, &program, &list, &list));
    Ok(())
}
