// Programs of the second format with a state that is an array: verified, made and kept.
use cli_stage::runs::{Call, kept, made, verified};
use cli_stage::stage::HEADER;
use std::test::Fail;

/// A program whose state is an array of two ints.
const PAIR: &[u8] = b"format 2;
state vec[2] int;
init make(x: vec[2] int): vec[2] int = x;
query at(s: vec[2] int, i: int): int = vget(s, i);
query all(s: vec[2] int, x: unit): vec[2] int = s;
update set(s: vec[2] int, e: (int, int)): (vec[2] int, unit) = (vput(s, fst(e), snd(e)), ());
";

/// The spelling of its state of 7 and 9.
const BOTH: &[u8] = b"\0\0\0\0\0\0\0\x07\0\0\0\0\0\0\0\x09";

/// The image of this state: the magic, the digest of the text, as Python's hashlib computes it, the two ints and the array.
const BOTH_IMAGE: &[u8] =
    b"LAI2\x7f\xf4\xd1*\xf7r\x0e\xd5\xc8\x9cxW\xfe\xd6[\xa9\x87\xd5\xec\xcd(\x88\xf8\xb3\xd0\xa9\xcftw\xe0a/\0\0\0\x03\x02\0\0\0\0\0\0\0\x07\x02\0\0\0\0\0\0\0\x09\x07\x02\0\0\0\0\0\0\0\x01";

/// The proof of the second format that opens nothing.
const SECOND_HEADER: &[u8] = b"LAP2\0\0";

/// A role, its argument and a proof, with the status and the line.
type Row = (&'static str, &'static str, &'static [u8], u8, &'static str);

/// Calls on this state, whose elements are numbered from 0.
const CALLS: [Row; 13] = [
    ("at", "0", SECOND_HEADER, 0, "done 7\n"),
    ("at", "1", SECOND_HEADER, 0, "done 9\n"),
    ("at", "2", SECOND_HEADER, 3, "trap index\n"),
    ("at", " -1", SECOND_HEADER, 3, "trap index\n"),
    (
        "at",
        "9223372036854775807",
        SECOND_HEADER,
        3,
        "trap index\n",
    ),
    ("all", "()", SECOND_HEADER, 0, "done [7, 9]\n"),
    ("set", "(0, 5)", SECOND_HEADER, 0, "done ([5, 9], ())\n"),
    ("set", "(1, 5)", SECOND_HEADER, 0, "done ([7, 5], ())\n"),
    ("set", "(2, 5)", SECOND_HEADER, 3, "trap index\n"),
    // proofs of the first format, in part and with a byte behind
    ("at", "1", HEADER, 5, "rejected header\n"),
    ("at", "1", b"LAP2\0", 5, "rejected header\n"),
    ("at", "1", b"LAP2\0\0\0", 5, "rejected leftover 1\n"),
    (
        "at",
        "[1]",
        SECOND_HEADER,
        7,
        "input refused: argument Mismatch 0\n",
    ),
];

#[test]
fn calls_on_an_array_are_verified(rt: HostRuntime) -> Result<(), Fail> {
    for (role, argument, proof, status, line) in &CALLS {
        let call = Call {
            role,
            argument,
            fuel: "1",
        };
        if !verified(&rt, rt.alloc(), PAIR, BOTH, proof, &call)?.only_tells(*status, line) {
            return Err(Fail::new(format_args!("{role} {argument} {line}")));
        }
    }
    Ok(())
}

/// Bytes that are no state of it, with the line of their first fault.
const STATES: [(&[u8], &str); 4] = [
    (b"", "input refused: state 0\n"),
    (b"\0\0\0\0\0\0\0\x07", "input refused: state 8\n"),
    (
        b"\0\0\0\0\0\0\0\x07\0\0\0\0\0\0\0",
        "input refused: state 8\n",
    ),
    (
        b"\0\0\0\0\0\0\0\x07\0\0\0\0\0\0\0\x09\0",
        "input refused: state 16\n",
    ),
];

#[test]
fn other_states_are_no_arrays(rt: HostRuntime) -> Result<(), Fail> {
    let call = Call {
        role: "at",
        argument: "1",
        fuel: "1",
    };
    for (state, line) in &STATES {
        let run = verified(&rt, rt.alloc(), PAIR, state, SECOND_HEADER, &call)?;
        if !run.only_tells(7, line) {
            return Err(Fail::new(*line));
        }
    }
    Ok(())
}

#[test]
fn an_array_is_made_and_kept(rt: HostRuntime) -> Result<(), Fail> {
    let alloc = rt.alloc();
    assert!(rt; made(&rt, alloc, PAIR, "make", "[7, 9]")?.stores(0, "done [7, 9]\n", BOTH_IMAGE));
    assert!(rt; kept(&rt, alloc, PAIR, BOTH_IMAGE)?.stores(0, "state [7, 9]\n", BOTH));
    let refused = "input refused: argument Mismatch 2\n";
    assert!(rt; made(&rt, alloc, PAIR, "make", "[7]")?.only_tells(7, refused));
    Ok(())
}
