// Calls that are run, proved, verified and audited: all four tell the same, and an update leaves both sides with the same state.
use crate::sides::{Sides, made_sides, sides_of};
use cli_stage::runs::{Call, Run, made, proved, run_words};
use cli_stage::stage::{Stage, staged};
use program_texts::{BST, LOG, MERKLE, SWITCH, TWO};
use std::alloc::{AllocError, Global};
use std::test::Fail;
use std::thread::Threads;

/// A role, the argument, the fuel and how many pieces are kept; the status, the outcome, and how many pieces of the proof are new, how many
/// are used again, and its bytes.
type Row<'a> = ([&'a str; 4], u8, &'a str, [u64; 3]);

const SWITCH_ROWS: [Row; 6] = [
    (["both", "()", "1", "1"], 0, "done (true, true)", [1, 1, 15]),
    (["both", "()", "1", "0"], 0, "done (true, true)", [2, 0, 18]),
    (
        ["over", "()", "1000000000000", "0"],
        3,
        "trap overflow",
        [1, 0, 12],
    ),
    (["flip", "()", "0", "16"], 4, "out of fuel", [0, 0, 6]),
    (
        ["flip", "()", "1", "2"],
        0,
        "done (#6e340b9cffb37a989ca544e6bb780a2c78901d3fb33738768511a30617afa01d, true)",
        [1, 0, 12],
    ),
    (
        ["both", "()", "00000000000000000001", "00000000000000001024"],
        0,
        "done (false, false)",
        [1, 1, 15],
    ),
];

const TWO_ROWS: [Row; 4] = [
    (
        ["three", "()", "1", "0"],
        0,
        "done (true, (false, true))",
        [3, 0, 24],
    ),
    (
        ["three", "()", "1", "1"],
        0,
        "done (true, (false, true))",
        [3, 0, 24],
    ),
    (
        ["three", "()", "1", "2"],
        0,
        "done (true, (false, true))",
        [2, 1, 21],
    ),
    (
        ["three", "()", "1", "1024"],
        0,
        "done (true, (false, true))",
        [2, 1, 21],
    ),
];

/// Three times the same piece.
const EQUAL_ROWS: [Row; 1] = [(
    ["three", "()", "1", "1"],
    0,
    "done (true, (true, true))",
    [1, 2, 18],
)];

/// A program whose state is authenticated twice, and which opens one layer or both.
pub const DEEP: &[u8] =
    b"state auth auth unit; init make(x: unit): auth auth unit = auth(auth(x)); query deep(s: auth auth unit, x: unit): unit = unauth(unauth(s)); query half(s: auth auth unit, x: unit): auth unit = unauth(s);";

const DEEP_ROWS: [Row; 2] = [
    (["deep", "()", "1", "0"], 0, "done ()", [2, 0, 48]),
    (
        ["half", "()", "1", "16"],
        0,
        "done #e3b0c44298fc1c149afbf4c8996fb92427ae41e4649b934ca495991b7852b855",
        [1, 0, 43],
    ),
];

/// Each trap, behind an int that is opened; `early` traps before it is.
pub const TRAPS: &[u8] = b"type chain = End | Link(chain);
state auth int;
fun links(n: int, c: chain): chain = if le(n, 0) then c else links(sub(n, 1), Link(c));
fun doubled(n: int, t: text): text = if le(n, 0) then t else doubled(sub(n, 1), cat(t, t));
init make(x: int): auth int = auth(x);
query early(s: auth int, x: int): int = add(add(9223372036854775807, x), unauth(s));
query sum(s: auth int, x: int): int = add(unauth(s), x);
query ratio(s: auth int, x: int): int = div(unauth(s), x);
query long(s: auth int, x: int): int = len(doubled(sub(unauth(s), x), \"a\"));
query linked(s: auth int, x: int): unit = let c = links(add(unauth(s), x), End) in ();
";

const TRAP_ROWS: [Row; 9] = [
    (["early", "1", "1", "0"], 3, "trap overflow", [0, 0, 6]),
    (["sum", "3", "1", "0"], 0, "done 19", [1, 0, 19]),
    (
        ["sum", "9223372036854775807", "1", "1"],
        3,
        "trap overflow",
        [1, 0, 19],
    ),
    (["ratio", "0", "1", "2"], 3, "trap divzero", [1, 0, 19]),
    // a text of 32,768 bytes is doubled: with its length it has four bytes more than the limit
    (["long", "1", "100", "16"], 0, "done 32768", [1, 0, 19]),
    (["long", "0", "100", "16"], 3, "trap toobig", [1, 0, 19]),
    (["linked", "495", "1000", "0"], 0, "done ()", [1, 0, 19]),
    (
        ["linked", "496", "1000", "0"],
        3,
        "trap toodeep",
        [1, 0, 19],
    ),
    (["linked", "496", "512", "0"], 4, "out of fuel", [1, 0, 19]),
];

/// A leaf has a piece of 1 byte, a node one of 81.
const TREE_ROWS: [Row; 7] = [
    (
        ["put", "(1, 10)", "2", "0"],
        0,
        "done (#a41b1e89dd402dbb1abde01e4a37e8b4ca525c1de5dfaedc0593f4d4b1a0c9da, ())",
        [1, 0, 12],
    ),
    (
        ["put", "(2, 20)", "3", "1"],
        0,
        "done (#46f8a72a5c729b5387fee7e4afb7ee021f78a9a9a60afda9d1cba86c2c82283c, ())",
        [2, 0, 98],
    ),
    (["put", "(3, 30)", "3", "2"], 4, "out of fuel", [2, 0, 178]),
    (
        ["put", "(3, 30)", "4", "16"],
        0,
        "done (#10099e20bbb75168332b5e71236117ff3e6dfcd18eea3bd3c288acd5c1ebd62a, ())",
        [3, 0, 184],
    ),
    (["get", "3", "4", "1024"], 0, "done Found(30)", [3, 0, 264]),
    (
        ["put", "(1, 11)", "2", "0"],
        0,
        "done (#42a822dbbd246a525f961cc2e36d85c781209341257cafc904ab7d06f4cc4a3a, ())",
        [1, 0, 92],
    ),
    (["get", "4", "5", "0"], 0, "done Missing", [4, 0, 270]),
];

/// A list of 2^30 ints: a fork has a piece of 65 bytes, a tip one of 9.
const LIST_ROWS: [Row; 4] = [
    (
        ["get", "1073741823", "32", "1024"],
        0,
        "done Found(7)",
        [31, 0, 2120],
    ),
    (
        ["get", "1073741824", "32", "1024"],
        0,
        "done Missing",
        [0, 0, 6],
    ),
    (
        ["put", "(5, 8)", "32", "16"],
        0,
        "done ((1073741824, #1162c1763151907473d1dd579681f34b1d4ed3333651787fb4715e01e9bee1cd), ())",
        [31, 0, 2120],
    ),
    (["get", "5", "32", "0"], 0, "done Found(8)", [31, 0, 2120]),
];

/// A peak has a piece of 73 bytes, two entries that are joined one of 65, and an entry of a letter one of 6.
const LOG_ROWS: [Row; 3] = [
    (
        ["append", "\"a\"", "2", "16"],
        0,
        "done ((1, #0cb676acddd2b465db43059b61e9989a11179d58c1a1c9487109341d1fd07ab8), 0)",
        [1, 0, 12],
    ),
    (
        ["append", "\"b\"", "3", "0"],
        0,
        "done ((2, #b457d3c55294775a6d170af93394b014f406726734adbc6901259945cdb26410), 1)",
        [2, 0, 90],
    ),
    (
        ["entry", "1", "4", "2"],
        0,
        "done Found(\"b\")",
        [3, 0, 165],
    ),
];

/// A program that opens a piece, so many others, and the first one again.
const AGAIN: &[u8] =
    b"state unit; fun others(n: int): unit = if le(n, 0) then () else let x = unauth(auth(n)) in others(sub(n, 1)); init make(x: unit): unit = x; query again(s: unit, n: int): int = let x = unauth(auth(0)) in let y = others(n) in unauth(auth(0));";

/// How many others there are, how many pieces are kept, and the numbers of the proof. A new piece takes 13 bytes; the last one is named
/// by 3 where there are fewer others than pieces are kept.
static DISTANCES: [(&str, &str, [u64; 3]); 16] = [
    ("0", "0", [2, 0, 32]),
    ("1", "0", [3, 0, 45]),
    ("0", "1", [1, 1, 22]),
    ("1", "1", [3, 0, 45]),
    ("0", "2", [1, 1, 22]),
    ("1", "2", [2, 1, 35]),
    ("2", "2", [4, 0, 58]),
    ("0", "16", [1, 1, 22]),
    ("15", "16", [16, 1, 217]),
    ("16", "16", [18, 0, 240]),
    ("1024", "16", [1026, 0, 13344]),
    ("0", "1024", [1, 1, 22]),
    ("16", "1024", [17, 1, 230]),
    ("1022", "1024", [1023, 1, 13308]),
    ("1023", "1024", [1024, 1, 13321]),
    ("1024", "1024", [1026, 0, 13344]),
];

/// Whether `ideal` tells this of a call.
fn is_ideal<R: Threads + Sync>(
    rt: &R,
    alloc: Global,
    sides: &Sides,
    call: &Call,
    (status, line): (u8, &str),
) -> Result<bool, AllocError> {
    let words = ["ideal", "p", call.role, "q", call.argument, call.fuel];
    let run = run_words(rt, alloc, &staged(sides.program, b"", &sides.image), &words)?;
    Ok(run.only_tells(status, line))
}

/// Runs `step` of a call on the owner's files.
fn run_step<R: Threads + Sync>(
    rt: &R,
    alloc: Global,
    sides: &Sides,
    call: &Call,
) -> Result<Run, AllocError> {
    let words = ["step", "p", call.role, "q", call.argument, call.fuel, "o"];
    run_words(rt, alloc, &staged(sides.program, b"", &sides.image), &words)
}

/// Runs `verify` of a proof of a call on the client's files, with a name for the new state.
fn run_verify<R: Threads + Sync>(
    rt: &R,
    alloc: Global,
    sides: &Sides,
    call: &Call,
    proof: &[u8],
) -> Result<Run, AllocError> {
    let words = [
        "verify",
        "p",
        call.role,
        "s",
        call.argument,
        call.fuel,
        "q",
        "o",
    ];
    run_words(
        rt,
        alloc,
        &staged(sides.program, &sides.state, proof),
        &words,
    )
}

/// What both sides have of a new state. None where `verify` stored something else than the projection of what `step` stored.
fn next_sides<'a, R: Threads + Sync>(
    rt: &R,
    alloc: Global,
    program: &'a [u8],
    image: Vec<u8>,
    verified: &[u8],
) -> Result<Option<Sides<'a>>, AllocError> {
    let next = sides_of(rt, alloc, program, image)?;
    let is_kept = verified == next.state.as_slice();
    Ok(is_kept.then_some(next))
}

/// What both sides have behind a call: of an update that gives a value the new state. None where `step` and `verify` don't agree.
fn behind<'a, R: Threads + Sync>(
    rt: &R,
    alloc: Global,
    sides: Sides<'a>,
    call: &Call,
    proof: &[u8],
) -> Result<Option<Sides<'a>>, AllocError> {
    let stepped = run_step(rt, alloc, &sides, call)?;
    let verified = run_verify(rt, alloc, &sides, call, proof)?;
    if stepped.stored != verified.stored || stepped.text.as_slice() != verified.text.as_slice() {
        return Ok(None);
    }
    if stepped.stored == 0 {
        return Ok(Some(sides));
    }
    next_sides(rt, alloc, sides.program, stepped.file, &verified.file)
}

/// The proof that `prove` stores of a row's call, where it tells the row.
fn stored_proof<R: Threads + Sync>(
    rt: &R,
    alloc: Global,
    sides: &Sides,
    row: Row,
) -> Result<Option<Vec<u8>>, AllocError> {
    let ([role, argument, fuel, number], status, outcome, [new, used, bytes]) = row;
    let call = Call {
        role,
        argument,
        fuel,
    };
    let text = format!(in alloc; "{outcome}\nproof new {new} used {used} bytes {bytes}\n")?;
    let run = proved(rt, alloc, sides.program, &sides.image, &call, number)?;
    let is_told = run.tells(status, &text) && run.stored == 1;
    Ok(is_told.then_some(run.file))
}

/// Whether a row is told by `ideal`, and, of this proof, by `verify` and `audit`.
fn is_told<R: Threads + Sync>(
    rt: &R,
    alloc: Global,
    sides: &Sides,
    row: Row,
    proof: &[u8],
) -> Result<bool, AllocError> {
    let ([role, argument, fuel, _], status, outcome, _) = row;
    let call = Call {
        role,
        argument,
        fuel,
    };
    let line = format!(in alloc; "{outcome}\n")?;
    Ok(
        is_ideal(rt, alloc, sides, &call, (status, &line))?
            && sides.are_told(rt, alloc, &call, proof, 4096, (status, &line))?,
    )
}

/// The proof of a call, where its row is told by `ideal`, `prove`, `verify` and `audit`.
fn told_proof<R: Threads + Sync>(
    rt: &R,
    alloc: Global,
    sides: &Sides,
    row: Row,
) -> Result<Option<Vec<u8>>, AllocError> {
    let Some(proof) = stored_proof(rt, alloc, sides, row)? else {
        return Ok(None);
    };
    let are_told = is_told(rt, alloc, sides, row, &proof)?;
    Ok(are_told.then_some(proof))
}

/// The same with what both sides have behind the call.
fn gone_on<'a, R: Threads + Sync>(
    rt: &R,
    alloc: Global,
    sides: Sides<'a>,
    row: Row,
) -> Result<Option<Sides<'a>>, AllocError> {
    let [role, argument, fuel, _] = row.0;
    let call = Call {
        role,
        argument,
        fuel,
    };
    match told_proof(rt, alloc, &sides, row)? {
        Some(proof) => behind(rt, alloc, sides, &call, &proof),
        None => Ok(None),
    }
}

/// The number of the first row, from 0, that is told otherwise, where each call goes on from the state that the one before left.
fn wrong_row<R: Threads + Sync>(
    rt: &R,
    alloc: Global,
    made: Sides,
    rows: &[Row],
) -> Result<Option<usize>, AllocError> {
    let mut sides = made;
    for (number, row) in rows.iter().enumerate() {
        match gone_on(rt, alloc, sides, *row)? {
            Some(next) => sides = next,
            None => return Ok(Some(number)),
        }
    }
    Ok(None)
}

/// A name, a program, the role and the literal of a state that is made, and calls.
type Table = (
    &'static str,
    &'static [u8],
    [&'static str; 2],
    &'static [Row<'static>],
);

static TABLES: [Table; 8] = [
    ("switch", SWITCH, ["make", "true"], &SWITCH_ROWS),
    ("two", TWO, ["make", "(true, false)"], &TWO_ROWS),
    ("equal", TWO, ["make", "(true, true)"], &EQUAL_ROWS),
    ("deep", DEEP, ["make", "()"], &DEEP_ROWS),
    ("traps", TRAPS, ["make", "16"], &TRAP_ROWS),
    ("tree", BST, ["empty", "()"], &TREE_ROWS),
    ("list", MERKLE, ["make", "(30, 7)"], &LIST_ROWS),
    ("log", LOG, ["start", "()"], &LOG_ROWS),
];

/// The number of the first row of a table, from 0, that is told otherwise.
fn wrong_row_of<R: Threads + Sync>(
    rt: &R,
    alloc: Global,
    table: &Table,
) -> Result<Option<usize>, AllocError> {
    let (_, program, [role, literal], rows) = *table;
    let made = made_sides(rt, alloc, program, role, literal)?;
    wrong_row(rt, alloc, made, rows)
}

#[test]
fn what_is_proved_is_told_alike(rt: HostRuntime) -> Result<(), Fail> {
    for table in &TABLES {
        if let Some(number) = wrong_row_of(&rt, rt.alloc(), table)? {
            return Err(Fail::new(format_args!("{}: row {number}", table.0)));
        }
    }
    Ok(())
}

#[test]
fn a_piece_is_named_as_long_as_it_is_kept(rt: HostRuntime) -> Result<(), Fail> {
    let made = made_sides(&rt, rt.alloc(), AGAIN, "make", "()")?;
    for (others, number, proof) in &DISTANCES {
        let row = (["again", others, "2000", number], 0, "done 0", *proof);
        if told_proof(&rt, rt.alloc(), &made, row)?.is_none() {
            return Err(Fail::new(format_args!("{others} with {number}")));
        }
    }
    Ok(())
}

/// A text of so many letters, as a literal.
fn letters(alloc: Global, count: usize) -> Result<String, AllocError> {
    let mut literal = String::from_str(alloc, "\"")?;
    for _ in 0..count {
        literal.push('a')?;
    }
    literal.push('"')?;
    Ok(literal)
}

/// A program whose state is a text.
const TEXT: &[u8] =
    b"state auth text; init make(x: text): auth text = auth(x); query size(s: auth text, x: unit): int = len(unauth(s));";

#[test]
fn the_longest_piece_is_proved(rt: HostRuntime) -> Result<(), Fail> {
    let alloc = rt.alloc();
    let made = made_sides(&rt, alloc, TEXT, "make", &letters(alloc, 65_532)?)?;
    let row = (["size", "()", "1", "16"], 0, "done 65532", [1, 0, 65_547]);
    assert!(rt; told_proof(&rt, alloc, &made, row)?.is_some());
    Ok(())
}

/// The proof that opens both layers: the digest of no bytes as a new piece, and then a new piece of no bytes.
pub const DEEP_PROOF: &[u8] =
    b"LAP1\0\0\0\0\0\0\x20\xe3\xb0\xc4B\x98\xfc\x1c\x14\x9a\xfb\xf4\xc8\x99o\xb9$'\xaeA\xe4d\x9b\x93L\xa4\x95\x99\x1bxR\xb8U\0\0\0\0\0";

/// A program, the literal of a state, a role with how many pieces are kept, and the proof.
type File = (
    &'static [u8],
    &'static str,
    [&'static str; 2],
    &'static [u8],
);

static FILES: [File; 6] = [
    (
        SWITCH,
        "true",
        ["both", "1"],
        b"LAP1\0\x01\0\0\0\0\x01\x01\x01\0\0",
    ),
    (
        SWITCH,
        "true",
        ["both", "0"],
        b"LAP1\0\0\0\0\0\0\x01\x01\0\0\0\0\x01\x01",
    ),
    (
        TWO,
        "(true, false)",
        ["three", "1"],
        b"LAP1\0\x01\0\0\0\0\x01\x01\0\0\0\0\x01\0\0\0\0\0\x01\x01",
    ),
    (
        TWO,
        "(true, false)",
        ["three", "2"],
        b"LAP1\0\x02\0\0\0\0\x01\x01\0\0\0\0\x01\0\x01\0\x01",
    ),
    (
        TWO,
        "(false, true)",
        ["three", "1024"],
        b"LAP1\x04\0\0\0\0\0\x01\0\0\0\0\0\x01\x01\x01\0\x01",
    ),
    (DEEP, "()", ["deep", "0"], DEEP_PROOF),
];

/// Whether `prove` stores the proof of a row.
fn is_stored<R: Threads + Sync>(rt: &R, alloc: Global, row: &File) -> Result<bool, AllocError> {
    let (program, literal, [role, kept], proof) = *row;
    let image = made(rt, alloc, program, "make", literal)?.file;
    let call = Call {
        role,
        argument: "()",
        fuel: "1",
    };
    let run = proved(rt, alloc, program, &image, &call, kept)?;
    Ok(run.status == 0 && run.file.as_slice() == proof)
}

#[test]
fn proofs_have_these_bytes(rt: HostRuntime) -> Result<(), Fail> {
    for (number, row) in FILES.iter().enumerate() {
        if !is_stored(&rt, rt.alloc(), row)? {
            return Err(Fail::new(format_args!("row {number}")));
        }
    }
    Ok(())
}

/// Types and literals of what is opened, the outcome, and the bytes of the proof.
static OPENED: [(&str, &str, &str, u64); 6] = [
    ("unit", "()", "done ()", 11),
    (
        "int",
        " -9223372036854775808",
        "done -9223372036854775808",
        19,
    ),
    ("text", "\"\"", "done \"\"", 15),
    ("text", "\"é\"", "done \"é\"", 17),
    (
        "(int, (bool, text))",
        "(7,(true,\"a\"))",
        "done (7, (true, \"a\"))",
        25,
    ),
    (
        "list",
        "More(1, More(2, None))",
        "done More(1, More(2, None))",
        30,
    ),
];

/// Whether a literal of a type is opened with this outcome, by a proof of so many bytes.
fn is_opened<R: Threads + Sync>(
    rt: &R,
    alloc: Global,
    ty: &str,
    literal: &str,
    outcome: &str,
    bytes: u64,
) -> Result<bool, AllocError> {
    let program = format!(in alloc;
        "type list = None | More(int, list); state auth {ty}; init make(x: {ty}): auth {ty} = auth(x); query open(s: auth {ty}, x: unit): {ty} = unauth(s);"
    )?;
    let made = made_sides(rt, alloc, program.as_bytes(), "make", literal)?;
    let row = (["open", "()", "1", "0"], 0, outcome, [1, 0, bytes]);
    Ok(told_proof(rt, alloc, &made, row)?.is_some())
}

#[test]
fn values_of_each_type_are_opened(rt: HostRuntime) -> Result<(), Fail> {
    for (ty, literal, outcome, bytes) in &OPENED {
        if !is_opened(&rt, rt.alloc(), ty, literal, outcome, *bytes)? {
            return Err(Fail::new(format_args!("{ty} {literal}")));
        }
    }
    Ok(())
}
