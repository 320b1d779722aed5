// The programs of the library, told and run, and workloads on them.
use ads_library::texts::{BST, MERKLE, REDBLACK, SKIPLIST};
use cli_stage::runs::run_words;
use cli_stage::stage::{HEADER, staged};
use std::test::Fail;

/// The programs by their names.
const PROGRAMS: [(&str, &[u8]); 4] = [
    ("bst", BST),
    ("merkle", MERKLE),
    ("redblack", REDBLACK),
    ("skiplist", SKIPLIST),
];

#[test]
fn programs_are_told(rt: HostRuntime) -> Result<(), Fail> {
    for (name, text) in PROGRAMS {
        let stage = staged(text, b"", HEADER);
        let told = run_words(&rt, rt.alloc(), &stage, &["library", name])?;
        if told.status != 0 || told.text.as_slice() != text || told.stored != 0 {
            return Err(Fail::new(name));
        }
        if run_words(&rt, rt.alloc(), &stage, &["check", "p"])?.status != 0 {
            return Err(Fail::new(name));
        }
    }
    Ok(())
}

#[test]
fn other_names_are_unknown(rt: HostRuntime) -> Result<(), Fail> {
    let stage = staged(BST, b"", HEADER);
    for name in ["p", "Bst", "bs", "bst ", "treap"] {
        let told = run_words(&rt, rt.alloc(), &stage, &["library", name])?;
        if !told.only_tells(7, "input refused: library unknown\n") {
            return Err(Fail::new(name));
        }
    }
    Ok(())
}

/// A workload of no rounds tells the state that the init made; one of a round proves and verifies a put, which opens a leaf, and a get,
/// which opens a node. Behind the line stands how the next one begins.
const TOLD: [(&[&str], &str); 5] = [
    (
        &["gen", "bst", "7", "0", "0"],
        "calls 0 done 0 new 0 used 0 bytes 0
state #6e340b9cffb37a989ca544e6bb780a2c78901d3fb33738768511a30617afa01d
",
    ),
    (
        &["gen", "bst", "1", "1", "0"],
        "calls 2 done 2 new 2 used 0 bytes 104\nstate #",
    ),
    (
        &["gen", "merkle", "1", "1", "0"],
        "calls 2 done 2 new 22 used 0 bytes 1440\nstate (1024, #",
    ),
    (
        &["gen", "merkle", "2", "1", "0"],
        "calls 2 done 2 new 22 used 0 bytes 1440\nstate (1024, #",
    ),
    (
        &["gen", "merkle", "18446744073709551615", "1", "0"],
        "calls 2 done 2 new 22 used 0 bytes 1440\nstate (1024, #",
    ),
];

#[test]
fn workloads_are_told(rt: HostRuntime) -> Result<(), Fail> {
    let stage = staged(BST, b"", HEADER);
    for (words, text) in &TOLD {
        let told = run_words(&rt, rt.alloc(), &stage, words)?;
        if told.status != 0 || !told.text.starts_with(text.as_bytes()) || told.stored != 0 {
            return Err(Fail::new(*text));
        }
    }
    Ok(())
}

#[test]
fn workloads_are_the_same_again(rt: HostRuntime) -> Result<(), Fail> {
    let stage = staged(BST, b"", HEADER);
    for (name, _) in PROGRAMS {
        let words = ["gen", name, "1", "30", "16"];
        let one = run_words(&rt, rt.alloc(), &stage, &words)?;
        let again = run_words(&rt, rt.alloc(), &stage, &words)?;
        let begins = one.text.starts_with(b"calls 60 done 60 new ");
        if one.status != 0 || !begins || one.text.as_slice() != again.text.as_slice() {
            return Err(Fail::new(name));
        }
    }
    Ok(())
}

/// What is refused of the words of a workload: the first of them, from left to right.
const UNTOLD: [(&[&str], &str); 7] = [
    (&["gen", "tree", "x", "x", "x"], "library unknown"),
    (&["gen", "bst", "x", "x", "x"], "number SEED"),
    (
        &["gen", "bst", "18446744073709551616", "100001", "1025"],
        "number SEED",
    ),
    (&["gen", "bst", "0", "x", "x"], "number COUNT"),
    (&["gen", "bst", "0", "100001", "1025"], "number COUNT"),
    (&["gen", "bst", "0", "0", "x"], "number N"),
    (&["gen", "bst", "0", "0", "1025"], "number N"),
];

#[test]
fn words_of_workloads_are_refused(rt: HostRuntime) -> Result<(), Fail> {
    let stage = staged(BST, b"", HEADER);
    for (words, fault) in &UNTOLD {
        let line = format!(in rt.alloc(); "input refused: {fault}\n")?;
        if !run_words(&rt, rt.alloc(), &stage, words)?.only_tells(7, line.as_str()) {
            return Err(Fail::new(*fault));
        }
    }
    Ok(())
}
