//! Compares the texts of the library with its files, which lie in `data/`.
#![tactic(auto)]

use ads_library::source;
use std::{fs, io};

/// The names of the programs, and their files.
const FILES: [(&str, &str); 4] = [
    ("bst", "bst.lam"),
    ("merkle", "merkle.lam"),
    ("redblack", "redblack.lam"),
    ("skiplist", "skiplist.lam"),
];

fn main(rt: HostRuntime) -> io::Result<()> {
    for (name, file) in FILES {
        let text = fs::read_to_string(&rt, file)?;
        let is_source = source(name).is_some_and(|source| source == text.as_bytes());
        println!(rt;
            "{file} {}",
            if is_source {
                "is the library's"
            } else {
                "differs"
            }
        )?;
    }
    Ok(())
}
