// The words of a command line: those that call no command, and numbers among them.
use cli_stage::runs::run_words;
use cli_stage::stage::{HEADER, staged};
use program_texts::SUM;
use std::test::Fail;

const USAGE: &str = "usage: lamauth COMMAND ARGUMENTS\n";

/// Words that call no command: at first those of which one is no name or none that a command has, then each command with one argument too
/// few and with one too many, and last a negative argument with no blank before it.
static REFUSED: [&[&str]; 35] = [
    &[],
    &["-x"],
    &[""],
    &["--"],
    &["help"],
    &["help", "check"],
    &["--help"],
    &["check", "-x"],
    &["check", ""],
    &["check", "--", "p"],
    &["verify", "p", "open", "s", "", "1", "q"],
    &["verify", "p", "open", "s", "()", "-1", "q"],
    &["verified", "p", "open", "s", "()", "1", "q"],
    &["Check", "p"],
    &["check"],
    &["check", "p", "p"],
    &["init", "p", "make", "()", "1"],
    &["init", "p", "make", "()", "1", "o", "o"],
    &["ideal", "p", "open", "q", "()"],
    &["ideal", "p", "open", "q", "()", "1", "o"],
    &["step", "p", "open", "q", "()", "1"],
    &["step", "p", "open", "q", "()", "1", "o", "o"],
    &["shallow", "p", "q"],
    &["shallow", "p", "q", "o", "o"],
    &["prove", "p", "open", "q", "()", "1", "0"],
    &["prove", "p", "open", "q", "()", "1", "0", "o", "o"],
    &["verify", "p", "open", "s", "()", "1"],
    &["verify", "p", "open", "s", "()", "1", "q", "o", "o"],
    &["audit", "p", "open", "s", "()", "1"],
    &["audit", "p", "open", "s", "()", "1", "q", "o"],
    &["library"],
    &["library", "bst", "o"],
    &["gen", "bst", "1", "1"],
    &["gen", "bst", "1", "1", "0", "o"],
    &["verify", "p", "more", "s", "-3", "1", "q"],
];

#[test]
fn words_are_refused(rt: HostRuntime) -> Result<(), Fail> {
    let two = [0, 0, 0, 0, 0, 0, 0, 2];
    let stage = staged(SUM, &two, HEADER);
    for (number, words) in REFUSED.iter().enumerate() {
        if !run_words(&rt, rt.alloc(), &stage, words)?.only_tells(2, USAGE) {
            return Err(Fail::new(format_args!("row {number}")));
        }
    }
    Ok(())
}

/// Words that call a command, with the status and the line of the run.
const TAKEN: [(&[&str], u8, &str); 3] = [
    // a word of clap's own is taken as any other behind a command: here it names a file that isn't there
    (&["check", "help"], 8, "read fault\n"),
    // numbers are no matter of the words: a fuel that is out of range is an input that is refused
    (
        &["verify", "p", "more", "s", "1", "1000000000001", "q"],
        7,
        "input refused: number FUEL\n",
    ),
    // a negative argument has a blank before it
    (
        &["verify", "p", "more", "s", " -3", "1", "q"],
        0,
        "done -1\n",
    ),
];

#[test]
fn words_are_taken(rt: HostRuntime) -> Result<(), Fail> {
    let two = [0, 0, 0, 0, 0, 0, 0, 2];
    let stage = staged(SUM, &two, HEADER);
    for (words, status, line) in &TAKEN {
        if !run_words(&rt, rt.alloc(), &stage, words)?.only_tells(*status, line) {
            return Err(Fail::new(*line));
        }
    }
    Ok(())
}
