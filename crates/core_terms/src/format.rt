// The formats of programs.

/// The format of a program: how the spellings of its values are digested, how long they may be, and how its proof files and images begin.
#[derive(Clone, Copy, PartialEq)]
pub enum Format {
    /// A digest is that of a spelling alone.
    First,
    /// A digest tells the type too.
    Second,
}
