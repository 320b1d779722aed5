// How a run ends.
ghost use Rattle.std.specs.Prelude.{◌≡◌};

/// How a run ends.
#[derive(Clone, Copy)]
pub enum Status {
    /// The work was done: the outcome has a value, the program is accepted, the text, the state, the sums or the number of pieces were told,
    /// `serve`, `host` or `mirror` served its connections, `ask` played its script to the end, whatever outcomes came in it, `found` made a
    /// journal, or `replay` stored the last version of one.
    Done,
    /// The words call no command.
    Usage,
    /// The outcome is a trap.
    Trap,
    /// The outcome is the want of fuel.
    OutOfFuel,
    /// The proof is rejected, or what a mirror gives in its place; or the play of a script ended by a rejected proof, or by another reply than one that is waited for, or none.
    Rejected,
    /// The text is no program.
    ProgramRefused,
    /// A file is too long, or the image or the mirror that would be stored; or a name of the library, a role, a number, a state, an image, a
    /// mirror, a journal, an argument or a script is refused.
    InputRefused,
    /// A file or a disk could not be read; or a read or a send on a link, an `accept`, a `listen` or a `dial` failed.
    ReadFault,
    /// The sink failed, a file could not be stored, or a disk could not be written.
    WriteFault,
    /// Memory was wanting.
    NoMemory,
    /// The proof shows a collision of the hash.
    Collision,
}

impl Status {
    ghost use Rattle.command_parts.specs.Codes.{code};

    /// The exit status of the process.
    pub fn code(self) -> u8
        ensures { result ≡ code self }
    {
        match self {
            Status::Done => 0,
            Status::Usage => 2,
            Status::Trap => 3,
            Status::OutOfFuel => 4,
            Status::Rejected => 5,
            Status::ProgramRefused => 6,
            Status::InputRefused => 7,
            Status::ReadFault => 8,
            Status::WriteFault => 9,
            Status::NoMemory => 10,
            Status::Collision => 11,
        }
    }
}
