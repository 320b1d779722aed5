// The steps of a script.

use core_terms::Spelling;

/// What a line of a script asks for. The number of a session is 1 to 65,535.
#[derive(Drop)]
pub enum Step {
    /// To open a session, with a ring of so many pieces, at most 1,024.
    Open {
        session: u16,
        kept: u16,
    },
    /// To call, in a session, a query or an update, by its number among the roles of the program, in the order of declarations.
    Call {
        session: u16,
        role: u16,
        /// At most 10^12.
        fuel: u64,
        /// The spelling of the argument, of the role's argument type.
        argument: Spelling,
    },
    /// To let the calls run.
    Go,
    /// To close a session.
    Close {
        session: u16,
    },
}
