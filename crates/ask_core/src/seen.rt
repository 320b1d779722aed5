// What is seen of a client's sessions.
ghost use Rattle.std.specs.Prelude.{◌≡◌, Some};
ghost use Rattle.std.specs.List.{list_any};
ghost use Rattle.core_terms.specs.Programs.{types_of};
ghost use Rattle.code_gen.specs.Programs.{program_in};
ghost use Rattle.mode_vm.specs.Meanings.{program_of};
ghost use Rattle.session_meaning.specs.Client as meant;
ghost use Rattle.session_meaning.specs.Client.{Client};
ghost use Rattle.session_meaning.specs.Tables.{find};
ghost use Rattle.ask_core.specs.Clients.{Stands};
ghost use Rattle.ask_core.specs.Sessions.{IsCalledRole};
ghost use Rattle.ask_core.specs.Turns.{standing_called, standing_calls, standing_waits};

use crate::checks::role_called;
use crate::client::AskCore;
use crate::standing::Standing;
use code_gen::Code;
use core_terms::{Hash32, RoleKind, TyId};
use session_tables::Entry;

/// What a session calls.
#[derive(Clone, Copy)]
pub struct CalledRole {
    pub kind: RoleKind,
    /// The type of the function's result: of an update a pair, the new state and the answer.
    pub result: TyId,
}

impl<H: Hash32> AskCore<H> {
    ghost use Rattle.ask_core.specs.Sessions.{StandsFor};
    ghost use Rattle.session_meaning.specs.Waiting.{some_calls, some_waits};

    /// Whether some session waits for a reply: to its greeting, its call or its leave.
    pub fn any_waits(&self) -> bool
        ensures { (c : Client) → StandsFor self.now c → result ≡ some_waits c }
    {
        any_waits(self.sessions.entries())
    }

    /// Whether some session calls.
    pub fn any_calls(&self) -> bool
        ensures { (c : Client) → StandsFor self.now c → result ≡ some_calls c }
    {
        any_calls(self.sessions.entries())
    }

    /// The role that the session calls; none where it doesn't call.
    pub fn called(&self, session: u16) -> Option<CalledRole>
        ensures { (c : Client) → StandsFor self.now c
            → IsCalledRole (types_of (program_in self.now.code)) (program_of self.now.code) (find session c.sessions) result }
    {
        match self.sessions.find(session) {
            Some(standing) => called_role(&self.code, standing),
            None => None,
        }
    }
}

/// The role that is called; none where none is.
fn called_role(code: &Code, standing: &Standing) -> Option<CalledRole>
    ensures { let P = program_of code.now in (m : meant.Standing) → Stands P standing.now m
        → IsCalledRole (types_of (program_in code.now)) P (Some m) result }
{
    match called_number(standing) {
        Some(number) => match role_called(code.program(), number) {
            Some(role) => Some(CalledRole {
                kind: role.kind,
                result: role.result,
            }),
            None => None,
        },
        None => None,
    }
}

/// The number of the role that is called; none where none is.
fn called_number(standing: &Standing) -> Option<u16>
    ensures { result ≡ standing_called standing.now }
{
    match standing {
        Standing::Greeting(_) => None,
        Standing::Idle(_) => None,
        Standing::Calling(_, asked) => Some(asked.role),
        Standing::Leaving(_) => None,
        Standing::FailedBy(_) => None,
        Standing::BrokenBy(_) => None,
    }
}

fn any_waits(entries: &[Entry<Standing>]) -> bool
    ensures { result ≡ list_any (λ e. standing_waits e.value) entries.now }
{
    entries.iter().any(|entry| entry.value.waits())
}

fn any_calls(entries: &[Entry<Standing>]) -> bool
    ensures { result ≡ list_any (λ e. standing_calls e.value) entries.now }
{
    entries.iter().any(|entry| calls(&entry.value))
}

fn calls(standing: &Standing) -> bool
    ensures { result ≡ standing_calls standing.now }
{
    match standing {
        Standing::Greeting(_) => false,
        Standing::Idle(_) => false,
        Standing::Calling(_, _) => true,
        Standing::Leaving(_) => false,
        Standing::FailedBy(_) => false,
        Standing::BrokenBy(_) => false,
    }
}
