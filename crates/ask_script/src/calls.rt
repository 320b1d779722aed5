// Lines that call.
ghost use Rattle.std.specs.Prelude.{◌≡◌, ◌∷◌, Some, None, List, ℕ, codes, option_map, IfOk, IfSome, IsNone};
ghost use Rattle.core_terms.specs.Limits.{most_fuel};
ghost use Rattle.core_terms.specs.Programs.{constructor_names, meaning, types_of};
ghost use Rattle.core_terms.specs.Terms as tree;
ghost use Rattle.core_terms.specs.TypeTables.{type_at};
ghost use Rattle.number_words.specs.Numbers.{number_within};
ghost use Rattle.printed_syntax.specs.Literals.{ConstructorNames, literal_in};
ghost use Rattle.session_meaning.specs.Calls.{role_in};
ghost use Rattle.ask_script.specs.Scripts.{calls, form_of, role_called, session_in, spelled, words_of};
ghost use Rattle.ask_script.specs.ScriptAnswers.{step_meant};

use crate::Step;
use crate::words::{cut_word, read_session};
use core_terms::roles::place_of;
use core_terms::{Fault, MOST_FUEL, Program, RoleKind, Spelling, TyId};
use number_words::read_number;
use printed_syntax::literal::parse_literal;
use std::alloc::{AllocError, Global};

/// The words of a line that calls, behind the first one.
#[derive(Clone, Copy)]
struct CallWords<'a> {
    session: &'a str,
    role: &'a str,
    fuel: &'a str,
    /// The rest of the line.
    argument: &'a str,
}

/// What is called: the session, the role by its number, the type of its argument, and the fuel.
#[derive(Clone, Copy)]
struct Called {
    session: u16,
    role: u16,
    argument: TyId,
    fuel: u64,
}

/// The step of a line that calls, from the words behind the first; none where the line is at fault.
pub fn read_call(alloc: Global, program: &Program, words: &str) -> Result<Option<Step>, AllocError>
    ensures { IfOk result (λ step. option_map step_meant step ≡ form_of (meaning program.now) (constructor_names program.now.types.named.items) (codes "call" ∷ words_of words.now)) }
{
    let Some(words) = cut_words(words) else {
        return Ok(None);
    };
    let Some(called) = read_called(program, &words) else {
        return Ok(None);
    };
    let Some(argument) = read_argument(alloc, program, called.argument, words.argument)? else {
        return Ok(None);
    };
    Ok(Some(Step::Call {
        session: called.session,
        role: called.role,
        fuel: called.fuel,
        argument,
    }))
}

/// The words, where there are four or more of them.
fn cut_words(words: &str) -> Option<CallWords<'_>>
    ensures cut { IfSome result (λ cut. words_of words.now ≡ cut.session.now ∷ cut.role.now ∷ cut.fuel.now ∷ words_of cut.argument.now) }
    ensures few { IsNone result → (P : tree.Program) (names : ConstructorNames) → form_of P names (codes "call" ∷ words_of words.now) ≡ None }
{
    let (session, behind) = cut_word(words)?;
    let (role, behind) = cut_word(behind)?;
    let (fuel, argument) = cut_word(behind)?;
    Some(CallWords {
        session,
        role,
        fuel,
        argument,
    })
}

/// What the words call; none where a number or the role is refused.
fn read_called(program: &Program, words: &CallWords<'_>) -> Option<Called>
    ensures session { IfSome result (λ called. session_in words.now.session.now ≡ Some called.session) }
    ensures role { IfSome result (λ called. role_called (meaning program.now) words.now.role.now ≡ Some called.role) }
    ensures argument { IfSome result (λ called. type_at (types_of program.now) called.argument ≡ (role_in (meaning program.now) called.role).argument) }
    ensures fuel { IfSome result (λ called. number_within most_fuel words.now.fuel.now ≡ Some called.fuel) }
    ensures refused { let P = meaning program.now in IsNone result → (names : ConstructorNames) (text : List ℕ) → calls P names (session_in words.now.session.now) (role_called P words.now.role.now) (number_within most_fuel words.now.fuel.now) text ≡ None }
{
    let session = read_session(words.session)?;
    let (role, argument) = find_role(program, words.role)?;
    let fuel = read_number(words.fuel, MOST_FUEL)?;
    Some(Called {
        session,
        role,
        argument,
        fuel,
    })
}

/// The query or update of this name: its number among the roles, and the type of its argument.
fn find_role(program: &Program, name: &str) -> Option<(u16, TyId)>
    ensures role { option_map (λ found. found.0) result ≡ role_called (meaning program.now) name.now }
    ensures argument { IfSome result (λ found. type_at (types_of program.now) found.1 ≡ (role_in (meaning program.now) found.0).argument) }
{
    let roles = program.roles();
    let number = place_of(roles, name)?;
    let role = &roles[number];
    match role.kind {
        RoleKind::Init => None,
        RoleKind::Query | RoleKind::Update => Some((number as u16, role.argument)),
    }
}

/// The spelling of the literal that a text is; none where it is refused.
fn read_argument(
    alloc: Global,
    program: &Program,
    ty: TyId,
    text: &str,
) -> Result<Option<Spelling>, AllocError>
    ensures { IfOk result (λ argument. argument ≡ spelled (literal_in (meaning program.now) (constructor_names program.now.types.named.items) (type_at (types_of program.now) ty) text.now)) }
{
    match parse_literal(alloc, program, ty, text) {
        Ok(argument) => Ok(Some(argument)),
        Err(Fault::At(_, _)) => Ok(None),
        Err(Fault::NoMemory) => Err(AllocError),
    }
}
