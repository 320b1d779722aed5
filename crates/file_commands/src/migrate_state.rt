// The command `migrate`.
ghost use Rattle.std.specs.Prelude.{◌≡◌, ◌≤◌, ℕ, List, Some, IfOk, length};
ghost use Rattle.std.specs.Option.{ForSome};
ghost use Rattle.command_words.specs.Commands.{texts};
ghost use Rattle.command_words.specs.declared.command.Command.TheVariants.{Migrate};
ghost use Rattle.core_terms.specs.Programs.{meaning, types_of};
ghost use Rattle.core_terms.specs.Terms as tree;
ghost use Rattle.core_terms.specs.TypeTables.{type_at};
ghost use Rattle.core_terms.specs.Types.{same_type};
ghost use Rattle.core_terms.specs.Values.{Value};
ghost use Rattle.images.specs.Images.{Root, image_of};
ghost use Rattle.command_parts.specs.Answer.{answer_with, migrated_answer, migration_fault, moved_answer};
ghost use Rattle.command_parts.specs.Ending.{EndsAs};
ghost use Rattle.command_parts.specs.Outsides.{outside};
ghost use Rattle.command_parts.specs.Halting.{HaltCause, InHand, ending_status};
ghost use Rattle.file_commands.specs.MovedStates.{KeepsStates};
ghost use Rattle.command_parts.specs.ReachingInCode.{FaultsAtReached, ReachedAt};
ghost use Rattle.command_parts.specs.ReadPrograms.{declared_of, named_of};
ghost use Rattle.command_parts.specs.Statuses.{MayAnswer};
ghost use Rattle.command_parts.specs.Storing.{FindsOutput};

use crate::shallow_state::spell_state;
use command_parts::{
    Halt, Output, Status, load_image_bytes, load_state, read_named_program, store_and_tell,
};
use core_terms::{Format, Program, TyForm, TyId};
use images::save_image;
use lam_outside::{Files, Sink};
use printed_lines::refusal::{Argument, InputFault, MigrationKind};
use printed_types::laws::equal_texts_are_equal_tables;
use std::alloc::{AllocError, Global};

/// Stores the image of a state of one program as one of another, and tells its projection by that one. The words behind the command are
/// `P IMG Q OUT`.
pub fn migrate_command<F: Files, O: Sink>(
    alloc: Global,
    words: &[&str],
    files: &mut F,
    out: &mut O,
) -> Status
    requires { length words.now ≡ 4 }
    ensures ends { let seen = outside F.contents F.stores F.faults F.store_faults O.written O.faults in
        EndsAs (answer_with Migrate (texts words.now)) (seen files.old out.old) (seen files.new out.new) result }
    ensures reached { ReachedAt result (answer_with Migrate (texts words.now)) (F.contents files.old) (F.asked files.new) }
    ensures possible { MayAnswer Migrate result }
{
    let [program, image, other, name] = words else {
        unreachable!()
    };
    let found = find_moved(alloc, program, image, other, files);
    store_and_tell(alloc, name, files, out, found)
}

/// What is found of an image: the state that it keeps, as one of the other program.
fn find_moved<F: Files>(
    alloc: Global,
    program: &str,
    image: &str,
    other: &str,
    files: &mut F,
) -> Result<Output, Halt>
    ensures finds { (name : List ℕ) → ForSome (F.contents files.old) (λ told. FindsOutput name (migrated_answer program.now image.now other.now name told) result) }
    ensures ending { IfOk result (λ output. MayAnswer Migrate (ending_status output.report.ending)) }
    ensures reached { (name : List ℕ) → FaultsAtReached (migrated_answer program.now image.now other.now name) (F.contents files.old) (F.asked files.new) result }
    ensures cause { HaltCause (F.faults files.old) (F.faults files.new) result }
    ensures stores { F.stores files.new ≡ F.stores files.old }
    ensures store_faults { F.store_faults files.new ≡ F.store_faults files.old }
{
    equal_texts_are_equal_tables();
    let from = read_named_program(alloc, files, Argument::Program, program)?;
    let to = read_named_program(alloc, files, Argument::Other, other)?;
    let fault = migration_fault(alloc, &from, &to)?;
    if let Some(kind) = fault {
        return Err(InputFault::Migration(kind).into());
    }
    let mut image = load_image_bytes(alloc, files, &from, image)?;
    move_state(alloc, &to, &mut image)
}

/// Why no state of the one program is moved to the other, where it isn't.
#[tactic(auto, unfolding(command_parts::specs::Answer::migration_fault))]
fn migration_fault(
    alloc: Global,
    from: &Program,
    to: &Program,
) -> Result<Option<MigrationKind>, AllocError>
    ensures { IfOk result (λ kind. kind ≡ migration_fault (declared_of from.now) (declared_of to.now)) }
{
    if from.format() != Format::First || to.format() != Format::Second {
        return Ok(Some(MigrationKind::Format));
    }
    let declared = from.types_text(alloc)?;
    if declared.as_slice() == to.types_text(alloc)?.as_slice()
        && is_same_type(from, from.state_type(), to, to.state_type())
    {
        Ok(None)
    } else {
        Ok(Some(MigrationKind::Types))
    }
}

/// Whether a type of one program and a type of another are the same, where a named type is one by its number.
fn is_same_type(one: &Program, a: TyId, other: &Program, b: TyId) -> bool
    ensures { result ≡ same_type (type_at (types_of one.now) a) (type_at (types_of other.now) b) }
{
    match (one.form(a), other.form(b)) {
        (TyForm::UnitForm, TyForm::UnitForm)
        | (TyForm::BoolForm, TyForm::BoolForm)
        | (TyForm::IntForm, TyForm::IntForm)
        | (TyForm::TextForm, TyForm::TextForm) => true,
        (TyForm::AuthForm(a), TyForm::AuthForm(b)) => is_same_type(one, a, other, b),
        (TyForm::PairForm(a, c), TyForm::PairForm(b, d)) => {
            is_same_type(one, a, other, b) && is_same_type(one, c, other, d)
        }
        (TyForm::NamedForm(a), TyForm::NamedForm(b)) => a == b,
        (TyForm::VecForm(m, a), TyForm::VecForm(n, b)) => m == n && is_same_type(one, a, other, b),
        _ => false,
    }
}

/// Makes an image of a program one of another that keeps its states: it gets the magic of the other's format and the digest of its text.
fn address(image: &mut [u8], to: &Program)
    requires { 36 ≤ length image.old }
    ensures { let Q = meaning to.now in (P : tree.Program) (digest : List ℕ) (v : Value) → KeepsStates P Q → image_of P digest image.old ≡ Root v
        → image_of Q to.now.text_digest.0 image.new ≡ Root v }
{
    let magic = to.types().image_magic();
    image[..4].copy_from_slice(&magic);
    image[4..36].copy_from_slice(to.text_digest().as_bytes());
}

/// The state in an image of a program, moved to another that keeps its states, and told. The image's bytes become one of that other.
fn move_state(alloc: Global, to: &Program, image: &mut [u8]) -> Result<Output, Halt>
    requires { (P : tree.Program) × (digest : List ℕ) × (v : Value) × KeepsStates P (meaning to.now) × (image_of P digest image.old ≡ Root v) }
    ensures ending { IfOk result (λ output. MayAnswer Migrate (ending_status output.report.ending)) }
    ensures finds { (name : List ℕ) (P : tree.Program) (digest : List ℕ) (v : Value) → KeepsStates P (meaning to.now) → image_of P digest image.old ≡ Root v
        → InHand (FindsOutput name (Some (moved_answer (named_of to.now) v name))) result }
{
    address(image, to);
    let state = load_state(alloc, to, image)?;
    let told = spell_state(alloc, to, &state)?;
    let types = to.types();
    let image = save_image(alloc, types, to.text_digest(), &state.store, state.root)?;
    Ok(Output {
        report: told.report,
        file: Some(image),
    })
}
