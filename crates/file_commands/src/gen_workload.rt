// The command `gen`.
ghost use Rattle.std.specs.Prelude.{◌≡◌, ◌≤◌, IfOk, codes, length};
ghost use Rattle.ads_library.specs.Texts.{library_text};
ghost use Rattle.code_gen.specs.Programs.{program_in};
ghost use Rattle.command_words.specs.Commands.{texts};
ghost use Rattle.command_words.specs.declared.command.Command.TheVariants.{Gen};
ghost use Rattle.core_terms.specs.Limits.{most_program_bytes};
ghost use Rattle.core_terms.specs.Programs.{meaning};
ghost use Rattle.core_terms.specs.Values.{Value};
ghost use Rattle.command_parts.specs.Answer.{answer_with};
ghost use Rattle.command_parts.specs.WorkloadAnswers.{first_argument, first_role, generated_by, sums_answer, with_numbers, with_source, workload_answer};
ghost use Rattle.command_parts.specs.FileInputs.{with_text};
ghost use Rattle.command_parts.specs.EndingInCode.{EndsOnSink};
ghost use Rattle.file_commands.specs.GeneratedCalls.{AreCalled, numbers_of};
ghost use Rattle.command_parts.specs.Halting.{FindsLines, StepGives, InHand, TellsLines, ending_status};
ghost use Rattle.command_parts.specs.ReadPrograms.{named_of};
ghost use Rattle.command_parts.specs.SoundPrograms.{IsOutcome};
ghost use Rattle.command_parts.specs.Statuses.{MayAnswer};
ghost use Rattle.command_parts.specs.StoredStates.{IsStoredState};

use crate::library_text::source_named;
use crate::shallow_state::spell_state;
use crate::workload_roles::workload_of;
use code_gen::Code;
use command_parts::{
    CallWords, Ending, Halt, Report, Status, call_init, number_named, read_program, role_report,
    state_made, tell,
};
use core_terms::Program;
use digest_layer::Sha;
use images::Loaded;
use lam_outside::Sink;
use printed_lines::lines::calls_line;
use printed_lines::refusal::Argument;
use std::alloc::{AllocError, Global};
use value_store::Store;
use workloads::{Tally, Workload, run_workload};

/// Runs a workload on a program of the library, each of whose calls is proved and verified, and tells the sums over the calls and the
/// last state. The words behind the command are `NAME SEED COUNT N`.
pub fn gen_command<O: Sink>(alloc: Global, words: &[&str], out: &mut O) -> Status
    requires { length words.now ≡ 4 }
    ensures ends { EndsOnSink (answer_with Gen (texts words.now)) (O.written out.old) (O.written out.new) (O.faults out.old) (O.faults out.new) result }
    ensures possible { MayAnswer Gen result }
{
    let [name, seed, count, kept] = words else {
        unreachable!()
    };
    let words = GenWords {
        name,
        seed,
        count,
        kept,
    };
    let found = find_sums(alloc, &words);
    tell(alloc, out, found)
}

/// The words of a workload.
#[derive(Clone, Copy)]
struct GenWords<'a> {
    name: &'a str,
    seed: &'a str,
    count: &'a str,
    kept: &'a str,
}

/// The numbers of a workload.
#[derive(Clone, Copy)]
struct Numbers {
    /// From which the keys and values follow.
    seed: u64,
    /// How many puts there are, and gets.
    rounds: u32,
    /// How many pieces each proof asks to be kept.
    kept: u16,
}

/// What is found of the words: the sums over the calls, and the last state.
fn find_sums(alloc: Global, words: &GenWords<'_>) -> Result<Report, Halt>
    ensures finds { let words = words.now in InHand (FindsLines
        (with_source (library_text words.name.now) (λ text. with_numbers words.seed.now words.count.now words.kept.now (λ numbers.
        with_text text (λ p. generated_by p words.name.now numbers))))) result }
    ensures ending { IfOk result (λ report. IsOutcome (ending_status report.ending)) }
{
    let source = source_named(words.name)?;
    let numbers = read_numbers(words)?;
    let code = code_of_text(alloc, source)?;
    generate(alloc, &code, words.name, numbers)
}

/// The numbers that the words tell. The first that is refused halts it.
fn read_numbers(words: &GenWords<'_>) -> Result<Numbers, Halt>
    ensures goes { let words = words.now in InHand (StepGives (with_numbers words.seed.now words.count.now words.kept.now) numbers_of) result }
    ensures rounds { IfOk result (λ numbers. numbers.rounds ≤ 100000) }
    ensures kept { IfOk result (λ numbers. numbers.kept ≤ 1024) }
{
    let seed = number_named(words.seed, Argument::Seed, u64::MAX)?;
    let rounds = number_named(words.count, Argument::Count, MOST_ROUNDS)?;
    let kept = number_named(words.kept, Argument::Number, MOST_KEPT)?;
    Ok(Numbers {
        seed,
        rounds: rounds as u32,
        kept: kept as u16,
    })
}

/// The greatest number of rounds of a workload.
const MOST_ROUNDS: u64 = 100_000;
/// The greatest number of pieces that a proof may ask to be kept, in the format of every program: it is judged before the program is read.
const MOST_KEPT: u64 = 1_024;

/// The code of the program of a text, which has at most 262,144 bytes.
fn code_of_text(alloc: Global, text: &[u8]) -> Result<Code, Halt>
    requires { length text.now ≤ most_program_bytes }
    ensures { InHand (StepGives (with_text text.now) (λ code. named_of (program_in code))) result }
{
    let program = read_program(alloc, text)?;
    Ok(Code::generate(program, alloc)?)
}

/// The same of the code of the program: from the state that its init makes, or of the init's outcome where this makes none.
fn generate(alloc: Global, code: &Code, name: &str, numbers: Numbers) -> Result<Report, Halt>
    requires rounds { numbers.rounds ≤ 100000 }
    requires kept { numbers.kept ≤ 1024 }
    ensures finds { InHand (FindsLines (generated_by (named_of (program_in code.now)) name.now (numbers_of numbers))) result }
    ensures ending { IfOk result (λ report. IsOutcome (ending_status report.ending)) }
{
    let program = code.program();
    let workload = workload_of(program, name, numbers.kept)?;
    let call = first_call(name);
    let ended = call_init(alloc, code, &call)?;
    match state_made(&ended) {
        Some(root) => {
            let store = ended.store;
            let first = Loaded { store, root };
            Ok(run_and_tell(alloc, code, first, &workload, numbers)?)
        }
        None => Ok(role_report(alloc, program, &ended)?),
    }
}

/// The words of the call that makes the first state: of `merkle` a tree of 2^10 leaves with the value 0, else an empty tree.
fn first_call(name: &str) -> CallWords<'_>
    ensures role { result.role.now ≡ first_role name.now }
    ensures argument { result.argument.now ≡ first_argument name.now }
    ensures fuel { result.fuel.now ≡ codes "1000000" }
{
    let (role, argument) = match name {
        "merkle" => ("make", "(10, 0)"),
        _ => ("empty", "()"),
    };
    CallWords {
        program: name,
        role,
        argument,
        fuel: "1000000",
    }
}

/// The sums over a workload from a state on, and the last state.
fn run_and_tell(
    alloc: Global,
    code: &Code,
    first: Loaded,
    workload: &Workload,
    numbers: Numbers,
) -> Result<Report, AllocError>
    requires state { (v : Value) × IsStoredState (meaning (program_in code.now)) first v }
    requires calls { AreCalled (meaning (program_in code.now)) workload.now }
    requires rounds { numbers.rounds ≤ 100000 }
    requires kept { workload.now.kept ≤ 1024 }
    ensures finds { let p = program_in code.now in IfOk result (λ report. (v : Value) → IsStoredState (meaning p) first v
        → TellsLines (workload_answer (named_of p) (numbers_of numbers) workload.now v) report) }
    ensures ending { IfOk result (λ report. IsOutcome (ending_status report.ending)) }
{
    let mut store = first.store;
    let told = run_workload::<Sha, Store>(
        alloc,
        code,
        &mut store,
        first.root,
        workload,
        numbers.seed,
        numbers.rounds,
    )?;
    let (tally, root) = told;
    let last = Loaded { store, root };
    sums_report(alloc, code.program(), &tally, &last)
}

/// The report of sums over calls and of a state.
fn sums_report(
    alloc: Global,
    program: &Program,
    tally: &Tally,
    last: &Loaded,
) -> Result<Report, AllocError>
    requires { (v : Value) × IsStoredState (meaning program.now) last.now v }
    ensures tells { IfOk result (λ report. (v : Value) → IsStoredState (meaning program.now) last.now v
        → TellsLines (sums_answer (named_of program.now) tally.now v) report) }
    ensures ending { IfOk result (λ report. IsOutcome (ending_status report.ending)) }
{
    let mut text = calls_line(
        alloc,
        tally.calls(),
        tally.done(),
        tally.fresh(),
        tally.again(),
        tally.bytes(),
    )?;
    let shown = spell_state(alloc, program, last)?;
    text.extend_from_slice(&shown.report.text)?;
    Ok(Report {
        ending: Ending::Done,
        text,
    })
}
