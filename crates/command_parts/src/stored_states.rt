// Ideal states, from images.
ghost use Rattle.std.specs.Prelude.{◌≡◌, ◌≤◌, length, IfOk};
ghost use Rattle.std.specs.Option.{ForSome};
ghost use Rattle.core_terms.specs.Limits.{most_file_bytes};
ghost use Rattle.core_terms.specs.Programs.{meaning};
ghost use Rattle.core_terms.specs.Values.{Value};
ghost use Rattle.command_parts.specs.ReachingInCode.{FaultsAt};
ghost use Rattle.command_parts.specs.FileInputs.{with_image, with_image_bytes, with_image_file};
ghost use Rattle.command_parts.specs.Halting.{StepGivesFor, HaltCause, InHand};
ghost use Rattle.command_parts.specs.ReadPrograms.{digested_of};
ghost use Rattle.command_parts.specs.StoredStates.{IsStoredState};
ghost use Rattle.images.specs.Images.{Root, image_of};

use crate::Halt;
use crate::report::load;
use core_terms::{MOST_FILE_BYTES, Program};
use digest_layer::ProverMarker;
use images::{Loaded, load_image};
use lam_outside::Files;
use printed_lines::refusal::Argument;
use std::alloc::Global;

/// The ideal state in a file with an image of the program, over the prover's nodes.
pub fn load_image_file<F: Files>(
    alloc: Global,
    files: &mut F,
    program: &Program,
    name: &str,
) -> Result<Loaded, Halt>
    ensures goes { ForSome (F.contents files.old) (λ told. StepGivesFor (with_image_file (digested_of program.now) (told name.now)) (IsStoredState (meaning program.now)) result) }
    ensures stands { IfOk result (λ loaded. (v : Value) × IsStoredState (meaning program.now) loaded v) }
    ensures asked { FaultsAt name.now (F.asked files.new) result }
    ensures cause { HaltCause (F.faults files.old) (F.faults files.new) result }
    ensures contents { F.contents files.new ≡ F.contents files.old }
    ensures stores { F.stores files.new ≡ F.stores files.old }
    ensures store_faults { F.store_faults files.new ≡ F.store_faults files.old }
{
    let image = load(alloc, files, Argument::Image, name, MOST_FILE_BYTES)?;
    load_state(alloc, program, &image)
}

/// The bytes of a file with an image of the program, which is judged.
pub fn load_image_bytes<F: Files>(
    alloc: Global,
    files: &mut F,
    program: &Program,
    name: &str,
) -> Result<Vec<u8>, Halt>
    ensures goes { ForSome (F.contents files.old) (λ told. StepGivesFor (with_image_bytes (digested_of program.now) (told name.now)) (λ bytes image. bytes.items ≡ image) result) }
    ensures image { let p = digested_of program.now in IfOk result (λ bytes. (v : Value) × (image_of p.program p.digest bytes.items ≡ Root v)) }
    ensures fits { IfOk result (λ bytes. length bytes.items ≤ most_file_bytes) }
    ensures asked { FaultsAt name.now (F.asked files.new) result }
    ensures cause { HaltCause (F.faults files.old) (F.faults files.new) result }
    ensures contents { F.contents files.new ≡ F.contents files.old }
    ensures stores { F.stores files.new ≡ F.stores files.old }
    ensures store_faults { F.store_faults files.new ≡ F.store_faults files.old }
{
    let image = load(alloc, files, Argument::Image, name, MOST_FILE_BYTES)?;
    load_state(alloc, program, &image)?;
    Ok(image)
}

/// The ideal state in an image of the program, over the prover's nodes.
pub fn load_state(alloc: Global, program: &Program, bytes: &[u8]) -> Result<Loaded, Halt>
    ensures goes { InHand (StepGivesFor (with_image (digested_of program.now) bytes.now) (IsStoredState (meaning program.now))) result }
    ensures stands { IfOk result (λ loaded. (v : Value) × IsStoredState (meaning program.now) loaded v) }
{
    let types = program.types();
    let mut marker = ProverMarker::new(alloc, types)?;
    let digest = program.text_digest();
    Ok(load_image(alloc, types, digest, &mut marker, bytes)?)
}
