// How a command tells what it found that may store a file.
ghost use Rattle.std.specs.Prelude.{◌≡◌, Ok};
ghost use Rattle.lam_outside.specs.Causes.{HasCause};
ghost use Rattle.lam_outside.specs.Told.{AddsStores};
ghost use Rattle.command_parts.specs.Storing.{StoresAndTells, stored_as};

use crate::report::tell;
use crate::{Halt, Output, Status};
use lam_outside::{Failed, Files, Sink};
use std::alloc::Global;

/// Stores the file that was found, where there is one, and then writes the lines; or writes the line for what halted the
/// work.
///
/// `WriteFault` exactly where the file could not be stored, and then nothing is written, or where the sink failed.
pub fn store_and_tell<F: Files, O: Sink>(
    alloc: Global,
    name: &str,
    files: &mut F,
    out: &mut O,
    found: Result<Output, Halt>,
) -> Status
    ensures ends { StoresAndTells name.now found result (F.stores files.old) (F.stores files.new) (F.store_faults files.old) (F.store_faults files.new)
        (O.written out.old) (O.written out.new) (O.faults out.old) (O.faults out.new) }
    ensures faults { F.faults files.new ≡ F.faults files.old }
    ensures asked { F.asked files.new ≡ F.asked files.old }
{
    match found {
        Ok(output) => store_output(alloc, name, files, out, output),
        Err(halt) => tell(alloc, out, Err(halt)),
    }
}

/// The same of an output.
fn store_output<F: Files, O: Sink>(
    alloc: Global,
    name: &str,
    files: &mut F,
    out: &mut O,
    output: Output,
) -> Status
    ensures ends { StoresAndTells name.now (Ok output) result (F.stores files.old) (F.stores files.new) (F.store_faults files.old) (F.store_faults files.new)
        (O.written out.old) (O.written out.new) (O.faults out.old) (O.faults out.new) }
    ensures faults { F.faults files.new ≡ F.faults files.old }
    ensures asked { F.asked files.new ≡ F.asked files.old }
{
    match store_file(files, name, &output.file) {
        Ok(()) => tell(alloc, out, Ok(output.report)),
        Err(Failed) => Status::WriteFault,
    }
}

/// Stores these bytes under the name, where there are some.
fn store_file<F: Files>(files: &mut F, name: &str, file: &Option<Vec<u8>>) -> Result<(), Failed>
    ensures listed { AddsStores (F.stores files.old) (F.stores files.new) (stored_as name.now file.now) }
    ensures faults { F.faults files.new ≡ F.faults files.old }
    ensures asked { F.asked files.new ≡ F.asked files.old }
    ensures cause { HasCause (F.store_faults files.old) (F.store_faults files.new) result }
{
    match file {
        Some(bytes) => files.store(name, bytes),
        None => Ok(()),
    }
}
