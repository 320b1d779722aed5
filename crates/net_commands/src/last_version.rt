// The image of the last version of a server, stored.
ghost use Rattle.std.specs.Prelude.{◌≡◌};
ghost use Rattle.command_parts.specs.Answer.{Serving};
ghost use Rattle.net_commands.specs.PreparedServers.{HoldsProgram};
ghost use Rattle.net_commands.specs.ServeSteps.{IsServer, IsUnstoredTold, StoresLast};
ghost use Rattle.net_commands.specs.Serving.{last_image};
ghost use Rattle.images.specs.Saves.{IsSaved};
ghost use Rattle.session_meaning.specs.Server.{Server};

use command_parts::{Halt, Status, tell};
use digest_layer::Sha;
use images::{SaveFault, save_image};
use lam_outside::{Failed, Files, Sink};
use serve_core::ServeCore;
use session_turns::NoGate;
use std::alloc::Global;

/// Stores the image of the last version under a name, behind lines that left this status.
///
/// Where it can't be stored, that is told in a line only where nothing else went wrong before.
pub fn store_last<F: Files, O: Sink>(
    alloc: Global,
    core: &ServeCore<Sha, NoGate>,
    name: &str,
    files: &mut F,
    out: &mut O,
    told: Status,
) -> Status
    requires { (s : Serving) × (server : Server) × HoldsProgram s core.now × IsServer core.now server }
    ensures stores { (s : Serving) (server : Server) → HoldsProgram s core.now → IsServer core.now server
        → StoresLast s server name.now told result (F.stores files.old) (F.stores files.new) (F.store_faults files.old) (F.store_faults files.new)
        (O.written out.old) (O.written out.new) (O.faults out.old) (O.faults out.new) }
    ensures faults { F.faults files.new ≡ F.faults files.old }
    ensures asked { F.asked files.new ≡ F.asked files.old }
{
    match last_image(alloc, core) {
        Ok(image) => match files.store(name, &image) {
            Ok(()) => told,
            Err(Failed) => Status::WriteFault,
        },
        Err(fault) => tell_unstored(alloc, out, told, fault),
    }
}

/// The image of the last version.
fn last_image(alloc: Global, core: &ServeCore<Sha, NoGate>) -> Result<Vec<u8>, SaveFault>
    requires { (s : Serving) × (server : Server) × HoldsProgram s core.now × IsServer core.now server }
    ensures { (s : Serving) (server : Server) → HoldsProgram s core.now → IsServer core.now server → IsSaved (last_image s server) result }
{
    let program = core.code().program();
    let versions = core.versions();
    let last = versions[versions.len() - 1];
    save_image(
        alloc,
        program.types(),
        program.text_digest(),
        core.store(),
        last,
    )
}

/// Tells that the image can't be stored, where nothing else went wrong before.
fn tell_unstored<O: Sink>(alloc: Global, out: &mut O, told: Status, fault: SaveFault) -> Status
    ensures { IsUnstoredTold told fault result (O.written out.old) (O.written out.new) (O.faults out.old) (O.faults out.new) }
{
    match (told, fault) {
        (Status::Done, fault) => tell(alloc, out, Err(Halt::from(fault))),
        (Status::ReadFault, SaveFault::NoMemory) => Status::NoMemory,
        (told, _) => told,
    }
}
