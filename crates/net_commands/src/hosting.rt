// What `host` serves, from its words, its files and its journal.
ghost use Rattle.std.specs.Prelude.{◌≡◌, ◌⊎◌, ◌≤◌, ℕ, List, IfOk};
ghost use Rattle.sha2.specs.Sha256.{sha256};
ghost use Rattle.code_gen.specs.Programs.{program_in};
ghost use Rattle.version_journal.specs.Openings.{Stands};
ghost use Rattle.command_parts.specs.Answer.{serving_of};
ghost use Rattle.command_parts.specs.UnansweredInCode.{unhosted_answer};
ghost use Rattle.command_parts.specs.ReadPrograms.{digested_of};
ghost use Rattle.command_parts.specs.Reaching.{IsReached};
ghost use Rattle.journal_commands.specs.DisksSeen.{DiskSeen, WritesNothing, disk_seen};
ghost use Rattle.journal_commands.specs.OpenedJournals.{IsOpenedBy};
ghost use Rattle.journal_commands.specs.Stops.{WorkCause};
ghost use Rattle.net_commands.specs.HostReading.{ReadsHost};
ghost use Rattle.net_commands.specs.PreparedHosts.{IsPreparedHost};
ghost use Rattle.net_commands.specs.PreparedServers.{numbers_held, numbers_of};
ghost use Rattle.net_commands.specs.ToldNumbers.{TellNumbers};

use crate::serving::{Numbers, PreparedServer, read_numbers};
use code_gen::Code;
use command_parts::read_code;
use journal_commands::{DiskStop, open_named};
use lam_outside::{Disk, Files};
use printed_lines::lines::listening_line;
use serve_core::ServeCore;
use session_turns::NoGate;
use std::alloc::{AllocError, Global};
use version_journal::{Journal, Opened};

/// The words of a hosting.
#[derive(Clone, Copy)]
pub struct HostWords<'a> {
    pub program: &'a str,
    pub journal: &'a str,
    pub port: &'a str,
    pub connections: &'a str,
    pub slice: &'a str,
}

/// A server before its first connection, and the journal with whose versions it begins.
#[derive(Drop)]
pub struct PreparedHost {
    pub server: Box<PreparedServer>,
    pub journal: Journal,
}

/// What the words, the files and the journal mean to host.
pub fn read_hosting<F: Files, D: Disk>(
    alloc: Global,
    words: &HostWords<'_>,
    files: &mut F,
    disk: &mut D,
) -> Result<PreparedHost, DiskStop>
    ensures reads { let on = disk_seen D.contents D.moments D.read_faults D.write_faults in ReadsHost words.now (F.contents files.old) (on disk.old) (on disk.new) result }
    ensures numbers { let words = words.now in IfOk result (λ host. TellNumbers words.port.now words.connections.now words.slice.now (numbers_held host.server.value)) }
    ensures writes { let on = disk_seen D.contents D.moments D.read_faults D.write_faults in WritesNothing words.now.journal.now (on disk.old) (on disk.new) }
    ensures reached { let words = words.now in (F.faults files.new ≡ F.faults files.old)
        ⊎ IsReached (unhosted_answer words.program.now words.port.now words.connections.now words.slice.now) (F.contents files.old) (F.asked files.new) }
    ensures cause { WorkCause (F.faults files.old) (F.faults files.new) (D.read_faults disk.old) (D.read_faults disk.new) (D.write_faults disk.old) (D.write_faults disk.new) result }
    ensures contents { F.contents files.new ≡ F.contents files.old }
    ensures stores { F.stores files.new ≡ F.stores files.old }
    ensures store_faults { F.store_faults files.new ≡ F.store_faults files.old }
{
    let code = read_code(alloc, files, words.program)?;
    let numbers = read_numbers(words.port, words.connections, words.slice)?;
    let opened = open_named(alloc, disk, &code, words.journal)?;
    Ok(prepare(alloc, code, opened, numbers)?)
}

/// A server of this code that begins with what was opened.
fn prepare(
    alloc: Global,
    code: Code,
    opened: Opened,
    numbers: Numbers,
) -> Result<PreparedHost, AllocError>
    requires stands { let p = digested_of (program_in code) in Stands sha256 p.program p.digest opened }
    requires slice { 1 ≤ numbers.slice }
    ensures prepared { let p = digested_of (program_in code) in IfOk result (λ host. (name : List ℕ) (disk disk' : DiskSeen) (is : IsOpenedBy p name disk disk' opened)
        → IsPreparedHost host (serving_of p (numbers_of numbers) is.stands.same) name disk disk') }
{
    let Opened { journal, shared } = opened;
    let greeting = listening_line(alloc, numbers.port)?;
    let core = ServeCore::resume(alloc, code, shared, numbers.slice, NoGate);
    let server = PreparedServer {
        core,
        port: numbers.port,
        connections: numbers.connections,
        greeting,
    };
    let server = Box::new(alloc, server)?;
    Ok(PreparedHost { server, journal })
}
