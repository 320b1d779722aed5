// All that the program does.
ghost use Rattle.std.specs.Prelude.{◌≡◌, ◌≢◌, ◌⊎◌, ◌↔◌, ◌<◌, ◌-◌, ◌^◌, ℕ, List, codes, Some};
ghost use Rattle.std.specs.Option.{ForSome};
ghost use Rattle.std.specs.Io.KnownBytes.{append_known};
ghost use Rattle.command_words.specs.CommandLine.{AreRefused};
ghost use Rattle.command_words.specs.Commands.{texts};
ghost use Rattle.command_words.specs.Invocations.{Invocation, invocation_of};
ghost use Rattle.command_words.specs.declared.command.Command.TheVariants.{Ask, Audit, Draw, Found, Host, Mirror, Prove, Replay, Serve};
ghost use Rattle.collision_audit.specs.Splits.{Split};
ghost use Rattle.lam_outside.specs.Causes.{Rose};
ghost use Rattle.command_parts.specs.Answer.{Asking, Drawing, answer};
ghost use Rattle.net_commands.specs.Asking.{CallsAsk, IsAsk, TellsTrueOutcomes};
ghost use Rattle.call_commands.specs.AuditedCalls.{CallsAudit, IsAudited, SplitsAt, TellsAnAudit};
ghost use Rattle.command_parts.specs.Codes.{code};
ghost use Rattle.net_commands.specs.Drawing.{CallsDraw, DrawsTrueOutcomes, IsDraw};
ghost use Rattle.net_commands.specs.Mirroring.{IsMirror};
ghost use Rattle.command_parts.specs.Ending.{EndsAs, IsOfFault, IsToldByCode, MayWrite, NoneRose, StoresSome, WritesPart, no_memory_text};
ghost use Rattle.command_parts.specs.Outsides.{outside};
ghost use Rattle.command_parts.specs.IdealCalls.{IdealCall};
ghost use Rattle.net_commands.specs.NetFaults.{NetRose, net_faults};
ghost use Rattle.auth_cli.specs.NetRuns.{DialsNone, IfCalled, IsOffline, ListensToNone, UsesNoDisk, UsesNoNet};
ghost use Rattle.net_commands.specs.Hosting.{IsHost};
ghost use Rattle.journal_commands.specs.DisksSeen.{disk_seen};
ghost use Rattle.journal_commands.specs.Founding.{EndsFounding};
ghost use Rattle.journal_commands.specs.Replaying.{EndsReplaying};
ghost use Rattle.net_commands.specs.OnlineRuns.{net_seen};
ghost use Rattle.call_commands.specs.ProvedCalls.{CallsProve, IsProved};
ghost use Rattle.command_parts.specs.Reaching.{IsReached};
ghost use Rattle.net_commands.specs.Serving.{IsServe};
ghost use Rattle.command_parts.specs.Statuses.{MayAnswer};
ghost use Rattle.call_commands.specs.TrueFetches.{IsTrueFetch};
ghost use Rattle.call_commands.specs.TrueLines.{IsTrueLine, TellsOutcome};
ghost use Rattle.command_parts.specs.declared.status.Status.{Status};

use crate::carrying_out::ended;
use command_parts::Status;
use command_words::read;
use lam_outside::{Disk, Files, Net, Sink};
use std::alloc::Global;
use std::thread::Threads;

/// Runs the words of a command line, the program's name first, and answers the exit status.
///
/// Each line ends with a line feed and goes to the sink. Numbers are decimal, digests 64 lower-case hexadecimal digits, places in
/// a program's text a line and a column, from 1 and by bytes, other places an offset:
///
/// | status | line | comes |
/// |---|---|---|
/// | 0 | `ok DIGEST` | `check`: the file is a program, as a text or as an object, and has this SHA-256 digest |
/// | 0 | `calls C done D new A used U bytes B` | `gen`: of C calls D ended with a value; together their proofs have A pieces of their own and name U again, and their files have B bytes |
/// | 0 | `state VALUE` | `shallow`: the projection of the state has this value, and its spelling is stored; `migrate`: the same by the program that the state is moved to, whose image is stored; `gen`, behind the line of its calls: that of the last state has it |
/// | 0 | the text | `library`: the program of the library, unchanged |
/// | 0 | `pieces N` | `pieces`: the mirror that is stored has N pieces |
/// | 0 | `done VALUE` | the outcome has this value, in projection; the image of the state that `init` or `step` made is stored, and the spelling of the one that `verify` names a file for |
/// | 0, 3, 4 | `proof new A used U bytes B` | `prove`, behind the outcome's line: the proof has A pieces of its own, names U again, and the file that is stored has B bytes |
/// | 0, 7, 8, 9, 10 | `listening PORT` | `serve`, `mirror` and `host`, as soon as they listen; other lines may follow |
/// | 0, 7, 8, 10 | `versions V commits C` | `serve` and `host`, behind their last connection: they have so many versions of the state, and commits that made them; `replay`: so many are in the journal, and the image of the last version is stored |
/// | 0, 5, 8, 10 | `S welcome`, `S done VALUE`, `S trap NAME`, `S out of fuel`, `S stale`, `S refused CODE`, `S closed` | `ask`: what session S is told; other lines may follow |
/// | 0, 5, 8, 10 | `S out of turn` | `ask`: the script asks what session S can't do as it stands; other lines may follow |
/// | 2 | `usage: lamauth COMMAND ARGUMENTS` | the words call no command |
/// | 3 | `trap NAME` | the outcome is this trap: `overflow`, `divzero`, `toobig`, `toodeep`, `index` |
/// | 4 | `out of fuel` | the outcome is the want of fuel |
/// | 0, 3, 4 | `agrees ` and such a line | `audit`: the proof is accepted with this outcome, which is the projection of the ideal one |
/// | 5 | `rejected CAUSE` | the proof is rejected, or a piece of the mirror, for the cause below; in `audit` it shows no collision |
/// | 5 | `S rejected CAUSE` | `ask`, as the last line: the proof of a call of session S is rejected |
/// | 5 | `bad reply S stranger`, `bad reply S wrong KIND`, `server closed CODE`, `bad message KIND OFFSET`, `message too long BYTES`, `reply cut`, `reply ended` | `ask`, as the last line: another reply came than one that is waited for, or none; the last four also of `draw`, of what comes where an answer is waited for |
/// | 6 | `program refused: KIND LINE COLUMN` | the text is no program: its first fault |
/// | 6 | `program refused: object cut BYTES` | the object ends inside a field: how many bytes it has |
/// | 6 | `program refused: object field OFFSET` | the object's field that begins there is not allowed |
/// | 6 | `program refused: object leftover BYTES` | so many bytes stand behind the object |
/// | 6 | `program refused: object shape FUNCTION` | the object's function with this number, from 0, has not the shape of its role, or has an `auth` in its argument |
/// | 6 | `program refused: object kind FUNCTION INSTRUCTION` | the instruction with this number of that function, both from 0, is at fault |
/// | 7 | `input refused: too long ARGUMENT` | the file that `P`, `Q`, `STATE`, `IMG`, `SCRIPT` or `MIRROR` names is too long, or the image, the mirror or the object for `OUT` would be |
/// | 7 | `input refused: library unknown` | the library has no program of this name |
/// | 7 | `input refused: migrate format` | the one program isn't of the first format, or the other not of the second |
/// | 7 | `input refused: migrate types` | the type declarations of the two programs, as they are printed, or the types of their states differ |
/// | 7 | `input refused: object format` | `emit`: the file begins as an object, or its program is of the second format |
/// | 7 | `input refused: role unknown` | the program has no role of this name |
/// | 7 | `input refused: role kind` | the role is not of the kind that the command calls: an init for `init`, an update for `step` and for `verify` with `OUT`, else a query or an update |
/// | 7 | `input refused: number FUEL` | the fuel isn't of 1 to 20 digits, or above 10^12 |
/// | 7 | `input refused: number SEED` | the seed isn't of 1 to 20 digits, or above 2^64 - 1 |
/// | 7 | `input refused: number COUNT` | the number of rounds isn't of 1 to 20 digits, or above 100,000 |
/// | 7 | `input refused: number PORT` | the port isn't of 1 to 20 digits, or not from 1 to 65,535 |
/// | 7 | `input refused: number CONNS` | the number of connections isn't of 1 to 20 digits, or not from 1 to 1,000 |
/// | 7 | `input refused: number SLICE` | the number of calls in a turn isn't of 1 to 20 digits, or not from 1 to 1,000,000 |
/// | 7 | `input refused: number N` | the number of pieces that are kept isn't of 1 to 20 digits, or above 1,024 |
/// | 7 | `input refused: state OFFSET` | the state's bytes are no spelling: the first fault |
/// | 7 | `input refused: image magic` | the image doesn't begin as one |
/// | 7 | `input refused: image program` | the image is one of another program |
/// | 7 | `input refused: image cut BYTES` | the image ends too early: how many bytes it has |
/// | 7 | `input refused: image record NUMBER` | the record is not allowed; records are numbered from 0 |
/// | 7 | `input refused: image too big NUMBER` | the spelling of the record's value would be too long |
/// | 7 | `input refused: image too deep NUMBER` | the record's value is too deep |
/// | 7 | `input refused: image root` | the last record hasn't the type of the state, or there is none |
/// | 7 | `input refused: image leftover BYTES` | so many bytes stand behind the last record |
/// | 7 | `input refused: mirror cut BYTES` | the mirror ends too early: how many bytes it has |
/// | 7 | `input refused: mirror field OFFSET` | the field of the mirror is not allowed: its first bytes, the length of a piece over 1,048,608, or that of a piece that stood before |
/// | 7 | `input refused: mirror leftover BYTES` | so many bytes stand behind the last piece |
/// | 7 | `input refused: journal not empty` | `found`: the file of the journal has bytes |
/// | 7 | `input refused: journal magic` | the journal doesn't begin as one |
/// | 7 | `input refused: journal cut BYTES` | the journal ends inside a later part: how many bytes it has |
/// | 7 | `input refused: journal program` | the journal is one of another program |
/// | 7 | `input refused: journal image FAULT` | the image of the journal is refused: its first fault, as above |
/// | 7 | `input refused: journal record NUMBER` | the record of the journal is no update that makes a version of the last one; records are numbered from 0 |
/// | 7 | `input refused: argument KIND OFFSET` | the argument is no literal of its type: the first fault |
/// | 7 | `input refused: script LINE` | the line of the script with this number, from 1, asks for nothing: the first such line |
/// | 8 | `read fault` | a file could not be read, or a journal |
/// | 8, 10 | `link fault` | `serve`, `mirror`, `host`: they could not listen; `ask`, `draw`: they could not dial; or, as the last line, a link or an accept failed. 10 where memory was wanting for the image that `serve` stores |
/// | 9 | a front of the lines, which may end inside of one | the sink failed, or the disk of a journal could not be written, or a file not stored: then nothing is written, but by `host` the line that it listens, and by `serve` and `ask` all lines, or a front of them where the sink failed too |
/// | 10 | `no memory` | memory was wanting; of `serve`, behind `versions V commits C` where it was for the image to store |
/// | 11 | `collision PLACE OFFERED HONEST` | `audit`: the first offered piece that differs from the honest one has its digest: the place, and both pieces in lower-case hexadecimal digits, one without bytes as `-`; in the second format the fingerprint of their type stands behind them |
///
/// The causes of a rejection; a piece goes by its place, the number in which it is asked for, from 0:
///
/// | cause | comes |
/// |---|---|
/// | `header` | the proof doesn't begin as it must |
/// | `short PLACE` | no byte is left where a piece is asked for |
/// | `bad-kind PLACE BYTE` | no frame begins with this byte |
/// | `cut PLACE` | the frame isn't whole |
/// | `piece-long PLACE LENGTH` | the piece is longer than a spelling may be |
/// | `bad-use PLACE NUMBER HELD` | the frame names a kept piece, and fewer are kept |
/// | `wrong-piece PLACE WANT FOUND` | the digest held, and that of the piece |
/// | `bad-piece PLACE OFFSET` | the digests agree, and the piece is no spelling |
/// | `missing PLACE WANT` | `fetch`, `draw`: the mirror has no piece with the digest held |
/// | `leftover BYTES` | the run ended, and so many bytes are left, or 65536 where there are more |
///
/// A program is read from a text of at most 262,144 bytes, or from an object, which begins with `LAO1`, of at most 4,194,304. `migrate` reads texts
/// alone, and so does `emit`, which stores the object of a text's program and writes no line. Each other file has at most 67,108,864 bytes, but
/// that a proof that is judged may have any length. What is refused first in this order ends the run: the words, the program, in `migrate` the other program and what both have in common, the role, the fuel, the number of
/// pieces that are kept, the port, the number of connections, the number of calls in a turn, the state or the image, the argument,
/// the script, the proof, the mirror, the journal; of `gen` the words, the name, the seed, the number of rounds, the number of pieces that are kept. A file is
/// opened when all that stands before it is well-formed, so `read fault` comes only from a file that this order had reached. A file is
/// stored before any line is written, but by `serve` and `ask`: they write their lines as they arise, and behind them `serve` stores the
/// last version, however it ended once its words and files were in order, and `ask` the state told last, once it dialled. Behind
/// `link fault` and `no memory` no line says that the image wasn't stored: where memory was wanting for it the status is 10, and where it
/// would be too long it is as before. `serve`, `ask`, `mirror`,
/// `draw` and `host` alone use the net, and wait for peers; `serve` and `host` alone start threads, for the turns of a round. `found`, `host` and `replay`
/// alone use the disk, on which a journal may have any length. `host` keeps each commit in the journal before it tells it; where it can't, it ends.
pub fn run<F: Files, O: Sink, N: Net, D: Disk, R: Threads + Sync>(
    rt: &R,
    alloc: Global,
    words: &[&str],
    files: &mut F,
    out: &mut O,
    net: &mut N,
    disk: &mut D,
) -> u8
    requires reads_below { F.faults files.old < 2 ^ 64 - 1 }
    requires stores_below { F.store_faults files.old < 2 ^ 64 - 1 }
    requires writes_below { O.faults out.old < 2 ^ 64 - 1 }
    requires links_below { N.faults net.old < 2 ^ 64 - 1 }
    requires listens_below { N.listen_faults net.old < 2 ^ 64 - 1 }
    requires accepts_below { N.accept_faults net.old < 2 ^ 64 - 1 }
    requires dials_below { N.dial_faults net.old < 2 ^ 64 - 1 }
    requires disk_reads_below { D.read_faults disk.old < 2 ^ 64 - 1 }
    requires disk_writes_below { D.write_faults disk.old < 2 ^ 64 - 1 }

    // The one sentence from which the others follow, of words that call no command on the net or on a disk: what was written and stored, and which
    // counts rose, by the status.
    ensures ends { IsOffline (invocation_of (texts words.now)) → let seen = outside F.contents F.stores F.faults F.store_faults O.written O.faults in
        (status : Status) × (result ≡ code status)
        × EndsAs (answer (texts words.now)) (seen files.old out.old) (seen files.new out.new) status }

    // The one of `serve`: what was sent on each link that was made, what was written of it, and the last version, which is stored however the
    // serving ended.
    ensures serves { let seen = outside F.contents F.stores F.faults F.store_faults O.written O.faults in
        let links = net_seen N.ended N.linked N.given N.left N.sent N.reads N.listened (net_faults N.faults N.listen_faults N.accept_faults N.dial_faults) in
        (called : Invocation) → invocation_of (texts words.now) ≡ Some called → called.command ≡ Serve
        → (status : Status) × (result ≡ code status) × IsServe called.texts (seen files.old out.old) (seen files.new out.new) (links net.old) (links net.new) status }

    // The one of `ask`: what was sent on the link that was made, what was written of the play on the replies that came, and the state told last,
    // which is stored however the play ended.
    ensures asks { let seen = outside F.contents F.stores F.faults F.store_faults O.written O.faults in
        let links = net_seen N.ended N.linked N.given N.left N.sent N.reads N.listened (net_faults N.faults N.listen_faults N.accept_faults N.dial_faults) in
        (called : Invocation) → invocation_of (texts words.now) ≡ Some called → called.command ≡ Ask
        → (status : Status) × (result ≡ code status) × IsAsk called.texts (seen files.old out.old) (seen files.new out.new) (links net.old) (links net.new) status }

    // What `ask` tells is true, whoever serves and whatever replies come: on each state that a session's told updates leave, each outcome that it is told
    // is the projection of the ideal one, up to the first proof that shows a collision at a named place.
    ensures told_truth { (called : Invocation) → invocation_of (texts words.now) ≡ Some called → called.command ≡ Ask
        → (asking : Asking) (name : List ℕ) → CallsAsk called.texts (F.contents files.old) asking name → TellsTrueOutcomes asking }

    // The one of `mirror`: what was sent on each link that was made, and what was written of it.
    ensures mirrors { let seen = outside F.contents F.stores F.faults F.store_faults O.written O.faults in
        let links = net_seen N.ended N.linked N.given N.left N.sent N.reads N.listened (net_faults N.faults N.listen_faults N.accept_faults N.dial_faults) in
        (called : Invocation) → invocation_of (texts words.now) ≡ Some called → called.command ≡ Mirror
        → (status : Status) × (result ≡ code status) × IsMirror called.texts (seen files.old out.old) (seen files.new out.new) (links net.old) (links net.new) status }

    // The one of `draw`: what was asked for on the link that was made, and the verdict over the answers that came.
    ensures draws { let seen = outside F.contents F.stores F.faults F.store_faults O.written O.faults in
        let links = net_seen N.ended N.linked N.given N.left N.sent N.reads N.listened (net_faults N.faults N.listen_faults N.accept_faults N.dial_faults) in
        (called : Invocation) → invocation_of (texts words.now) ≡ Some called → called.command ≡ Draw
        → (status : Status) × (result ≡ code status) × IsDraw called.texts (seen files.old out.old) (seen files.new out.new) (links net.old) (links net.new) status }

    // What `draw` accepts is true, whoever answers and whatever comes: the outcome is the projection of the ideal one, or the first piece that differs
    // from the honest one has its digest.
    ensures drawn_truth { (called : Invocation) → invocation_of (texts words.now) ≡ Some called → called.command ≡ Draw
        → (drawing : Drawing) → CallsDraw called.texts (F.contents files.old) drawing → DrawsTrueOutcomes drawing.call }

    // The one of `host`: what was sent on each link that was made, of which nothing tells a commit before it was kept, what was written of it, and what the
    // journal keeps in the end and at each moment.
    ensures hosts { let seen = outside F.contents F.stores F.faults F.store_faults O.written O.faults in let on = disk_seen D.contents D.moments D.read_faults D.write_faults in
        let links = net_seen N.ended N.linked N.given N.left N.sent N.reads N.listened (net_faults N.faults N.listen_faults N.accept_faults N.dial_faults) in
        (called : Invocation) → invocation_of (texts words.now) ≡ Some called → called.command ≡ Host
        → (status : Status) × (result ≡ code status)
        × IsHost called.texts (seen files.old out.old) (seen files.new out.new) (links net.old) (links net.new) (on disk.old) (on disk.new) status }

    // Those of `found` and `replay`: status, lines and stored files, by the bytes of the journal's file too, and what they left on the disk.
    ensures founds { let seen = outside F.contents F.stores F.faults F.store_faults O.written O.faults in let on = disk_seen D.contents D.moments D.read_faults D.write_faults in
        (called : Invocation) → invocation_of (texts words.now) ≡ Some called → called.command ≡ Found
        → (status : Status) × (result ≡ code status) × EndsFounding called.texts (seen files.old out.old) (seen files.new out.new) (on disk.old) (on disk.new) status }
    ensures replays { let seen = outside F.contents F.stores F.faults F.store_faults O.written O.faults in let on = disk_seen D.contents D.moments D.read_faults D.write_faults in
        (called : Invocation) → invocation_of (texts words.now) ≡ Some called → called.command ≡ Replay
        → (status : Status) × (result ≡ code status) × EndsReplaying called.texts (seen files.old out.old) (seen files.new out.new) (on disk.old) (on disk.new) status }

    // Where no count rose, status, lines and stored files are those of the defined answer, or memory was wanting.
    ensures answered { IsOffline (invocation_of (texts words.now)) → let seen = outside F.contents F.stores F.faults F.store_faults O.written O.faults in
        NoneRose (seen files.old out.old) (seen files.new out.new) → result ≢ 10
        → ForSome (F.contents files.old) (λ told. IsToldByCode (answer (texts words.now) told) (seen files.old out.old) (seen files.new out.new) result) }

    // What a told outcome says of the ideal run, and the new state that is stored, whoever made the proof.
    ensures headline { let seen = outside F.contents F.stores F.faults F.store_faults O.written O.faults in
        ForSome (F.contents files.old) (λ told. IsTrueLine (texts words.now) told (seen files.old out.old) (seen files.new out.new) result) }

    // What an outcome that `fetch` tells says of the ideal run, whoever made the mirror: its answers are the honest pieces and the outcome is true, or
    // two different pieces have one digest.
    ensures fetched { let seen = outside F.contents F.stores F.faults F.store_faults O.written O.faults in
        ForSome (F.contents files.old) (λ told. IsTrueFetch (texts words.now) told (seen files.old out.old) (seen files.new out.new) result) }

    // What `prove` stores is accepted: `verify` answers it, from the projected state alone, with the very status and line of the run.
    ensures companion { let seen = outside F.contents F.stores F.faults F.store_faults O.written O.faults in
        (called : Invocation) → invocation_of (texts words.now) ≡ Some called → called.command ≡ Prove → TellsOutcome result → ForSome (F.contents files.old) (λ told.
        (status : Status) × (result ≡ code status) × IsProved called told (seen files.old out.old) (seen files.new out.new) status) }

    // And a proof is stored: where the words of `prove` and the files mean a call, the run tells its outcome, 8, 9 and 10 aside.
    ensures proves { (called : Invocation) → invocation_of (texts words.now) ≡ Some called → ForSome (F.contents files.old) (λ told.
        (call : IdealCall) (n : ℕ) (name : List ℕ) → CallsProve called told call n name → TellsOutcome result ⊎ IsOfFault result) }

    // What `audit` tells is so: 11, which no other command answers, only where the offered pieces split from the honest ones, with the
    // place and both pieces.
    ensures audited { let seen = outside F.contents F.stores F.faults F.store_faults O.written O.faults in
        (called : Invocation) → invocation_of (texts words.now) ≡ Some called → called.command ≡ Audit → TellsAnAudit result → ForSome (F.contents files.old) (λ told.
        (status : Status) × (result ≡ code status) × IsAudited called told (seen files.old out.old) (seen files.new out.new) status) }

    // And 11 comes wherever they do: where the words of `audit` and the files mean a call and a proof whose offered pieces split from
    // the honest ones, 8, 9 and 10 aside.
    ensures split { (called : Invocation) → invocation_of (texts words.now) ≡ Some called → ForSome (F.contents files.old) (λ told.
        (call : IdealCall) (proof : List ℕ) → CallsAudit called told call proof → (split : Split) → SplitsAt call proof split → (result ≡ 11) ⊎ IsOfFault result) }

    // Whatever the files hold: each command answers some of the statuses alone.
    ensures possible { (called : Invocation) → invocation_of (texts words.now) ≡ Some called → (status : Status) × (result ≡ code status) × MayAnswer called.command status }

    // 11 from `audit` alone.
    ensures collision { result ≡ 11 → (called : Invocation) × (invocation_of (texts words.now) ≡ Some called) × (called.command ≡ Audit) }

    // 2 exactly where the program's own test or clap refuses the words, 9 and 10 aside.
    ensures usage { result ≡ 2 → AreRefused (texts words.now) }
    ensures refused { AreRefused (texts words.now) → (result ≡ 2) ⊎ ((result ≡ 9) ⊎ (result ≡ 10)) }

    // 8 exactly where the read count of the files, a count of the net or the read count of the disk rose, 9 and 10 aside; and then, of words that call no
    // command on the net or on a disk, `read fault` alone was written.
    ensures fault { let counts = net_faults N.faults N.listen_faults N.accept_faults N.dial_faults in
        result ≡ 8 → Rose (F.faults files.old) (F.faults files.new) ⊎ (NetRose (counts net.old) (counts net.new) ⊎ Rose (D.read_faults disk.old) (D.read_faults disk.new)) }
    ensures rose { let counts = net_faults N.faults N.listen_faults N.accept_faults N.dial_faults in
        Rose (F.faults files.old) (F.faults files.new) ⊎ (NetRose (counts net.old) (counts net.new) ⊎ Rose (D.read_faults disk.old) (D.read_faults disk.new))
        → (result ≡ 8) ⊎ ((result ≡ 9) ⊎ (result ≡ 10)) }
    ensures read_fault_line { IsOffline (invocation_of (texts words.now)) → result ≡ 8 → O.written out.new ≡ append_known (O.written out.old) (codes "read fault\n") }

    // Words that call no command on the net leave it as it was; `ask` and `draw` alone dial, and `serve`, `mirror` and `host` alone listen and accept.
    ensures unused { IfCalled UsesNoNet (invocation_of (texts words.now)) → net.new ≡ net.old }
    ensures dials { IfCalled DialsNone (invocation_of (texts words.now)) → N.dial_faults net.new ≡ N.dial_faults net.old }
    ensures listens { IfCalled ListensToNone (invocation_of (texts words.now))
        → (N.listen_faults net.new ≡ N.listen_faults net.old) × (N.accept_faults net.new ≡ N.accept_faults net.old) }

    // And so of the disk, which `found`, `host` and `replay` alone use.
    ensures unused_disk { IfCalled UsesNoDisk (invocation_of (texts words.now)) → disk.new ≡ disk.old }

    // And where a file could not be read, it is one that the order of refusals had reached: the one that was asked for last, without which
    // these words and the other files have no answer.
    ensures reached { result ≡ 8 → Rose (F.faults files.old) (F.faults files.new) → IsReached (answer (texts words.now)) (F.contents files.old) (F.asked files.new) }

    // 9 exactly where the count of the sink, of `store` or of writing the disk rose, and then a part of such a text was written.
    ensures write_fault { result ≡ 9
        ↔ (Rose (O.faults out.old) (O.faults out.new) ⊎ (Rose (F.store_faults files.old) (F.store_faults files.new) ⊎ Rose (D.write_faults disk.old) (D.write_faults disk.new))) }
    ensures write_part { IsOffline (invocation_of (texts words.now)) → result ≡ 9 → ForSome (F.contents files.old) (λ told.
        (text : List ℕ) × MayWrite (answer (texts words.now) told) text × WritesPart (O.written out.old) (O.written out.new) text) }

    // Stored before any line, but by `serve` and `ask`: where a file could not be stored, nothing was written.
    ensures stored_first { IsOffline (invocation_of (texts words.now)) → Rose (F.store_faults files.old) (F.store_faults files.new)
        → O.written out.new ≡ O.written out.old }

    // At 10 whole lines of the answer were written, and then `no memory`.
    ensures no_memory { IsOffline (invocation_of (texts words.now)) → result ≡ 10 → ForSome (F.contents files.old) (λ told.
        (k : ℕ) × (O.written out.new ≡ append_known (O.written out.old) (no_memory_text (answer (texts words.now) told) k))) }

    // What `store` was given are files of the answer.
    ensures stored { IsOffline (invocation_of (texts words.now))
        → ForSome (F.contents files.old) (λ told. StoresSome (answer (texts words.now) told) (F.stores files.old) (F.stores files.new)) }
{
    ended(rt, alloc, words, files, out, net, disk).code()
}
