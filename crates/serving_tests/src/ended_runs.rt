// How runs over the files and links of this machine end, and how a link that `serve` ends looks to its peer, over TCP.
use command_parts::Halt;
use host_files::HostFiles;
use host_net::HostNet;
use host_run::{RunEnd, ended};
use lam_outside::{Files, Net};
use std::alloc::AllocError;
use std::fs;
use std::io::{self, Read, Write};
use std::net::{Ipv4Addr, Shutdown, TcpStream};
use std::test::Fail;
use std::thread::{Threads, join, sleep};
use std::time::Duration;

const CHECKED: &str = "/tmp/lamauth_program_of_a_test";

const PROGRAM: &str = "/tmp/lamauth_program_of_ended_links";

const IMAGE: &str = "/tmp/lamauth_image_of_ended_links";

const LAST: &str = "/tmp/lamauth_last_image_of_ended_links";

const TEXT: &[u8] =
    b"state int; init make(x: int): int = x; query more(s: int, x: int): int = add(s, x);";

/// A message that is none, and a length that is too long.
const BAD: &[u8] = b"\0\0\0\x01\x09";

const TOO_LONG: &[u8] = b"\xff\xff\xff\xff";

/// The reply to either.
const REFUSED: &[u8] = b"\0\0\0\x04\x84\0\0\x0b";

/// How many bytes are sent behind a message that is none: more than wait between two ends of a link, so they have to be taken.
const UNHEARD: usize = 16_000_000;

/// Runs the program on these words.
fn run<R: Threads + Sync>(threads: &R, rt: &HostRuntime, line: &str) -> Result<RunEnd, AllocError> {
    let mut words = Vec::new(rt.alloc());
    for word in line.split(' ') {
        words.push(String::from_str(rt.alloc(), word)?)?;
    }
    Ok(ended(threads, rt, Ok(words)))
}

/// The status of a run on these words.
fn status<R: Threads + Sync>(threads: &R, rt: &HostRuntime, line: &str) -> Result<u8, AllocError> {
    Ok(run(threads, rt, line)?.status())
}

#[test]
fn a_run_ends_with_its_status(rt: HostRuntime) -> Result<(), Fail> {
    let check = format!(in rt.alloc(); "lamauth check {CHECKED}")?;
    assert!(rt; HostFiles::new(&rt).store(CHECKED, TEXT).is_ok());
    assert!(rt; status(&rt, &rt, &check)? == 0);
    let _ = fs::remove_file(&rt, CHECKED);
    assert!(rt; status(&rt, &rt, &check)? == 8);
    assert!(rt; status(&rt, &rt, "lamauth")? == 2);
    assert!(rt; ended(&rt, &rt, Err(Halt::NoMemory)).status() == 10);
    Ok(())
}

/// A port that is free.
fn free_port(rt: &HostRuntime) -> u16 {
    let mut net = HostNet::new(rt);
    for port in 27_300..27_400 {
        if net.listen(port).is_ok() {
            return port;
        }
    }
    0
}

/// A link to this port, as soon as it is listened to.
fn dialed(rt: &HostRuntime, port: u16) -> io::Result<TcpStream> {
    for _ in 0..1_000 {
        if let Ok(link) = TcpStream::connect(rt, (Ipv4Addr::LOCALHOST, port)) {
            return Ok(link);
        }
        sleep(rt, Duration::from_millis(10));
    }
    TcpStream::connect(rt, (Ipv4Addr::LOCALHOST, port))
}

/// Whether what is sent to this port is replied to so, and then the link ends, each within a second. Where nothing is sent, the link is
/// ended from here.
fn ends_behind(rt: &HostRuntime, port: u16, sent: &[u8], reply: &[u8]) -> io::Result<bool> {
    let mut link = dialed(rt, port)?;
    link.set_read_timeout(Some(Duration::from_secs(1)))?;
    if sent.is_empty() {
        link.shutdown(Shutdown::Write)?;
    }
    link.write_all(sent)?;
    let mut came = Vec::new(rt.alloc());
    link.read_to_end(&mut came)?;
    Ok(came.as_slice() == reply)
}

/// Whether each of four links ends so.
fn all_end(rt: &HostRuntime, port: u16, unheard: &[u8]) -> bool {
    let ways = [
        (BAD, REFUSED),
        (TOO_LONG, REFUSED),
        (b"", b""),
        (unheard, REFUSED),
    ];
    let mut all = true;
    for (sent, reply) in ways {
        all &= ends_behind(rt, port, sent, reply).unwrap_or(false);
    }
    all
}

#[test]
fn a_link_that_serve_ends_is_ended_for_its_peer(rt: HostRuntime) -> Result<(), Fail> {
    let alloc = rt.alloc();
    let mut unheard = Vec::from_slice(alloc, BAD)?;
    unheard.resize(UNHEARD, 0)?;
    assert!(rt; HostFiles::new(&rt).store(PROGRAM, TEXT).is_ok());
    let made = run(
        &rt,
        &rt,
        &format!(in alloc; "lamauth init {PROGRAM} make 0 9 {IMAGE}")?,
    )?;
    let port = free_port(&rt);
    let line = format!(in alloc; "lamauth serve {PROGRAM} {IMAGE} {port} 4 9 {LAST}")?;
    let (served, all_end) = join(
        &rt,
        || run(&rt, &rt, &line),
        || all_end(&rt, port, &unheard),
    );
    for name in [PROGRAM, IMAGE, LAST] {
        let _ = fs::remove_file(&rt, name);
    }
    assert!(rt; all_end);
    assert!(rt; served? == made, "both did what they were to do");
    Ok(())
}
