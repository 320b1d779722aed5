// TCP on 127.0.0.1. It tells its ports, and nothing of what comes and is sent: this is the trusted edge.
ghost use Rattle.std.specs.Prelude.{◌≡◌, ◌≤◌, None, IfSome, length, refl};
ghost use Rattle.std.specs.Io.{ReadsAtMost};
ghost use Rattle.std.specs.Option.{ForSome};

use lam_outside::{Failed, Link, Net, Source};
use read_ahead::ReadAhead;
use std::io::{self, Read, Write};
use std::net::{Ipv4Addr, Shutdown, TcpListener, TcpStream};
use std::time::{Duration, Instant};

/// A port that is listened to.
#[derive(Drop)]
struct Listening {
    port: u16,
    listener: TcpListener,
}

/// A link from a peer that dialed this port.
#[derive(Drop)]
struct Dialed {
    port: u16,
    stream: TcpStream,
}

/// Links of the machine, one at a time: to peers that listen at 127.0.0.1, and from those that dial there. What comes is read ahead; what is
/// sent is handed to the system at once.
///
/// A link is ended before the next one is waited for, and by `end_link`: its peer then sees the end, behind all that was sent.
#[derive(Drop)]
pub struct HostNet<'a> {
    rt: &'a HostRuntime,
    listening: Option<Listening>,
    /// The port of the link that was made last, also once it was ended.
    linked: Option<u16>,
    /// That link, until it is ended.
    standing: Option<TcpStream>,
    ahead: ReadAhead,
    faults: u64,
    listen_faults: u64,
    accept_faults: u64,
    dial_faults: u64,
}

impl<'a> HostNet<'a> {
    /// No port is listened to, no link was made, and no call has failed.
    pub fn new(rt: &'a HostRuntime) -> Self
        ensures links { result.faults ≡ 0 }
        ensures listens { result.listen_faults ≡ 0 }
        ensures accepts { result.accept_faults ≡ 0 }
        ensures dials { result.dial_faults ≡ 0 }
    {
        HostNet {
            rt,
            listening: None,
            linked: None,
            standing: None,
            ahead: ReadAhead::new(rt.alloc()),
            faults: 0,
            listen_faults: 0,
            accept_faults: 0,
            dial_faults: 0,
        }
    }

    /// Ends the link that stands, where one does.
    pub fn end_link(&mut self) {
        end(self.rt, &mut self.standing);
    }
}

impl Source for HostNet<'_> {
    ghost use Rattle.host_net.specs.HostNets.{Beyond, beyond_of};

    ghost given = { λ _. None };

    ghost left = { λ _. None };

    ghost sent = { λ _. None };

    ghost reads = { λ _. None };

    ghost faults = { λ net. net.faults };

    ghost Rest = { Beyond };

    ghost rest = { beyond_of };

    fn read(&mut self, into: &mut [u8]) -> Result<usize, Failed> {
        match received(&mut self.standing, &mut self.ahead, into) {
            Ok(count) => Ok(count),
            Err(_) => {
                self.faults = self.faults.saturating_add(1);
                Err(Failed)
            }
        }
    }
}

impl Link for HostNet<'_> {
    ghost use Rattle.host_net.specs.HostNets.{Beyond, beyond_of};

    ghost Beyond = { Beyond };

    ghost beyond = { beyond_of };

    ghost rest_has_beyond = { λ old new same. same };

    fn send(&mut self, piece: &[u8]) -> Result<usize, Failed> {
        match sent(&mut self.standing, piece) {
            Some(count) if count > 0 || piece.is_empty() => Ok(count),
            _ => {
                self.faults = self.faults.saturating_add(1);
                Err(Failed)
            }
        }
    }
}

impl Net for HostNet<'_> {
    ghost use Rattle.std.proofs.Common.{ap};
    ghost use Rattle.host_net.specs.HostNets.{linked_port, listened_port};

    ghost ended = { λ _. None };

    ghost linked = { linked_port };

    ghost listened = { listened_port };

    ghost listen_faults = { λ net. net.listen_faults };

    ghost accept_faults = { λ net. net.accept_faults };

    ghost dial_faults = { λ net. net.dial_faults };

    ghost beyond_has_ended = { λ old new same. refl };

    ghost beyond_has_linked = { λ old new same. ap (λ beyond. beyond.linked) same };

    ghost beyond_has_listened = { λ old new same. ap (λ beyond. beyond.listened) same };

    ghost beyond_has_listen_faults = { λ old new same. ap (λ beyond. beyond.listen_faults) same };

    ghost beyond_has_accept_faults = { λ old new same. ap (λ beyond. beyond.accept_faults) same };

    ghost beyond_has_dial_faults = { λ old new same. ap (λ beyond. beyond.dial_faults) same };

    fn listen(&mut self, port: u16) -> Result<(), Failed> {
        match TcpListener::bind(self.rt, (Ipv4Addr::LOCALHOST, port)) {
            Ok(listener) => {
                self.listening = Some(Listening { port, listener });
                Ok(())
            }
            Err(_) => {
                self.listen_faults = self.listen_faults.saturating_add(1);
                Err(Failed)
            }
        }
    }

    fn accept(&mut self) -> Result<(), Failed> {
        if self.listening.is_some() {
            end(self.rt, &mut self.standing);
        }
        match accepted(&self.listening) {
            Some(Dialed { port, stream }) => {
                self.linked = Some(port);
                self.standing = Some(stream);
                self.ahead.clear();
                Ok(())
            }
            None => {
                self.accept_faults = self.accept_faults.saturating_add(1);
                Err(Failed)
            }
        }
    }

    fn dial(&mut self, port: u16) -> Result<(), Failed> {
        match TcpStream::connect(self.rt, (Ipv4Addr::LOCALHOST, port)) {
            Ok(stream) => {
                end(self.rt, &mut self.standing);
                self.linked = Some(port);
                self.standing = Some(at_once(stream));
                self.ahead.clear();
                Ok(())
            }
            Err(_) => {
                self.dial_faults = self.dial_faults.saturating_add(1);
                Err(Failed)
            }
        }
    }
}

/// The link of the next peer that dials the port.
fn accepted(listening: &Option<Listening>) -> Option<Dialed>
    ensures { IfSome result (λ link. ForSome listening.now (λ listening. link.port ≡ listening.port)) }
{
    let Some(listening) = listening else {
        return None;
    };
    match listening.listener.accept() {
        Ok((stream, _)) => Some(Dialed {
            port: listening.port,
            stream: at_once(stream),
        }),
        Err(_) => None,
    }
}

/// The stream, with its bytes sent as they come, since a peer answers each message before the next one. A stream that can't do so
/// serves too.
fn at_once(stream: TcpStream) -> TcpStream {
    let _ = stream.set_nodelay(true);
    stream
}

/// Ends the link that stands, where one does. Its peer sees the end at once, behind all that was sent.
fn end(rt: &HostRuntime, standing: &mut Option<TcpStream>) {
    let Some(mut stream) = standing.take() else {
        return;
    };
    if stream.shutdown(Shutdown::Write).is_ok() {
        let _ = drain(rt, &mut stream);
    }
}

/// How long a link that was ended is read on, in milliseconds; a read that has begun by then may take as long once more.
const LINGER: u64 = 1_000;

/// How often it is read, at most.
const MOST_READS: u32 = 1_000_000;

/// Takes what the peer still sends, until it ends the link too or `LINGER` is over. A stream that is closed before its bytes were taken is
/// reset, and the peer may then lose what was sent to it.
fn drain(rt: &HostRuntime, stream: &mut TcpStream) -> io::Result<()> {
    let linger = Duration::from_millis(LINGER);
    let begun = Instant::now(rt)?;
    let mut unheard = [0; 65_536];
    stream.set_read_timeout(Some(linger))?;
    for _ in 0..MOST_READS {
        if stream.read(&mut unheard)? == 0 || begun.elapsed(rt)? >= linger {
            return Ok(());
        }
    }
    Ok(())
}

/// How many bytes came from the link; none where there is no link.
fn received(
    standing: &mut Option<TcpStream>,
    ahead: &mut ReadAhead,
    into: &mut [u8],
) -> io::Result<usize>
    ensures { ReadsAtMost result into.new }
{
    match standing {
        Some(stream) => ahead.read(stream, into),
        None => Ok(0),
    }
}

/// How many bytes of the piece the link took; `None` where there is no link, or where it failed.
fn sent(standing: &mut Option<TcpStream>, piece: &[u8]) -> Option<usize>
    ensures { IfSome result (λ count. count ≤ length piece.now) }
{
    match standing {
        Some(stream) => stream.write(piece).ok(),
        None => None,
    }
}

#[cfg(test)]
mod tests {
    use super::HostNet;
    use lam_outside::{Failed, Link, Net, Source};
    use std::io::Write;
    use std::net::{Ipv4Addr, Shutdown, TcpStream};
    use std::test::Fail;

    /// Listens to a port that is free, and says which.
    fn listens(net: &mut HostNet) -> u16 {
        for port in 27_300..27_400 {
            if net.listen(port).is_ok() {
                return port;
            }
        }
        0
    }

    #[test]
    fn two_nets_talk(rt: HostRuntime) -> Result<(), Fail> {
        let mut server = HostNet::new(&rt);
        let mut client = HostNet::new(&rt);
        let mut into = [0; 8];
        let mut few = [0; 2];
        assert!(rt; server.accept() == Err(Failed) && client.send(b"lost") == Err(Failed));
        assert!(rt; client.read(&mut into) == Ok(0));
        let port = listens(&mut server);
        assert!(rt; client.dial(port).is_ok() && server.accept().is_ok());
        assert!(rt; client.send(b"asked") == Ok(5));
        assert!(rt; server.read(&mut few) == Ok(2) && few.starts_with(b"as"));
        assert!(rt; server.read(&mut into) == Ok(3) && into.starts_with(b"ked"));
        assert!(rt; server.send(b"told") == Ok(4));
        assert!(rt; client.read(&mut into) == Ok(4) && into.starts_with(b"told"));
        drop(client);
        assert!(rt; server.read(&mut into) == Ok(0));
        server.end_link();
        assert!(rt; server.read(&mut into) == Ok(0) && server.send(b"late") == Err(Failed));
        Ok(())
    }

    #[test]
    fn it_listens_at_127_0_0_1_alone(rt: HostRuntime) -> Result<(), Fail> {
        let mut server = HostNet::new(&rt);
        let port = listens(&mut server);
        assert!(rt; TcpStream::connect(&rt, (Ipv4Addr::LOCALHOST, port)).is_ok());
        assert!(rt; TcpStream::connect(&rt, (Ipv4Addr::new(127, 0, 0, 2), port)).is_err());
        Ok(())
    }

    #[test]
    fn what_is_left_of_a_link_is_not_read_from_the_next(rt: HostRuntime) -> Result<(), Fail> {
        let mut server = HostNet::new(&rt);
        let port = listens(&mut server);
        let mut into = [0; 1];
        for text in [b"ab", b"cd"] {
            let mut peer = TcpStream::connect(&rt, (Ipv4Addr::LOCALHOST, port))?;
            peer.write_all(text)?;
            peer.shutdown(Shutdown::Write)?;
            assert!(rt; server.accept().is_ok() && server.read(&mut into) == Ok(1));
            assert!(rt; into[0] == text[0]);
        }
        Ok(())
    }

    #[test]
    fn a_link_that_is_reset_is_a_fault_and_no_end(rt: HostRuntime) -> Result<(), Fail> {
        let mut server = HostNet::new(&rt);
        let port = listens(&mut server);
        let mut into = [0; 8];
        let peer = TcpStream::connect(&rt, (Ipv4Addr::LOCALHOST, port))?;
        assert!(rt; server.accept().is_ok() && server.send(b"told") == Ok(4));
        // A peer that goes with bytes unread resets the link.
        assert!(rt; peer.peek(&mut into).is_ok());
        drop(peer);
        assert!(rt; server.read(&mut into) == Err(Failed));
        assert!(rt; server.faults == 1);
        Ok(())
    }
}
