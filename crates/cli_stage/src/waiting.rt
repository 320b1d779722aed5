// A net to a peer that waits for what it is sent.
ghost use Rattle.std.specs.Prelude.{◌≡◌, None, refl};

use lam_outside::{Failed, Link, Net, Source};
use std::alloc::Global;

/// Bytes that a peer sends once so many bytes in all were sent to it; no bytes are the end of what it sends.
#[derive(Clone, Copy)]
pub struct Turn<'a> {
    pub after: usize,
    pub bytes: &'a [u8],
}

/// A net with one link, to a peer that takes its turns in their order, each once so many bytes were sent to it. It tells its ports alone.
///
/// A read before that fails: on the link to a real peer it would wait for ever.
#[derive(Drop)]
pub struct WaitingNet<'a> {
    turns: &'a [Turn<'a>],
    turn: usize,
    // How much of its turn's bytes was read.
    at: usize,
    sent: Vec<u8>,
    listening: Option<u16>,
    standing: Option<u16>,
    faults: u64,
    listen_faults: u64,
    accept_faults: u64,
    dial_faults: u64,
}

impl<'a> WaitingNet<'a> {
    /// No port is listened to, and the link is still to be made.
    pub fn new(alloc: Global, turns: &'a [Turn<'a>]) -> Self
        ensures links { result.faults ≡ 0 }
        ensures listens { result.listen_faults ≡ 0 }
        ensures accepts { result.accept_faults ≡ 0 }
        ensures dials { result.dial_faults ≡ 0 }
    {
        WaitingNet {
            turns,
            turn: 0,
            at: 0,
            sent: Vec::new(alloc),
            listening: None,
            standing: None,
            faults: 0,
            listen_faults: 0,
            accept_faults: 0,
            dial_faults: 0,
        }
    }

    /// What was sent to the peer.
    pub fn sent(&self) -> &[u8] {
        &self.sent
    }
}

impl Source for WaitingNet<'_> {
    ghost use Rattle.cli_stage.specs.WaitingNets.{Beyond, beyond_of};

    ghost given = { λ _. None };

    ghost left = { λ _. None };

    ghost sent = { λ _. None };

    ghost reads = { λ _. None };

    ghost faults = { λ net. net.faults };

    ghost Rest = { Beyond };

    ghost rest = { beyond_of };

    fn read(&mut self, into: &mut [u8]) -> Result<usize, Failed> {
        let turns = self.turns;
        let Some(turn) = turns.get(self.turn) else {
            return Ok(0);
        };
        if self.sent.len() < turn.after {
            self.faults = self.faults.saturating_add(1);
            return Err(Failed);
        }
        let rest = turn.bytes.get(self.at..).unwrap_or(&[]);
        let count = rest.len().min(into.len());
        into[..count].copy_from_slice(&rest[..count]);
        self.at = self.at.saturating_add(count);
        if count == rest.len() {
            self.turn = self.turn.saturating_add(1);
            self.at = 0;
        }
        Ok(count)
    }
}

impl Link for WaitingNet<'_> {
    ghost use Rattle.cli_stage.specs.WaitingNets.{Beyond, beyond_of};

    ghost Beyond = { Beyond };

    ghost beyond = { beyond_of };

    ghost rest_has_beyond = { λ old new same. same };

    fn send(&mut self, piece: &[u8]) -> Result<usize, Failed> {
        if self.standing.is_none() || self.sent.extend_from_slice(piece).is_err() {
            self.faults = self.faults.saturating_add(1);
            return Err(Failed);
        }
        Ok(piece.len())
    }
}

impl Net for WaitingNet<'_> {
    ghost use Rattle.std.proofs.Common.{ap};

    ghost ended = { λ _. None };

    ghost linked = { λ net. net.standing };

    ghost listened = { λ net. net.listening };

    ghost listen_faults = { λ net. net.listen_faults };

    ghost accept_faults = { λ net. net.accept_faults };

    ghost dial_faults = { λ net. net.dial_faults };

    ghost beyond_has_ended = { λ old new same. refl };

    ghost beyond_has_linked = { λ old new same. ap (λ beyond. beyond.linked) same };

    ghost beyond_has_listened = { λ old new same. ap (λ beyond. beyond.listened) same };

    ghost beyond_has_listen_faults = { λ old new same. ap (λ beyond. beyond.listen_faults) same };

    ghost beyond_has_accept_faults = { λ old new same. ap (λ beyond. beyond.accept_faults) same };

    ghost beyond_has_dial_faults = { λ old new same. ap (λ beyond. beyond.dial_faults) same };

    fn listen(&mut self, port: u16) -> Result<(), Failed> {
        self.listening = Some(port);
        Ok(())
    }

    fn accept(&mut self) -> Result<(), Failed> {
        match self.listening {
            Some(port) if self.standing.is_none() => {
                self.standing = Some(port);
                Ok(())
            }
            _ => {
                self.accept_faults = self.accept_faults.saturating_add(1);
                Err(Failed)
            }
        }
    }

    fn dial(&mut self, port: u16) -> Result<(), Failed> {
        if self.standing.is_some() {
            self.dial_faults = self.dial_faults.saturating_add(1);
            return Err(Failed);
        }
        self.standing = Some(port);
        Ok(())
    }
}
