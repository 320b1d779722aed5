// Links and a net in memory: bytes that come and are sent, and calls that fail.
use lam_outside::{Link, MemLink, MemNet, Net, Plan, Source};
use std::alloc::{AllocError, Global};
use std::test::Fail;

/// A link on which `abcd` comes, by three bytes a call, and whose third call fails.
fn link(alloc: Global) -> Result<MemLink, AllocError> {
    MemLink::from_bytes(alloc, b"abcd", 3, &[2])
}

#[test]
fn a_link_tells_what_comes_and_what_was_sent(rt: HostRuntime) -> Result<(), Fail> {
    let mut link = link(rt.alloc())?;
    let mut into = [0; 8];
    assert!(rt; matches!(link.read(&mut into), Ok(3)) && into.starts_with(b"abc"));
    assert!(rt; matches!(link.send(b"wxyz"), Ok(3)));
    assert!(rt; link.send(b"z").is_err());
    assert!(rt; matches!(link.send(b"z"), Ok(1)));
    assert!(rt; link.sent() == b"wxyz".as_slice() && link.left() == 1);
    assert!(rt; !link.lacked_memory());
    Ok(())
}

/// A net on whose links `first` and then `second` come.
fn net(alloc: Global) -> Result<MemNet, AllocError> {
    let mut peers = Vec::new(alloc);
    peers.push(Vec::from_slice(alloc, b"first")?)?;
    peers.push(Vec::from_slice(alloc, b"second")?)?;
    Ok(MemNet::new(alloc, peers, 100, Plan::new(Vec::new(alloc))))
}

#[test]
fn a_net_makes_one_link_after_another(rt: HostRuntime) -> Result<(), Fail> {
    let mut net = net(rt.alloc())?;
    let mut into = [0; 8];
    assert!(rt; net.accept().is_err() && net.send(b"one").is_err());
    assert!(rt; net.listen(80).is_ok() && net.accept().is_ok());
    assert!(rt; matches!(net.read(&mut into), Ok(5)) && into.starts_with(b"first"));
    assert!(rt; matches!(net.send(b"one"), Ok(3)) && net.sent() == b"one".as_slice());
    assert!(rt; net.dial(81).is_ok() && net.sent().is_empty());
    assert!(rt; matches!(net.read(&mut into), Ok(6)) && into.starts_with(b"second"));
    assert!(rt; !net.lacked_memory());
    Ok(())
}
