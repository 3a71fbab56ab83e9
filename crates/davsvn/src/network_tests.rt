use crate::disk_files::DiskFiles;
use crate::listening::Listening;
use crate::script_keeper::ScriptKeeper;
use crate::serving::stations_of;
use crate::writing::Writing;
use davsvn_run::{Status, listen_address, run_serve};
use dsv_base::{Bytes, NoMemory};
use dsv_outside::{Accepted, Door, Got, Put, ServeEnd, Sink, Source};
use std::alloc::Global;
use std::io::{Read, Write};
use std::net::{Net, OpenStream, Shutdown, SocketAddr, TcpListener, TcpStream};
use std::process::Abort;
use std::test::Fail;
use std::time::Duration;
use std::{fs, io, thread};

/// How long a peer may be silent in these tests.
fn silence() -> Duration {
    Duration::from_millis(300)
}

#[test]
fn a_peer_that_gives_a_byte_at_a_time(rt: HostRuntime) -> Result<(), Fail> {
    let listener = TcpListener::bind(&rt, "127.0.0.1:0")?;
    let mut peer = TcpStream::connect(&rt, listener.local_addr()?)?;
    let mut door = Listening::new(listener, rt.clone()?, silence(), None);
    let Accepted::Pair(mut source, sink) = door.accept() else {
        return Err("no connection")?;
    };
    let mut room = [0u8; 9];
    for byte in b"GET /" {
        peer.write_all(&[*byte])?;
        assert_eq!(rt; source.read(&mut room), Got::Bytes(1));
        assert_eq!(rt; room[0], *byte);
        thread::sleep(&rt, Duration::from_millis(100));
    }
    // and then it is silent
    assert_eq!(rt; source.read(&mut room), Got::Failed);
    door.back(source, sink, ServeEnd::ReadFault);
    assert_eq!(rt; peer.read(&mut room)?, 0);
    Ok(())
}

#[test]
fn a_peer_that_takes_nothing(rt: HostRuntime) -> Result<(), Fail> {
    let listener = TcpListener::bind(&rt, "127.0.0.1:0")?;
    let peer = TcpStream::connect(&rt, listener.local_addr()?)?;
    let mut door = Listening::new(listener, rt.clone()?, silence(), None);
    let Accepted::Pair(source, mut sink) = door.accept() else {
        return Err("no connection")?;
    };
    // more than the system holds for a peer
    let reply = vec![in rt.alloc(); b'x'; 33_554_432]?;
    assert_eq!(rt; sink.put(reply.as_slice()), Put::Failed);
    door.back(source, sink, ServeEnd::WriteFault);
    drop(peer);
    Ok(())
}

#[test]
fn a_peer_that_goes_away_in_a_reply(rt: HostRuntime) -> Result<(), Fail> {
    let listener = TcpListener::bind(&rt, "127.0.0.1:0")?;
    let mut peer = TcpStream::connect(&rt, listener.local_addr()?)?;
    let mut door = Listening::new(listener, rt.clone()?, silence(), None);
    let Accepted::Pair(source, mut sink) = door.accept() else {
        return Err("no connection")?;
    };
    assert_eq!(rt; sink.put(b"the reply"), Put::Done);
    let mut room = [0u8; 3];
    assert_eq!(rt; peer.read(&mut room)?, 3);
    // closed with bytes unread, it resets the connection
    drop(peer);
    assert_eq!(rt; sink.put(b"and more"), Put::Failed);
    door.back(source, sink, ServeEnd::WriteFault);
    Ok(())
}

#[test]
fn a_last_reply_is_taken(rt: HostRuntime) -> Result<(), Fail> {
    let listener = TcpListener::bind(&rt, "127.0.0.1:0")?;
    let mut peer = TcpStream::connect(&rt, listener.local_addr()?)?;
    let mut door = Listening::new(listener, rt.clone()?, silence(), None);
    let Accepted::Pair(mut source, mut sink) = door.accept() else {
        return Err("no connection")?;
    };
    peer.write_all(b"a request, and more than is read")?;
    peer.shutdown(Shutdown::Write)?;
    let mut room = [0u8; 9];
    assert_eq!(rt; source.read(&mut room), Got::Bytes(9));
    assert_eq!(rt; sink.put(b"refused"), Put::Done);
    door.back(source, sink, ServeEnd::Closed);
    assert_eq!(rt; peer.read(&mut room)?, 7);
    assert_eq!(rt; &room[..7], b"refused".as_slice());
    assert_eq!(rt; peer.read(&mut room)?, 0);
    Ok(())
}

/// A repository with the file `/a`.
const SCRIPT: &str = "davsvn-script 1\nrepos demo\nuuid 3f2b1c00-0000-4000-8000-000000000001\n\
    revision 0 0 0\n\nend\nrevision 1 1 5\nalice\nput 2 3\n/aabc\nend\n";

const WORDS: &str =
    "serve --script script --rules rules --users users --listen 127.0.0.1:1 --workers 64 --each 1";

const REQUEST: &[u8] = b"GET /svn/demo/a HTTP/1.1\r\n\r\n";

const REPLY: &str = "HTTP/1.1 200 OK\r\nContent-Type: text/plain\r\nContent-Length: 3\r\n\r\nabc";

const FILES: [(&str, &str); 3] = [("script", SCRIPT), ("rules", "[/]\n* = r\n"), ("users", "")];

fn serve_words(alloc: Global) -> Result<Vec<Bytes>, NoMemory> {
    let mut words = Vec::new(alloc);
    for word in WORDS.split(' ') {
        words.push(Bytes::of(alloc, word.as_bytes())?)?;
    }
    Ok(words)
}

/// So many peers, each of which asks twice.
fn asking_peers<R: Net + AllocGlobal>(
    rt: &R,
    address: SocketAddr,
    number: u32,
) -> io::Result<Vec<R::Stream>> {
    let mut peers = Vec::new(rt.alloc());
    for _ in 0..number {
        peers.push(asking_peer(rt, address)?)?;
    }
    Ok(peers)
}

fn asking_peer<R: Net>(rt: &R, address: SocketAddr) -> io::Result<R::Stream> {
    let mut peer = TcpStream::connect(rt, address)?;
    peer.write_all(REQUEST)?;
    peer.write_all(REQUEST)?;
    peer.shutdown(Shutdown::Write)?;
    Ok(peer)
}

/// Each peer gets its two replies, and then the end.
fn check_replies<R: Abort + AllocGlobal, S: Read + Drop>(rt: &R, peers: Vec<S>) -> io::Result<()> {
    for peer in peers {
        let replies = io::read_to_string(rt.alloc(), peer)?;
        assert_eq!(rt; replies.strip_prefix(REPLY), Some(REPLY));
    }
    Ok(())
}

/// 64 peers ask twice each, all of them before the server begins.
#[test]
fn connections_side_by_side(rt: HostRuntime) -> Result<(), Fail> {
    for (name, text) in FILES {
        fs::write(&rt, name, text)?;
    }
    let words = serve_words(rt.alloc()).ok().ok_or("no memory")?;
    let (_, _, number) = listen_address(words.as_slice()).ok_or("the words are none of serve")?;
    let listener = TcpListener::bind(&rt, "127.0.0.1:0")?;
    let peers = asking_peers(&rt, listener.local_addr()?, number)?;
    let stations = stations_of(&rt, &listener, number, None)?;
    let keeper = ScriptKeeper::new(rt.clone()?, Bytes::from_vec(Vec::new(rt.alloc())));
    let served = run_serve(
        rt.alloc(),
        &rt,
        words.as_slice(),
        stations.doors,
        stations.clocks,
        &mut DiskFiles::new(rt.clone()?),
        keeper,
        &mut Writing::new(rt.stderr()),
    );
    assert_eq!(rt; served.status, Status(0));
    check_replies(&rt, peers)?;
    for (name, _) in FILES {
        fs::remove_file(&rt, name)?;
    }
    Ok(())
}
