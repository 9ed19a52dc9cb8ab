use frame_wire::Text;
use outside_io::{
    Accepted, Gave, Heard, Link, Listener, Started, StdSpawner, TcpLink, TcpListen, Work, start,
};
use std::net::{Net, TcpListener, TcpStream};
use std::test::Fail;
use std::time::{Clock, Duration};
use std::{io, thread};

// Two ends of a connection on this machine.
fn pair<R: Net<Stream = TcpStream, Listener = TcpListener>>(
    rt: &R,
) -> io::Result<(TcpLink, TcpLink)> {
    let listener = TcpListener::bind(rt, "127.0.0.1:0")?;
    let near = TcpStream::connect(rt, listener.local_addr()?)?;
    let (far, _) = listener.accept()?;
    Ok((TcpLink::new(near)?, TcpLink::new(far)?))
}

// Sends a piece whose bytes are all the same, and tells whether just it came at the other end.
fn passes<F: Link, T: Link>(from: &mut F, to: &mut T, byte: u8) -> bool {
    let piece = [byte; 4096];
    if from.send(&piece) != Gave::Done {
        return false;
    }
    let mut came = 0;
    for _ in 0..5000 {
        if came >= piece.len() {
            break;
        }
        let mut buf = [0u8; 1000];
        match to.receive(&mut buf) {
            Heard::Got(count) => {
                if buf[..count].iter().any(|b| *b != byte) {
                    return false;
                }
                came += count;
            }
            Heard::Quiet => (),
            Heard::Ended | Heard::Failed => return false,
        }
    }
    came == piece.len()
}

#[test]
fn a_mebibyte_goes_each_way_in_pieces(rt: HostRuntime) -> Result<(), Fail> {
    let (mut near, mut far) = pair(&rt)?;
    for byte in 0..=255 {
        assert!(rt; passes(&mut near, &mut far, byte), "there, at {byte}");
        assert!(rt; passes(&mut far, &mut near, byte), "back, at {byte}");
    }
    Ok(())
}

#[test]
fn a_silent_peer_is_quiet_and_a_closed_one_has_ended(rt: HostRuntime) -> Result<(), Fail> {
    let (mut near, far) = pair(&rt)?;
    let mut buf = [0u8; 8];
    assert_eq!(rt; near.receive(&mut buf), Heard::Quiet);
    assert_eq!(rt; near.receive(&mut buf), Heard::Quiet);
    drop(far);
    assert_eq!(rt; near.receive(&mut buf), Heard::Ended);
    assert_eq!(rt; near.receive(&mut buf), Heard::Ended);
    Ok(())
}

// Whether a send fails at last.
fn fails_at_last<L: Link>(link: &mut L) -> bool {
    for _ in 0..1000 {
        if link.send(b"to nobody") == Gave::Failed {
            return true;
        }
    }
    false
}

#[test]
fn sends_to_a_closed_peer_fail_at_last(rt: HostRuntime) -> Result<(), Fail> {
    let (mut near, far) = pair(&rt)?;
    drop(far);
    assert!(rt; fails_at_last(&mut near));
    Ok(())
}

// Connects to this port as soon as somebody listens there, and sends a word.
#[derive(Drop)]
struct Knock<R: Drop> {
    rt: R,
    port: u16,
}

impl<R: Net<Stream = TcpStream> + Clock + Send + Drop + 'static> Work for Knock<R> {
    fn run(self) {
        for _ in 0..20_000 {
            if let Ok(stream) = TcpStream::connect(&self.rt, ("127.0.0.1", self.port)) {
                if let Ok(mut link) = TcpLink::new(stream) {
                    let _ = link.send(b"hello");
                }
                return;
            }
            thread::sleep(&self.rt, Duration::from_millis(1));
        }
    }
}

// The next byte, or `None` where none comes any more.
fn next_byte<L: Link>(link: &mut L) -> Option<u8> {
    let mut buf = [0u8];
    for _ in 0..5000 {
        match link.receive(&mut buf) {
            Heard::Got(_) => return Some(buf[0]),
            Heard::Quiet => (),
            Heard::Ended | Heard::Failed => return None,
        }
    }
    None
}

// Whether just these bytes come.
fn says<L: Link>(link: &mut L, word: &[u8]) -> bool {
    for byte in word {
        if next_byte(link) != Some(*byte) {
            return false;
        }
    }
    next_byte(link).is_none()
}

#[test]
fn a_started_thread_knocks_at_a_listener(rt: HostRuntime) -> Result<(), Fail> {
    let port = TcpListener::bind(&rt, "127.0.0.1:0")?.local_addr()?.port();
    let host = Text::copy(rt.alloc(), b"127.0.0.1")?;
    let mut listener = TcpListen::new(rt, host, port);
    let mut spawner = StdSpawner::new(rt);
    assert_eq!(rt; start(&mut spawner, Knock { rt, port }), Started::Started);
    match listener.accept() {
        Accepted::Got(mut link) => assert!(rt; says(&mut link, b"hello")),
        Accepted::Ended | Accepted::Failed => return Err(Fail::from("no link")),
    }
    Ok(())
}

#[test]
fn a_port_that_is_taken_fails(rt: HostRuntime) -> Result<(), Fail> {
    let taken = TcpListener::bind(&rt, "127.0.0.1:0")?;
    let host = Text::copy(rt.alloc(), b"127.0.0.1")?;
    let mut listener = TcpListen::new(rt, host, taken.local_addr()?.port());
    for _ in 0..2 {
        assert!(rt; matches!(listener.accept(), Accepted::Failed));
    }
    Ok(())
}
