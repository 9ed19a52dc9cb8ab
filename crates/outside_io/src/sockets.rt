ghost use Rattle.std.specs.Prelude.{◌≡◌, ◌≢◌, ◌<◌, length, false, None, IfOk};
ghost use Rattle.outside_io.specs.Causes.{HasCause, next_count};
ghost use Rattle.outside_io.specs.Known.{Writes};
ghost use Rattle.outside_io.specs.Links.{Hears, ended_after};
ghost use Rattle.outside_io.specs.Listeners.{over_after};

use crate::link::{Heard, Link};
use crate::listener::{Accepted, Listener};
use crate::sink::Gave;
use frame_wire::Text;
use std::io;
use std::io::{ErrorKind, Read, Write};
use std::marker::Model;
use std::net::{Net, TcpListener, TcpStream};
use std::time::Duration;

/// How long a receive waits for a byte, in milliseconds.
const PATIENCE: u64 = 10;

/// A link over a connected stream. It does not tell its bytes.
#[derive(Debug, Drop)]
pub struct TcpLink {
    stream: TcpStream,
    has_ended: bool,
    faults: u64,
}

impl Model for TcpLink {
    ghost use Rattle.outside_io.specs.StdForms.{SocketState};

    ghost Value = { SocketState };

    ghost view = { λ l. record { has_ended = l.has_ended; faults = l.faults } };
}

impl TcpLink {
    /// A link over this stream, which sends small pieces at once. It fails where the stream can't
    /// be set so.
    pub fn new(stream: TcpStream) -> io::Result<TcpLink>
        ensures { IfOk result (λ l. l ≡ record { has_ended = false; faults = 0 }) }
    {
        stream.set_read_timeout(Some(Duration::from_millis(PATIENCE)))?;
        stream.set_nodelay(true)?;
        Ok(TcpLink {
            stream,
            has_ended: false,
            faults: 0,
        })
    }
}

impl Link for TcpLink {
    ghost use Rattle.std.specs.Prelude.{None};

    ghost heard = { λ _. None };

    ghost sent = { λ _. None };

    ghost has_ended = { λ l. l.has_ended };

    ghost faults = { λ l. l.faults };

    /// Reads once. It answers Quiet where no byte came within 10 milliseconds or a signal broke the
    /// wait, and fails at any other error.
    fn receive(&mut self, buf: &mut [u8]) -> Heard
        requires { 0 < length buf.old }
        ensures heard { Hears None result buf.new None }
        ensures ended { self.new.has_ended ≡ ended_after self.old.has_ended result }
        ensures cause { HasCause self.old.faults self.new.faults (result ≡ Heard.Failed) }
        ensures faulted { result ≡ Heard.Failed → self.new.faults ≡ next_count self.old.faults }
        ensures unfaulted { result ≢ Heard.Failed → self.new.faults ≡ self.old.faults }
    {
        match self.stream.read(buf) {
            Ok(0) => {
                self.has_ended = true;
                Heard::Ended
            }
            Ok(count) => Heard::Got(count),
            Err(error) => match error.kind() {
                ErrorKind::WouldBlock | ErrorKind::Interrupted => Heard::Quiet,
                _ => {
                    self.faults = self.faults.saturating_add(1);
                    Heard::Failed
                }
            },
        }
    }

    /// Writes the piece, however long the peer takes to make room for it.
    fn send(&mut self, bytes: &[u8]) -> Gave
        ensures sent { Writes None result bytes.now None }
        ensures ended { self.new.has_ended ≡ self.old.has_ended }
        ensures cause { HasCause self.old.faults self.new.faults (result ≡ Gave.Failed) }
        ensures faulted { result ≡ Gave.Failed → self.new.faults ≡ next_count self.old.faults }
        ensures unfaulted { result ≡ Gave.Done → self.new.faults ≡ self.old.faults }
    {
        if self.stream.write_all(bytes).is_err() {
            self.faults = self.faults.saturating_add(1);
            return Gave::Failed;
        }
        Gave::Done
    }
}

/// A listener on a host and a port, which it binds at its first accept. It never ends.
#[derive(Drop)]
pub struct TcpListen<R: Net + Drop> {
    rt: R,
    host: Text,
    port: u16,
    listener: Option<TcpListener>,
    faults: u64,
}

// It is seen as its count of failures.
impl<R: Net + Drop> Model for TcpListen<R> {
    ghost use Rattle.std.specs.Prelude.{ℕ};

    ghost Value = { ℕ };

    ghost view = { λ l. l.faults };
}

impl<R: Net<Stream = TcpStream, Listener = TcpListener> + Drop> TcpListen<R> {
    /// A listener on this host, by its name or its address, and this port. It binds nothing yet.
    pub fn new(rt: R, host: Text, port: u16) -> TcpListen<R>
        ensures { result ≡ 0 }
    {
        TcpListen {
            rt,
            host,
            port,
            listener: None,
            faults: 0,
        }
    }

    fn bind(&self) -> io::Result<TcpListener> {
        let host = self.host.get().unwrap_or(&[]);
        match str::from_utf8(host) {
            Ok(host) => TcpListener::bind(&self.rt, (host, self.port)),
            Err(_) => Err(io::Error::from(ErrorKind::InvalidInput)),
        }
    }

    // The next link, from the listener, which is bound first where it wasn't.
    fn next_link(&mut self) -> io::Result<TcpLink>
        ensures { self.new ≡ self.old }
    {
        let listener = match self.listener.take() {
            Some(listener) => listener,
            None => self.bind()?,
        };
        let stream = next_stream(&listener);
        self.listener = Some(listener);
        TcpLink::new(stream?)
    }
}

// The next connection. One that its peer gave up before it was accepted is passed over.
fn next_stream(listener: &TcpListener) -> io::Result<TcpStream> {
    for stream in listener.incoming() {
        match stream {
            Ok(stream) => return Ok(stream),
            Err(error) => match error.kind() {
                ErrorKind::ConnectionAborted | ErrorKind::Interrupted => (),
                _ => return Err(error),
            },
        }
    }
    Err(io::Error::from(ErrorKind::ConnectionAborted))
}

impl<R: Net<Stream = TcpStream, Listener = TcpListener> + Drop> Listener for TcpListen<R> {
    type Conn = TcpLink;

    ghost has_ended = { λ _. false };

    ghost faults = { λ l. l };

    /// Fails where the host can't be bound, where a connection can't be accepted, and where a stream
    /// can't be made a link.
    fn accept(&mut self) -> Accepted<TcpLink>
        ensures ended { false ≡ over_after false result }
        ensures cause { HasCause self.old self.new (result ≡ Accepted.Failed) }
        ensures faulted { result ≡ Accepted.Failed → self.new ≡ next_count self.old }
        ensures unfaulted { result ≢ Accepted.Failed → self.new ≡ self.old }
    {
        match self.next_link() {
            Ok(link) => Accepted::Got(link),
            Err(_) => {
                self.faults = self.faults.saturating_add(1);
                Accepted::Failed
            }
        }
    }
}
