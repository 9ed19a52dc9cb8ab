//! The names of the streams that a session uses.

ghost use Rattle.std.specs.Prelude.{◌≡◌, ◌<◌, [], length, position, IfSome, OnOk, OnErr};
ghost use Rattle.std.specs.List.{list_any};
ghost use Rattle.session_tables.specs.Subscribing.{is_stream, is_past, put_before, with_stream};
ghost use Rattle.session_tables.specs.declared.streams.StreamName.{StreamName};

use frame_wire::Text;
use std::alloc::{AllocError, Global};
use std::marker::Model;

/// A stream's number, and the name by which the peer asked for it.
#[derive(Debug, Drop)]
pub struct StreamName {
    pub stream: u32,
    pub name: Text,
}

/// The streams on which a session declared publishers or subscriptions, each once, by their numbers.
#[derive(Debug, Drop)]
pub struct Streams {
    alloc: Global,
    list: Vec<StreamName>,
}

impl Model for Streams {
    ghost use Rattle.std.specs.Prelude.{List};
    ghost use Rattle.session_tables.specs.declared.streams.StreamName.{StreamName};

    ghost Value = { List StreamName };

    ghost view = { λ p. p.list.items };
}

impl Streams {
    /// No streams. It takes no memory.
    pub fn new(alloc: Global) -> Streams
        ensures { result ≡ [] }
    {
        Streams {
            alloc,
            list: Vec::new(alloc),
        }
    }

    /// Whether the stream of this number is known.
    fn has(&self, stream: u32) -> bool
        ensures { result ≡ list_any (is_stream stream) self.now }
    {
        self.list.iter().any(|known| known.stream == stream)
    }

    /// The place of the first stream of a greater number.
    fn place(&self, stream: u32) -> Option<usize>
        ensures is { result ≡ position (is_past stream) self.now }
        ensures inside { IfSome result (λ place. place < length self.now) }
    {
        self.list.iter().position(|known| stream < known.stream)
    }

    /// Adds a stream before those of greater numbers.
    fn add(&mut self, one: StreamName) -> Result<(), AllocError>
        ensures ok { OnOk result (self.new ≡ put_before (position (is_past one.stream) self.old) one self.old) }
        ensures err { OnErr result (self.new ≡ self.old) }
    {
        match self.place(one.stream) {
            None => {
                self.list.push(one)?;
                Ok(())
            }
            Some(place) => {
                self.list.insert(place, one)?;
                Ok(())
            }
        }
    }

    /// Keeps the name of a stream that isn't known. Want of memory leaves all as it was.
    pub fn know(&mut self, stream: u32, name: &Text) -> Result<(), AllocError>
        ensures ok { OnOk result (self.new ≡ with_stream stream name.now self.old) }
        ensures err { OnErr result (self.new ≡ self.old) }
    {
        if self.has(stream) {
            return Ok(());
        }
        let name = name.clone()?;
        self.add(StreamName { stream, name })
    }

    /// The streams, by their numbers.
    pub fn as_slice(&self) -> &[StreamName]
        ensures { result.now ≡ self.now }
    {
        self.list.as_slice()
    }
}
