//! Why a client can't go on.

use chunk_format::ChunkFault;
use command_fields::DecodeFault;
use thiserror::Error;

/// What a client read that ends its connection.
#[derive(Clone, Copy, Debug, PartialEq, Eq, Error)]
pub enum ClientFault {
    /// A frame that no command spells.
    #[error("a frame is no command: {0}")]
    Frame(DecodeFault),
    /// A size above the greatest in a frame's place, in bytes.
    #[error("a frame of {size} bytes is too large")]
    TooLarge { size: u32 },
    /// A delivery that is no chunk.
    #[error("a delivery is no chunk: {0}")]
    Chunk(ChunkFault),
    /// A frame that nothing asked for, by its key.
    #[error("an unexpected frame with key {key:04x}")]
    Unexpected { key: u16 },
    /// A request, by its key, that has a response code other than 0x01.
    #[error("request {key:04x} was refused with code {code:04x}")]
    Refused { key: u16, code: u16 },
    /// The server closed the connection.
    #[error("the server closed the connection with code {code:04x}")]
    Closed { code: u16 },
    /// The stream is no longer served here.
    #[error("the stream was lost with code {code:04x}")]
    StreamLost { code: u16 },
    /// Memory ran out.
    #[error("memory ran out")]
    Memory,
}

/// Why a message isn't taken.
#[derive(Clone, Copy, Debug, PartialEq, Eq, Error)]
pub enum EnqueueFault {
    /// It has more than 1,000,000 bytes.
    #[error("a message of {len} bytes is too long")]
    TooLong { len: usize },
    /// The greatest id was given.
    #[error("there is no next id")]
    LastId,
    /// Memory ran out.
    #[error("memory ran out")]
    Memory,
}
