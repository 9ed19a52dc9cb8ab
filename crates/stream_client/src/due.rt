use client_terms::Request;

/// What a client sends next.
#[derive(Clone, Copy, Debug)]
pub enum Due<'a> {
    /// Nothing before another frame comes.
    Nothing,
    /// A credit.
    Credit,
    /// The answer to Tune, with the server's greatest frame in bytes.
    Tunes { frame_max: u32 },
    /// A request.
    Asks { request: Request },
    /// A message under its id.
    Publishes { id: u64, body: &'a [u8] },
}
