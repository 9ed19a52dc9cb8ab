ghost use Rattle.std.specs.Prelude.{◌≡◌, ℕ, List, Option};
ghost use Rattle.outside_io.specs.Causes.{HasCause};
ghost use Rattle.outside_io.specs.Known.{Writes};

/// What came of a write.
#[derive(Clone, Copy, Debug, PartialEq, Eq)]
pub enum Gave {
    /// The whole piece was written.
    Done,
    /// The write failed. A prefix of the piece was written, maybe none of it.
    Failed,
}

/// Bytes to the outside.
pub trait Sink {
    // The bytes written so far, where the sink tells them. No call changes whether it does.
    ghost written: { Self → Option (List ℕ) };

    // How many writes failed. At its greatest value the count stands still.
    ghost faults: { Self → ℕ };

    /// Writes a piece.
    fn write_all(&mut self, bytes: &[u8]) -> Gave
        ensures gave { Writes (written self.old) result bytes.now (written self.new) }
        ensures cause { HasCause (faults self.old) (faults self.new) (result ≡ Gave.Failed) };
}
