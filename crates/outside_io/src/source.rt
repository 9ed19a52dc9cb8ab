ghost use Rattle.std.specs.Prelude.{◌≡◌, ◌<◌, ℕ, List, Option, length};
ghost use Rattle.outside_io.specs.Causes.{HasCause};
ghost use Rattle.outside_io.specs.Known.{Reads};

/// What came of a read.
#[derive(Clone, Copy, Debug, PartialEq, Eq)]
pub enum Took {
    /// This many bytes, at least one, stand at the front of the buffer.
    Got(usize),
    /// No byte is left.
    End,
    /// The read failed and took no byte.
    Failed,
}

/// Bytes from outside.
pub trait Source {
    // The bytes that are left, where the source tells them. No call changes whether it does.
    ghost left: { Self → Option (List ℕ) };

    // How many reads failed. At its greatest value the count stands still.
    ghost faults: { Self → ℕ };

    /// Reads at least one byte into the front of a buffer that is not empty.
    fn read(&mut self, buf: &mut [u8]) -> Took
        requires { 0 < length buf.old }
        ensures took { Reads (left self.old) result buf.new (left self.new) }
        ensures cause { HasCause (faults self.old) (faults self.new) (result ≡ Took.Failed) };
}
