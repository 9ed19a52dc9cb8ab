//! What holds of the commands of a stream, named by contracts.

ghost use Rattle.frame_commands.specs.Laws.{OneReading, Joins, Splits};

/// Bytes have one reading: no others are their commands, and no other is their rest. It does nothing.
pub fn commands_have_one_reading()
    ensures { OneReading }
{}

/// The way in which a stream is cut into pieces does not count: the commands of a piece, and then those of its rest with
/// the next piece behind it, are those of both pieces at once, and the other way round. It does nothing.
pub fn pieces_join()
    ensures joins { Joins }
    ensures splits { Splits }
{}
