//! What holds of every run of a reader, named by contracts.

ghost use Rattle.command_reader.specs.Runs.{AnswersAreOfTheBytes, TheBytesAloneCount};

/// After any list of pieces and asks in any order, what a reader answers is what the reading of the joined pieces says: a
/// command is the next of its commands, and where it answers another, the commands given so far are all, and the bytes end
/// them so. It does nothing.
pub fn answers_are_of_the_bytes()
    ensures { AnswersAreOfTheBytes }
{}

/// How the bytes were cut into pieces, and when the reader was asked, does not count: two runs over the same bytes up to an
/// answer that is no command have the same commands and the same answer. It does nothing.
pub fn the_bytes_alone_count()
    ensures { TheBytesAloneCount }
{}
