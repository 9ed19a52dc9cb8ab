//! What holds of the commands, named by contracts.

ghost use Rattle.command_fields.specs.Tables.{OneOutcomeIn};
ghost use Rattle.command_all.specs.Commands.{command_table};
ghost use Rattle.command_all.specs.Reading.{SomeReading, OneReading, ReadingsJoin, EndsStay};
ghost use Rattle.command_all.specs.Fitting.{IdsFit, NamesFit, AskedFit};
ghost use Rattle.frame_wire.specs.Laws.{IsBytes};
ghost use Rattle.std.specs.Prelude.{ℕ, List};

/// Every body spells exactly one command, or has exactly one first wrong field. So two commands never share a body, and
/// what is written is read again. It does nothing.
pub fn bodies_have_one_outcome()
    ensures { OneOutcomeIn command_table }
{}

/// Bytes have one reading as commands: one list of commands, what is left behind them, and how that ends them. The reading
/// of what a part leaves, with the next part behind it, goes on with that of the part; and where a frame that no command
/// spells ends the commands, or a size above the greatest, more bytes change nothing. It does nothing.
pub fn bytes_have_one_reading()
    ensures some { (max : ℕ) (bytes : List ℕ) → IsBytes bytes → SomeReading max bytes }
    ensures one { OneReading }
    ensures join { ReadingsJoin }
    ensures stay { EndsStay }
{}

/// Commands that fit a frame whatever their items are, so that who writes an answer knows that it `fits`: confirms and
/// errors of as many ids as a frame holds (536,870,910 and 429,496,728), answers and questions of up to 65,535 names, and
/// what is told of the streams that one frame of at most 1,048,576 bytes asked for. It does nothing.
pub fn answers_fit()
    ensures ids { IdsFit }
    ensures names { NamesFit }
    ensures asked { AskedFit }
{}
