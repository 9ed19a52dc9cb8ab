//! The lines of an input, which are the messages of a publisher.

ghost use Rattle.std.specs.Prelude.{◌≡◌, ◌<◌, ◌≤◌, ◌+◌, ◌^◌, length};
ghost use Rattle.client_terms.specs.States.{last_id};
ghost use Rattle.client_program.specs.Inputs.{most_input};
ghost use Rattle.client_program.specs.Lines.{QueuesLines, TakesLine};

use script_text::find_byte;
use stream_client::ClientCore;

/// The most bytes of a line.
const LONGEST_LINE: usize = 1_000_000;

/// Why the lines were not queued.
#[derive(Clone, Copy, Debug, PartialEq, Eq)]
pub enum LinesFault {
    /// A line has more than 1,000,000 bytes.
    TooLong,
    Memory,
}

/// Queues the line of a number, counted from 1, unless it is one of the first that are passed over.
fn take_line(core: &mut ClientCore, line: &[u8], number: u64, passed: u64) -> Result<(), LinesFault>
    requires number { number < 2 ^ 32 }
    requires next { passed < number → last_id core.old.client + 1 ≡ number }
    ensures takes { TakesLine result line.now number passed core.old.client core.new.client }
    ensures reader { core.new.reader ≡ core.old.reader }
{
    if line.len() > LONGEST_LINE {
        return Err(LinesFault::TooLong);
    }
    if number <= passed {
        return Ok(());
    }
    // the line isn't too long, and there are fewer lines than ids
    match core.enqueue(line) {
        Ok(_id) => Ok(()),
        Err(_) => Err(LinesFault::Memory),
    }
}

/// Queues each line but the first so many, under their numbers as ids.
pub(crate) fn queue_lines(core: &mut ClientCore, text: &[u8], passed: u64) -> Result<(), LinesFault>
    requires short { length text.now ≤ most_input }
    requires next { last_id core.old.client ≡ passed }
    ensures queues { QueuesLines result text.now passed core.old.client core.new.client }
    ensures reader { core.new.reader ≡ core.old.reader }
{
    let mut rest = text;
    let mut number = 1;
    'lines: while let Some(k) = find_byte(rest, b'\n') {
        match take_line(core, &rest[..k], number, passed) {
            Ok(()) => {}
            Err(fault) => return Err(fault),
        }
        rest = &rest[k + 1..];
        number += 1;
    }
    if rest.is_empty() {
        return Ok(());
    }
    take_line(core, rest, number, passed)
}
