//! The lines of a script, and the lines that a node gives: their words, each with one reading.
#![tactic(auto)]

mod output;
mod output_line;
mod output_word;
mod script;
mod word;

pub use output::{Ending, MessageKind, OutputLine, outputs_have_one_reading, write_output};
pub use output_line::read_output;
pub use script::{LONGEST_LINE, LineFault, ScriptLine, lines_have_one_reading, read_line};
pub use word::{find_byte, is_same, read_number};
