//! What a client's program does, over any input, connection and output: its words, its messages and wishes, its run, its
//! last lines and its status.
#![tactic(auto)]

mod acts;
mod ends;
mod input;
mod lines;
mod program;
mod run;
mod words;

pub use input::InputFault;
pub use lines::LinesFault;
pub use program::client;
pub use run::{ClientEnd, run_client};
pub use words::{Act, ClientWords, client_words};
