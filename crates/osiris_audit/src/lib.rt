//! Logs read offline: [`inspect`] tells what stands in a segment and its index, [`reindex`] makes the index of a segment
//! anew, both over any [`Source`](outside_io::Source) and [`Sink`](outside_io::Sink), read once and in pieces.
//!
//! A [`Window`] holds the bytes of a file that were read and not passed over. [`find`] looks for the chunk of the next
//! record of an index and adds its lines; [`next_step`] gives the next chunk that an index made anew records.
#![tactic(auto)]

mod front;
mod indexing;
mod inspecting;
mod inspection;
mod laws;
mod lines;
mod reindexing;
mod window;

pub use front::{Front, chunk_in_front};
pub use indexing::{Step, follow, next_step};
pub use inspecting::inspect;
pub use inspection::{
    INDEX_HEADER, Look, SEGMENT_HEADER, Turn, close, find, look_at, may_begin, record_bytes,
    record_count, status, take_header,
};
pub use laws::an_index_made_anew_keeps_records;
pub use lines::{last_text, put_chunk_lines};
pub use reindexing::reindex;
pub use window::{Fault, Window};
