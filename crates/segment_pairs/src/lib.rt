//! A segment of a log and its index, and lists of them: what their bytes stand for, what a crash may leave of them, and
//! the calls that change them.
//!
//! A segment is `OSIL`, 1 as a u32, and chunks. Its index is `OSII`, 1 as a u32, and a record of 29 bytes for each
//! chunk: first offset, stamp, epoch, place in the segment as a u32, and kind. A chunk counts only where its record
//! stands, which is written once the chunk is on the disk, and removed before it.
#![tactic(auto)]

mod look;
mod pair;
mod stream;

pub use look::{Headless, Seen, Walk, look_at};
pub use pair::{
    begin_pair, cut_pair, make_pair, remove_pair, segment_bytes, trim_pair, write_pair,
};
pub use stream::{cut_last, remove_last, write_last, write_new};
