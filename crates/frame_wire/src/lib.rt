//! The fields of the RabbitMQ stream protocol, and the frames of a stream of bytes.
#![tactic(auto)]

mod counted;
mod cutter;
mod fault;
mod item;
mod laws;
mod limits;
mod number;
mod octets;
mod put;
mod row;
mod scan;
mod stream;
mod text;

pub use cutter::{Cut, Cutter, Front};
pub use fault::{FieldFault, ReadError, TextFault};
pub use item::{Item, put_list, read_list};
pub use laws::{
    ends_are_lawful, fields_are_lawful, fields_have_one_outcome, joins_are_lawful,
    rests_begin_no_frame,
};
pub use limits::Limits;
pub use octets::Octets;
pub use put::{put_blob, put_i64, put_text, put_u8, put_u16, put_u32, put_u64};
pub use row::Row;
pub use scan::Scan;
pub use stream::{CutStream, StreamEnd, frames_of};
pub use text::Text;
