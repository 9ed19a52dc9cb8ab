//! What the commands of the RabbitMQ stream protocol share: why a body is no command, the response codes, where a
//! subscription begins, and properties.
#![tactic(auto)]

mod end;
mod fault;
mod field;
mod laws;
mod offset;
mod property;
mod response;
mod shape;
mod size;
mod version;

pub use end::ended;
pub use fault::{DecodeError, DecodeFault};
pub use field::Field;
pub use laws::shared_fields_are_lawful;
pub use offset::OffsetSpec;
pub use property::Property;
pub use response::ResponseCode;
pub use shape::{
    answer_size, put_answer, put_or_absent, put_three, put_two, read_answer, read_or_absent,
    read_three, read_two, size_of_three, size_of_two, size_or_absent,
};
pub use size::{GREATEST_BODY, Measured, list_size, text_size};
pub use version::read_version;
