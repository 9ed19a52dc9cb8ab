//! All commands of the RabbitMQ stream protocol, and the frames that carry them.
#![tactic(auto)]

mod command;
mod decode;
mod encode;
mod identity;
mod laws;

pub use command::Command;
pub use command_admin::{AdminCommand, Broker, KeyVersions, Statistic, StreamMetadata};
pub use command_data::{DataCommand, Refusal, Tagged, put_delivery_head};
pub use command_fields::{DecodeError, DecodeFault, OffsetSpec, Property, ResponseCode};
pub use decode::decode_command;
pub use encode::{body_size, encode_command, fits, frame, put_command, put_frame};
pub use identity::Identity;
pub use laws::{answers_fit, bodies_have_one_outcome, bytes_have_one_reading};
