//! The administrative commands of the RabbitMQ stream protocol, with the keys 0x000d to 0x001e and those of their
//! responses: streams and super streams, metadata, the opening of a connection and its end.
#![tactic(auto)]

mod command;
mod decode;
mod encode;
mod fits;
mod item;
mod key;
mod laws;
mod put;
mod size;

pub use command::AdminCommand;
pub use decode::decode_admin;
pub use encode::{encode_admin, put_admin};
pub use fits::{admin_size, fits_admin};
pub use item::{Broker, KeyVersions, Statistic, StreamMetadata};
pub use laws::admin_bodies_have_one_outcome;
