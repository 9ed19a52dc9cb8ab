//! The data commands of the RabbitMQ stream protocol, keys 0x0001 to 0x000c and their answers: publishing, confirms,
//! subscriptions, deliveries and offsets.
#![tactic(auto)]

mod command;
mod decode;
mod deliver;
mod encode;
mod fits;
mod item;
mod key;
mod laws;
mod put;
mod size;

pub use command::DataCommand;
pub use decode::decode_data;
pub use deliver::put_delivery_head;
pub use encode::{encode_data, put_data};
pub use fits::{data_size, fits_data};
pub use item::{Refusal, Tagged};
pub use key::{DataKey, key_of as data_key_of};
pub use laws::{data_bodies_have_one_outcome, starts_go_on, starts_on_literals};
