//! One connection: its commands and their answers, over any hub.
#![tactic(auto)]

mod confirming;
mod consuming;
mod delivering;
mod ending;
mod feeding;
mod laws;
mod living;
mod offsets;
mod outgoing;
mod polling;
mod preparing;
mod publishing;
mod saying_laws;
mod serving;
mod session;
mod streams;
mod subscribing;
mod turning;
mod unasked;

pub use consuming::{Wish, add_credit, answer_update, take_update, unsubscribe};
pub use feeding::answer_all;
pub use laws::{feeds_join, pieces_join};
pub use living::{end, end_link, tick};
pub use offsets::{query_offset, store_offset, stream_stats, take_offset};
pub use outgoing::{Outgoing, make_outgoing, tail_bytes};
pub use polling::{deliveries_join, poll};
pub use preparing::PrepareFault;
pub use publishing::{declare, delete_publisher, publish, query_sequence};
pub use saying_laws::{replies_are_sayable, said_is_called_for, silence_is_exact};
pub use serving::{serve, serve_admin, serve_data, take_any, take_data};
pub use session::Session;
pub use streams::{
    create, create_super, delete, delete_super, exchange_versions, metadata, partitions, route,
};
pub use subscribing::subscribe;
pub use unasked::Unasked;
