//! Calls of a hub one after the other, and what each answers. Any hub can be held to the tables.
#![tactic(auto)]

pub mod answer;
mod groups;
mod item;
mod names;
mod publish;
mod read;
mod step;
pub mod tables;
mod word;

pub use item::items;
pub use publish::Confirmed;
pub use step::{Epochs, Step, take, wrong_at};
pub use word::{Word, text};
