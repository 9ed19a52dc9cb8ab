//! The catalog: streams and super streams by name. A crash leaves it as it was before or after a change.
#![tactic(auto)]

mod apply;
mod asking;
mod catalog;
mod change;
mod change_bytes;
mod disk_files;
mod fault;
mod holder;
mod laws;
mod listed;
mod live;
mod names;
mod reading;
mod rules;

pub use asking::{ask_create, ask_create_super, ask_delete, ask_delete_super};
pub use catalog::Catalog;
pub use change::{Change, ChangeKind};
pub use fault::{CatalogFault, Why};
pub use holder::Holder;
pub use laws::{catalogs_stay_backed, changes_are_lawful};
pub use listed::Listed;
