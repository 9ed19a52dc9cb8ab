//! Tests of a stream over its members, with receipts of real stores.
#![tactic(auto)]

#[cfg(test)]
mod answers;
#[cfg(test)]
mod chunks;
#[cfg(test)]
mod offers;
#[cfg(test)]
mod opens;
#[cfg(test)]
mod played;
#[cfg(test)]
mod scripts;
#[cfg(test)]
mod sure_disk;
