//! Tests of `outside_io`: what no clause there says.
#![tactic(auto)]

#[cfg(test)]
mod over_links;
#[cfg(test)]
mod over_memory;
#[cfg(test)]
mod over_sockets;
#[cfg(test)]
mod over_std;
#[cfg(test)]
mod over_threads;
