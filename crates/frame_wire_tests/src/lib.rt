//! Tests of `frame_wire`: each public call once, on bytes written by hand.
#![tactic(auto)]

#[cfg(test)]
mod faults;
#[cfg(test)]
mod fields;
#[cfg(test)]
mod frames;
#[cfg(test)]
mod items;
#[cfg(test)]
mod limits;
