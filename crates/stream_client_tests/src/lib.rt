//! Tests of a client's core: dialogues with a server, step by step, and connections that are lost at each byte. Frames are
//! made by hand from the protocol's layouts.
#![tactic(auto)]

#[cfg(test)]
mod answer;
#[cfg(test)]
mod dialogue;
#[cfg(test)]
mod faults;
#[cfg(test)]
mod frames;
#[cfg(test)]
mod losses;
#[cfg(test)]
mod over_core;
#[cfg(test)]
mod step;
#[cfg(test)]
mod tables;
