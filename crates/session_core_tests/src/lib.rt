//! Tests of a session: dialogues over a hub in memory, frame for frame and byte by byte, and links that are served. Frames are made
//! from the protocol's layouts.
#![tactic(auto)]

#[cfg(test)]
mod answer;
#[cfg(test)]
mod consumer_tables;
#[cfg(test)]
mod frames;
#[cfg(test)]
mod opening_tables;
#[cfg(test)]
mod over_links;
#[cfg(test)]
mod over_memory;
#[cfg(test)]
mod step;
#[cfg(test)]
mod stream_tables;
#[cfg(test)]
mod talk;
