//! Tests of `replay_node`: what no clause there says.
#![tactic(auto)]

#[cfg(test)]
mod bad_lines;
#[cfg(test)]
mod large_frames;
#[cfg(test)]
mod long_lines;
#[cfg(test)]
mod nodes;
#[cfg(test)]
mod pieces;
#[cfg(test)]
mod replays;
#[cfg(test)]
mod scripts;
#[cfg(test)]
mod sources;
#[cfg(test)]
mod values;
