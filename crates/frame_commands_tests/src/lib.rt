//! Tests of `frame_commands`: bytes written by hand from the layout of frames and commands.
#![tactic(auto)]

#[cfg(test)]
mod frames;
