//! Tests of `command_reader`: frames in pieces of several sizes, and what ends the commands, on bytes made by hand from the
//! protocol's layouts.
#![tactic(auto)]

#[cfg(test)]
mod ends;
#[cfg(test)]
mod pieces;
