//! Tests of `command_all`: frames of whole conversations, made by hand from the protocol's layouts.
#![tactic(auto)]

#[cfg(test)]
mod frames;
#[cfg(test)]
mod large;
