//! Tests of `command_admin`: bodies made by hand from the protocol's layouts.
#![tactic(auto)]

#[cfg(test)]
mod bodies;
