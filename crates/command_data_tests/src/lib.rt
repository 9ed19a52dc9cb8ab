//! Tests of `command_data`: bodies written by hand from the layout of the commands.
#![tactic(auto)]

#[cfg(test)]
mod bodies;
#[cfg(test)]
mod known;
#[cfg(test)]
mod refused;
#[cfg(test)]
mod values;
