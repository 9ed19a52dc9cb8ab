//! Tests of `command_fields`: that its calls succeed, with bytes made by hand.
#![tactic(auto)]

#[cfg(test)]
mod names;
#[cfg(test)]
mod shared;
