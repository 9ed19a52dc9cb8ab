//! Tests of `tracking_state`: tracking of chunks whose bytes are known from outside, and of many long names.
#![tactic(auto)]

#[cfg(test)]
mod known;
#[cfg(test)]
mod many;
