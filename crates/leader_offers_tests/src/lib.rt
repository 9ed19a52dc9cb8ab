//! Tests of offers to a leader.
#![tactic(auto)]

#[cfg(test)]
mod leader;
#[cfg(test)]
mod offers;
