//! Tests of `committed_view`: what no clause there says.
#![tactic(auto)]

#[cfg(test)]
mod many;
#[cfg(test)]
mod views;
