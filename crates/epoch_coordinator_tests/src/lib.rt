//! Tests of the coordinator: that its calls succeed, and elections as a reader would play them.
#![tactic(auto)]

#[cfg(test)]
mod elections;
