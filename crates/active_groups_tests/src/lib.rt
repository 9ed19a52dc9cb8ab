//! Tests of `active_groups`: turns of consumers that are known from outside.
#![tactic(auto)]

#[cfg(test)]
mod leaving;
#[cfg(test)]
mod turns;
