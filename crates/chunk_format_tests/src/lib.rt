//! Tests of `chunk_format`: chunks whose bytes are known from outside.
#![tactic(auto)]

#[cfg(test)]
mod known;
#[cfg(test)]
mod large;
#[cfg(test)]
mod refused;
