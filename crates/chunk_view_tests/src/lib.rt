//! Tests of `chunk_view`: views of chunks whose bytes are known from outside.
#![tactic(auto)]

#[cfg(test)]
mod views;
