//! Tests of the words of `serve`: what they ask for, and words that ask for nothing.
#![tactic(auto)]

#[cfg(test)]
mod words;
