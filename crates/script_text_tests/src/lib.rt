//! Tests of `script_text`: lines that are known from outside.
#![tactic(auto)]

#[cfg(test)]
mod lines;
#[cfg(test)]
mod outputs;
#[cfg(test)]
mod readings;
