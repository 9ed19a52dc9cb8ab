//! Tests of members: two scripts of elections and late messages over a coordinator and three members.
#![tactic(auto)]

#[cfg(test)]
mod scripts;
#[cfg(test)]
mod trio;
