//! The laws of a catalog's changes, whatever comes after one another: numbers are never used again, and a name that
//! went is found no more. Each function does nothing; its contract is the law.
#![tactic(auto)]

mod laws;

pub use laws::{
    names_are_made_by_changes, names_go_with_their_numbers, numbers_are_never_used_again,
};
