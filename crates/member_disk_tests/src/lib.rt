//! A caller of a disk that is proved from its contracts alone, and tests of what no clause says.
#![tactic(auto)]

#[cfg(test)]
mod over_folder;
#[cfg(test)]
mod over_memory;
#[cfg(test)]
mod pieces;
mod two_files;

pub use two_files::write_two;
