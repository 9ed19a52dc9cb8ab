//! The calls of a member's disk, what a crash may leave after each, and what a disk's callers share.
#![tactic(auto)]

mod disk;
mod file_id;
mod file_text;
mod laws;
mod steps;
mod whole_file;

pub use disk::{Disk, DiskDid, DiskNames, DiskSize};
pub use file_id::{FileId, FileName};
pub use file_text::{file_of, name_of};
pub use laws::{
    files_stay, frames_join, known_files_agree, known_files_outlast_crashes, known_files_stay,
};
pub use steps::{append, make_file, shorten};
pub use whole_file::{WholeFile, read_file};
