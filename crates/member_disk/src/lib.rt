//! A member's disks: one over a folder, and one in memory that a crash may leave in one of several images.
#![tactic(auto)]

mod dir_disk;
mod memory_disk;
mod memory_map;
mod memory_stream;
mod paths;

pub use dir_disk::DirDisk;
pub use disk_calls::{
    Disk, DiskDid, DiskNames, DiskSize, FileId, FileName, WholeFile, append, files_stay,
    frames_join, known_files_agree, known_files_outlast_crashes, known_files_stay, make_file,
    read_file, shorten,
};
pub use memory_disk::MemoryDisk;
