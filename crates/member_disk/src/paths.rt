//! Where the files of a disk over a folder are.

ghost use Rattle.std.specs.Prelude.{◌≡◌, ◌++◌, codes, IfOk};
ghost use Rattle.std.specs.String.{string_bytes};
ghost use Rattle.member_disk.specs.Paths.{folder_of, path_of};

use disk_calls::{FileId, name_of};
use std::alloc::{AllocError, Global};

// A name in a folder.
fn in_folder(alloc: Global, folder: &str, name: &str) -> Result<String, AllocError>
    ensures { IfOk result (λ path. string_bytes path ≡ folder.now ++ codes "/" ++ name.now) }
{
    format!(in alloc; "{folder}/{name}")
}

/// The folder of a stream in the whole folder. It needs memory for the path.
#[tactic(auto, unfolding(crate::specs::Paths::folder_of))]
pub fn folder_in(alloc: Global, root: &str, stream: u32) -> Result<String, AllocError>
    ensures { IfOk result (λ path. string_bytes path ≡ folder_of root.now stream) }
{
    let number = stream.to_string(alloc)?;
    in_folder(alloc, root, number.as_str())
}

/// A file in the folder of its stream. It needs memory for the path.
#[tactic(auto, unfolding(crate::specs::Paths::path_of))]
pub fn path_in(alloc: Global, root: &str, id: FileId) -> Result<String, AllocError>
    ensures { IfOk result (λ path. string_bytes path ≡ path_of root.now id) }
{
    let folder = folder_in(alloc, root, id.stream)?;
    let name = name_of(alloc, id.file)?;
    in_folder(alloc, folder.as_str(), name.as_str())
}
