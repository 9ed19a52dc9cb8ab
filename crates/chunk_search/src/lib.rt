//! Which chunk begins bytes, as a function of the bytes. So the log of files, which is stated for each such function, is
//! a function of the files.
#![tactic(auto)]

ghost use Rattle.std.specs.Prelude.{◌≡◌, ℕ, List, Option, Some, None};
ghost use Rattle.chunk_format.specs.declared.chunk.Chunk.{Chunk};
ghost use Rattle.chunk_format.specs.Faults.{BeginsWith};
ghost use Rattle.segment_pairs.specs.Log.{Finder};
ghost use Rattle.chunk_search.specs.Finding.{chunk_in};

/// The chunk that is found in bytes is the one with which they begin, and each with which they begin is found. It does
/// nothing.
pub fn a_chunk_is_found_in_bytes()
    ensures found { (bytes : List ℕ) (c : Chunk) → chunk_in bytes ≡ Some c → (used : ℕ) × BeginsWith c used bytes }
    ensures all { (bytes : List ℕ) (c : Chunk) (used : ℕ) → BeginsWith c used bytes → chunk_in bytes ≡ Some c }
{}

/// There is a function that tells the chunk with which bytes begin, and all such functions agree. It does nothing.
pub fn there_is_one_finder()
    ensures is { (F : Finder) × ((bytes : List ℕ) → F.find bytes ≡ chunk_in bytes) }
    ensures one { (F G : Finder) (bytes : List ℕ) → F.find bytes ≡ G.find bytes }
{}
