//! The entries of a chunk.

ghost use Rattle.std.specs.Prelude.{◌≡◌, ◌++◌, OnOk, OnErr};
ghost use Rattle.frame_wire.specs.Fields.{u8_bytes, u16_bytes, u32_bytes};
ghost use Rattle.chunk_format.specs.Chunks.{entry_bytes, IsEntry};

use frame_wire::Octets;
use std::alloc::AllocError;
use std::marker::Model;

/// What a publisher handed in as one: a message, or a sub-batch of several.
#[derive(Debug, Drop, PartialEq, Eq)]
pub enum Entry {
    /// One message, of at most 2,147,483,647 bytes.
    Simple(Octets),
    /// A sub-batch, whose body is passed on unread.
    Batch {
        /// At most 7.
        compression: u8,
        /// At most 15.
        spare: u8,
        /// How many messages the body holds.
        records: u16,
        /// The length of the body before compression, in bytes.
        uncompressed: u32,
        /// At most 4,294,967,295 bytes.
        body: Octets,
    },
}

/// What stands before an entry's body: 4 bytes of a message, 11 of a sub-batch.
#[derive(Drop)]
struct EntryHead {
    bytes: [u8; 11],
    len: usize,
}

impl Model for EntryHead {
    ghost use Rattle.std.specs.Prelude.{List, ℕ, take, ◌≤◌};

    ghost Value = { List ℕ };

    ghost view = { λ h. take h.len h.bytes };

    ghost invariant = { λ h. h.len ≤ 11 };
}

impl EntryHead {
    fn as_slice(&self) -> &[u8]
        ensures { result.now ≡ self.now }
    {
        &self.bytes[..self.len]
    }
}

/// The length of a message.
#[tactic(auto, unfolding(frame_wire::specs::Fields::u32_bytes))]
fn simple_head(len: u32) -> EntryHead
    ensures { result ≡ u32_bytes len }
{
    let mut bytes = [0; 11];
    bytes[..4].copy_from_slice(&len.to_be_bytes());
    EntryHead { bytes, len: 4 }
}

/// The first byte of a sub-batch, its records, its uncompressed size, and its length.
#[tactic(auto, unfolding(frame_wire::specs::Fields::u8_bytes, frame_wire::specs::Fields::u16_bytes, frame_wire::specs::Fields::u32_bytes))]
fn batch_head(code: u8, records: u16, uncompressed: u32, len: u32) -> EntryHead
    ensures { result ≡ u8_bytes code ++ (u16_bytes records ++ (u32_bytes uncompressed ++ u32_bytes len)) }
{
    let mut bytes = [0; 11];
    bytes[0] = code;
    bytes[1..3].copy_from_slice(&records.to_be_bytes());
    bytes[3..7].copy_from_slice(&uncompressed.to_be_bytes());
    bytes[7..].copy_from_slice(&len.to_be_bytes());
    EntryHead { bytes, len: 11 }
}

/// The two parts of an entry's bytes.
fn head_and_body(entry: &Entry) -> (EntryHead, &[u8])
    requires { IsEntry entry.now }
    ensures { entry_bytes entry.now ≡ result.0 ++ result.1.now }
{
    match entry {
        Entry::Simple(body) => {
            let body = body.as_slice();
            (simple_head(body.len() as u32), body)
        }
        Entry::Batch {
            compression,
            spare,
            records,
            uncompressed,
            body,
        } => {
            let code = 128 + *compression * 16 + *spare;
            let body = body.as_slice();
            let head = batch_head(code, *records, *uncompressed, body.len() as u32);
            (head, body)
        }
    }
}

/// Writes an entry behind the bytes, or a part of it where memory runs out.
pub fn push_entry(out: &mut Vec<u8>, entry: &Entry) -> Result<(), AllocError>
    requires { IsEntry entry.now }
    ensures { OnOk result (out.new.items ≡ out.old.items ++ entry_bytes entry.now) }
{
    let (head, body) = head_and_body(entry);
    out.extend_from_slice(head.as_slice())?;
    out.extend_from_slice(body)
}

/// Writes an entry behind the bytes. Where memory runs out they stay as they were.
pub fn put_entry(out: &mut Octets, entry: &Entry) -> Result<(), AllocError>
    requires { IsEntry entry.now }
    ensures ok { OnOk result (out.new ≡ out.old ++ entry_bytes entry.now) }
    ensures err { OnErr result (out.new ≡ out.old) }
{
    let before = out.len();
    let (head, body) = head_and_body(entry);
    out.push_slice(head.as_slice())?;
    match out.push_slice(body) {
        Ok(()) => Ok(()),
        Err(refused) => {
            out.cut(before);
            Err(refused)
        }
    }
}
