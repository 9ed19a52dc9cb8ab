//! Puts a chunk behind a leader's sequence, with the snapshot that follows it.

ghost use Rattle.std.specs.Prelude.{◌≡◌, ◌∷◌, [], OnOk, OnErr, IfErr};
ghost use Rattle.chunk_format.specs.declared.chunk.ChunkKind.TheVariants.{Snapshot};
ghost use Rattle.chunk_format.specs.Logs.{end_of, opening_chunk};
ghost use Rattle.epoch_coordinator.specs.Members.{sequence_of};
ghost use Rattle.epoch_coordinator.specs.Offers.{with_snapshot};
ghost use Rattle.leader_offers.specs.Leads.{Leads, Put, SomeBehind, WhyStopped};

use chunk_format::{Chunk, is_chunk};
use member_core::Member;

/// Why a leader took no more chunks.
#[derive(Clone, Copy)]
pub(crate) enum Stop {
    /// A chunk has more bytes or offsets than its header has room for.
    Large,
    /// There was not enough memory.
    Memory,
}

/// How many chunks stand behind a snapshot before the next one.
const SNAPSHOT_EVERY: u64 = 1024;

/// Puts a chunk that is no snapshot.
fn put_chunk(leader: &mut Member, chunk: Chunk) -> Result<(), Stop>
    requires leads { Leads leader.old }
    requires epoch { chunk.epoch ≡ leader.old.promise }
    requires begins { chunk.first ≡ end_of (sequence_of leader.old) }
    requires kind { chunk.kind ≡ Snapshot → ⊥ }
    ensures ok { OnOk result (Put leader.old (chunk ∷ []) leader.new) }
    ensures err { OnErr result (leader.new ≡ leader.old) }
    ensures stopped { IfErr result (WhyStopped (chunk ∷ [])) }
{
    if !is_chunk(&chunk) {
        return Err(Stop::Large);
    }
    match leader.offer(chunk) {
        Ok(()) => Ok(()),
        Err(_) => Err(Stop::Memory),
    }
}

/// Puts a snapshot.
fn put_snapshot(leader: &mut Member, stamp: i64) -> Result<(), Stop>
    requires { Leads leader.old }
    ensures ok { OnOk result (Put leader.old (opening_chunk leader.old.promise stamp (sequence_of leader.old) ∷ []) leader.new) }
    ensures err { OnErr result (leader.new ≡ leader.old) }
    ensures stopped { IfErr result (WhyStopped (opening_chunk leader.old.promise stamp (sequence_of leader.old) ∷ [])) }
{
    if leader.end() == u64::MAX {
        return Err(Stop::Large);
    }
    let len = match leader.snapshot_len() {
        Ok(len) => len,
        Err(_) => return Err(Stop::Memory),
    };
    if len > 2_147_483_647 {
        return Err(Stop::Large);
    }
    match leader.offer_snapshot(stamp) {
        Ok(()) => Ok(()),
        Err(_) => Err(Stop::Memory),
    }
}

/// Puts a chunk that is no snapshot, and a snapshot behind it where it is the 1,024th since the last one.
pub(crate) fn put(leader: &mut Member, chunk: Chunk) -> Result<(), Stop>
    requires leads { Leads leader.old }
    requires epoch { chunk.epoch ≡ leader.old.promise }
    requires begins { chunk.first ≡ end_of (sequence_of leader.old) }
    requires kind { chunk.kind ≡ Snapshot → ⊥ }
    ensures ok { OnOk result (Put leader.old (with_snapshot (sequence_of leader.old) chunk) leader.new) }
    ensures err { OnErr result (SomeBehind leader.old leader.new) }
    ensures stopped { IfErr result (WhyStopped (with_snapshot (sequence_of leader.old) chunk)) }
{
    let stamp = chunk.stamp;
    put_chunk(leader, chunk)?;
    if leader.since_snapshot() != SNAPSHOT_EVERY {
        return Ok(());
    }
    put_snapshot(leader, stamp)
}
