//! A member's log and promises of a stream, over its disk.

ghost use Rattle.std.specs.Prelude.{◌≡◌, ◌∷◌, [], ℕ, List, IfOk, IsErrOf, IsTrue, OnOk};
ghost use Rattle.disk_calls.specs.Disk.{HasCause};
ghost use Rattle.disk_calls.specs.Frames.{Besides, OtherStreams};
ghost use Rattle.chunk_format.specs.declared.chunk.Chunk.{Chunk};
ghost use Rattle.epoch_coordinator.specs.declared.message.Job.TheVariants.{Write, Cut, Promise};
ghost use Rattle.gated_words.specs.Files.{Damages, Opens, PairsOf, second_file, seen_files};
ghost use Rattle.gated_words.specs.Backing.{Backs, KeepsPairs};
ghost use Rattle.segment_pairs.specs.Log.{Finder};
ghost use Rattle.segment_pairs.specs.Held.{Segment, EachLog, seen_log};
ghost use Rattle.segment_store.specs.Rows.{grown};
ghost use Rattle.segment_store.specs.Words.{word_of};
ghost use Rattle.segment_store.specs.Recoverable.{Recoverable};
ghost use Rattle.segment_store.specs.Recovery.{CanRecover, NoneReturns, SeenDamaged};
ghost use Rattle.segment_store.specs.Logs.{LogEnds, EndsChunk};
ghost use Rattle.segment_store.specs.Stores.{BackedStore, Continues, EachHolds, EachPromise, EndsRise, JobLeaves, KeepsStore, LogBetween, PromiseBetween, SameKeeper, StandsAfter, StoreStands, log_after, promise_after, promise_file, promise_of};

use crate::epochs::last_word;
use crate::fault::StoreFault;
use crate::find::recover_log;
use crate::receipt::Receipt;
use crate::recovered::{Recovered, Recovery, shares_of};
use crate::segment_log::SegmentLog;
use chunk_format::Stored;
use disk_calls::{Disk, DiskDid, FileId, FileName};
use epoch_coordinator::Job;
use gated_words::Gated;
use std::alloc::Global;
use std::marker::Model;

/// A member's log of a stream and its promises, in files of its disk.
///
/// A contract sees the stream, the member, the table of the log's chunks, and the pairs of promises. After a job that
/// the disk failed it is used no more, nor after a crash: then it is to be recovered.
#[derive(Drop)]
pub struct MemberStore {
    stream: u32,
    member: u8,
    log: SegmentLog,
    promises: Gated,
}

impl Model for MemberStore {
    ghost use Rattle.segment_store.specs.Stores.{StoreInHand, IsOf};

    ghost Value = { StoreInHand };

    ghost view = { λ m. record { stream = m.stream; member = m.member; log = m.log; promises = m.promises } };

    ghost invariant = { λ m. IsOf (record { stream = m.stream; member = m.member; log = m.log; promises = m.promises }) };
}

// Opens the file of the promises to a stream, or makes it.
fn open_promises<D: Disk>(alloc: Global, disk: &mut D, stream: u32) -> Result<Gated, StoreFault>
    ensures images { D.tells → KeepsPairs (promise_file stream) (D.state disk.old) (D.state disk.new) }
    ensures others { Besides (promise_file stream) (second_file (promise_file stream)) (D.state disk.old) (D.state disk.new) }
    ensures pairs { D.tells → IfOk result (λ g. g.pairs ≡ PairsOf (seen_files (promise_file stream) (D.state disk.old))) }
    ensures backs { D.tells → IfOk result (λ g. Backs g (D.state disk.new)) }
    ensures sure { IfOk result (λ g. (g.id ≡ promise_file stream) × IsTrue g.sure) }
    ensures opens { D.tells → IfOk result (λ g. Opens (seen_files (promise_file stream) (D.state disk.old))) }
    ensures damaged { D.tells → (place : ℕ) → IsErrOf result (StoreFault.DamagedWords place) → Damages place (seen_files (promise_file stream) (D.state disk.old)) }
    ensures undamaged { D.tells → Opens (seen_files (promise_file stream) (D.state disk.old)) → (place : ℕ) → IsErrOf result (StoreFault.DamagedWords place) → ⊥ }
    ensures no_segment { (segment at : ℕ) → IsErrOf result (StoreFault.Damaged segment at) → ⊥ }
    ensures cause { HasCause (IsErrOf result StoreFault.Disk) (D.state disk.old) (D.state disk.new) }
{
    let id = FileId {
        stream,
        file: FileName::Promise,
    };
    let promises = Gated::open(alloc, disk, id)?;
    Ok(promises)
}

impl MemberStore {
    /// Recovers the log and the promises of a member of a stream, and makes them stand.
    ///
    /// First each segment above 0 whose index is missing or has at most a header is removed, the index first: such a one
    /// had no record yet, or could not be removed. Then segments and indexes are read by rising number, each once, and
    /// made sure by a sync. What a crash left behind the chunks of the last is cut away, from the index first; a last
    /// segment above 0 without chunks is removed, and segment 0 without its headers is made anew. Then the promises are
    /// opened. It needs memory for the chunks, for where each stands, and for the bytes of one segment at a time.
    ///
    /// On every answer each image that a crash may leave has the log of one from before, and the promises of one from
    /// before; after `Ok` each has exactly what is given. `Damaged` comes exactly where no crash leaves such files of the
    /// log: a segment does not begin where the log before it ends, one that is not the last is not its chunks and nothing
    /// else, or behind those of the last more stands than one record of its index, or segment 0 or its index has another
    /// header of more than 8 bytes. `DamagedWords` comes exactly where no crash leaves such files of promises, `Disk` only
    /// where the disk failed, and `Memory` for want of memory. `Damaged` and `DamagedWords` never come where no image of
    /// the files is damaged, which jobs, recovery and crashes keep (`recoverable_files_recover`).
    ///
    /// A number of a segment of which no file is seen must have no index that a crash brings back.
    pub fn recover<D: Disk>(
        alloc: Global,
        disk: &mut D,
        stream: u32,
        member: u8,
    ) -> Result<Recovery, StoreFault>
        requires { D.tells → NoneReturns stream (D.state disk.old) }

        // After each answer.
        ensures images { D.tells → KeepsStore stream (D.state disk.old) (D.state disk.new) }
        ensures recoverable { D.tells → Recoverable stream (D.state disk.old) → Recoverable stream (D.state disk.new) }
        ensures others { OtherStreams stream (D.state disk.old) (D.state disk.new) }

        ensures backed { D.tells → IfOk result (λ r. BackedStore r.store r.recovered.chunks (D.state disk.new)) }
        ensures only { D.tells → IfOk result (λ r. EachHolds stream r.recovered.chunks r.recovered.promise (D.state disk.new)) }
        ensures log { D.tells → (F : Finder) → IfOk result (λ r. seen_log F stream (D.state disk.old) ≡ r.recovered.chunks) }
        ensures promise { D.tells → IfOk result (λ r. r.recovered.promise ≡ word_of stream (PairsOf (seen_files (promise_file stream) (D.state disk.old)))) }
        ensures store { IfOk result (λ r. (r.store.stream ≡ stream) × (r.store.member ≡ member) × (promise_of r.store ≡ r.recovered.promise)) }
        ensures sure { IfOk result (λ r. IsTrue r.store.promises.sure) }
        ensures member { IfOk result (λ r. r.recovered.member ≡ member) }

        ensures damaged { D.tells → (F : Finder) (segment at : ℕ) → IsErrOf result (StoreFault.Damaged segment at) → SeenDamaged F stream (D.state disk.old) segment at }
        ensures sound { D.tells → (F : Finder) (segment at : ℕ) → OnOk result (SeenDamaged F stream (D.state disk.old) segment at → ⊥) }
        ensures never { D.tells → CanRecover stream (D.state disk.old) → (F : Finder) (segment at : ℕ) → IsErrOf result (StoreFault.Damaged segment at) → ⊥ }
        ensures damaged_words { D.tells → (place : ℕ) → IsErrOf result (StoreFault.DamagedWords place) → Damages place (seen_files (promise_file stream) (D.state disk.old)) }
        ensures sound_words { D.tells → OnOk result (Opens (seen_files (promise_file stream) (D.state disk.old))) }
        ensures never_words { D.tells → Opens (seen_files (promise_file stream) (D.state disk.old)) → (place : ℕ) → IsErrOf result (StoreFault.DamagedWords place) → ⊥ }
        ensures cause { HasCause (IsErrOf result StoreFault.Disk) (D.state disk.old) (D.state disk.new) }
    {
        let found = recover_log(alloc, disk, stream)?;
        let promises = open_promises(alloc, disk, stream)?;
        let chunks = shares_of(alloc, &found.chunks)?;
        let promise = last_word(promises.pairs(), stream);
        Ok(Recovery {
            store: MemberStore {
                stream,
                member,
                log: found.log,
                promises,
            },
            recovered: Recovered {
                member,
                promise,
                chunks,
            },
        })
    }

    /// The stream.
    pub fn stream(&self) -> u32
        ensures { result ≡ self.now.stream }
    {
        self.stream
    }

    /// The member's number.
    pub fn member(&self) -> u8
        ensures { result ≡ self.now.member }
    {
        self.member
    }

    /// The epoch that was promised last, 0 where none was.
    pub fn promise(&self) -> u64
        ensures { result ≡ promise_of self.now }
    {
        last_word(self.promises.pairs(), self.stream)
    }

    /// Whether a job continues the log: it writes a chunk that begins where the log ends, cuts where some chunk ends or
    /// at 0, or promises. It looks at one chunk for each halving of the log.
    pub fn continues(&self, job: &Job) -> bool
        ensures found { IsTrue result → Continues self.now job.now }
        ensures all { EndsRise self.now.log.rows → Continues self.now job.now → IsTrue result }
    {
        match job {
            Job::Write(chunk) => self.log.end() == chunk.header().first,
            Job::Cut(end) => self.log.ends_chunk(*end),
            Job::Promise(_) => true,
            Job::Epoch(_) => false,
        }
    }

    /// Does a job that continues the log, and hands out its receipt.
    ///
    /// On every answer a crash leaves the log and the promise of before the job or after it, of a cut a beginning of the
    /// log that begins with what is to be left; after `Ok` all images have those after it. A chunk begins a new
    /// segment exactly where that of the last chunk has at least 262,144 bytes. Memory is taken before the disk is
    /// called: after `Memory` nothing has changed. It fails with `Disk` only where the disk failed; the store is then
    /// to be recovered.
    ///
    /// Its calls of the disk are those of `SegmentLog::write` and `SegmentLog::cut`, and of `Gated::put`.
    pub fn perform<D: Disk>(
        &mut self,
        disk: &mut D,
        number: u64,
        job: &Job,
    ) -> Result<Receipt, StoreFault>
        requires continues { Continues self.old job.now }
        requires backed { D.tells → (chunks : List Chunk) × BackedStore self.old chunks (D.state disk.old) }

        // After each answer.
        ensures log { D.tells → (chunks : List Chunk) → BackedStore self.old chunks (D.state disk.old) → EachLog self.old.stream (LogBetween job.now chunks) (D.state disk.new) }
        ensures promise { D.tells → (chunks : List Chunk) → BackedStore self.old chunks (D.state disk.old) → EachPromise self.old.stream (PromiseBetween job.now (promise_of self.old)) (D.state disk.new) }
        ensures recoverable { D.tells → Recoverable self.old.stream (D.state disk.new) }
        ensures others { OtherStreams self.old.stream (D.state disk.old) (D.state disk.new) }
        ensures keeper { SameKeeper self.old self.new }

        ensures done { D.tells → (chunks : List Chunk) → BackedStore self.old chunks (D.state disk.old) → OnOk result (BackedStore self.new (log_after job.now chunks) (D.state disk.new)) }
        ensures only_log { D.tells → (chunks : List Chunk) → BackedStore self.old chunks (D.state disk.old) → OnOk result (EachLog self.old.stream (λ log. log ≡ log_after job.now chunks) (D.state disk.new)) }
        ensures only_promise { D.tells → (chunks : List Chunk) → BackedStore self.old chunks (D.state disk.old) → OnOk result (EachPromise self.old.stream (λ word. word ≡ promise_after job.now (promise_of self.old)) (D.state disk.new)) }
        ensures promised { OnOk result (promise_of self.new ≡ promise_after job.now (promise_of self.old)) }
        ensures segments { D.tells → (chunk : Chunk) (segments : List Segment) → job.now ≡ Write chunk → StoreStands self.old segments (D.state disk.old) → OnOk result (StoreStands self.new (grown segments chunk) (D.state disk.new)) }
        ensures receipt { IfOk result (λ r. (r.stream ≡ self.old.stream) × (r.member ≡ self.old.member) × (r.number ≡ number)) }

        ensures memory { IsTrue self.old.promises.sure → IsErrOf result StoreFault.Memory → (self.new ≡ self.old) × (disk.new ≡ disk.old) }
        ensures undamaged { (segment at : ℕ) → IsErrOf result (StoreFault.Damaged segment at) → ⊥ }
        ensures unworded { D.tells → (place : ℕ) → IsErrOf result (StoreFault.DamagedWords place) → ⊥ }
        ensures cause { HasCause (IsErrOf result StoreFault.Disk) (D.state disk.old) (D.state disk.new) }
    {
        self.change(disk, job)?;
        Ok(Receipt::new(self.stream, self.member, number))
    }

    // Does a job that continues the log.
    fn change<D: Disk>(&mut self, disk: &mut D, job: &Job) -> Result<(), StoreFault>
        requires continues { Continues self.old job.now }
        requires backed { D.tells → (segments : List Segment) × StoreStands self.old segments (D.state disk.old) }
        ensures leaves { D.tells → (segments : List Segment) → StoreStands self.old segments (D.state disk.old) → JobLeaves job.now self.old segments (D.state disk.new) }
        ensures recoverable { D.tells → Recoverable self.old.stream (D.state disk.new) }
        ensures done { D.tells → (segments : List Segment) → StoreStands self.old segments (D.state disk.old) → OnOk result (StandsAfter job.now segments self.new (D.state disk.new)) }
        ensures promised { OnOk result (promise_of self.new ≡ promise_after job.now (promise_of self.old)) }
        ensures others { OtherStreams self.old.stream (D.state disk.old) (D.state disk.new) }
        ensures keeper { SameKeeper self.old self.new }
        ensures memory { IsTrue self.old.promises.sure → IsErrOf result StoreFault.Memory → (self.new ≡ self.old) × (disk.new ≡ disk.old) }
        ensures undamaged { (segment at : ℕ) → IsErrOf result (StoreFault.Damaged segment at) → ⊥ }
        ensures unworded { D.tells → (place : ℕ) → IsErrOf result (StoreFault.DamagedWords place) → ⊥ }
        ensures cause { HasCause (IsErrOf result StoreFault.Disk) (D.state disk.old) (D.state disk.new) }
    {
        match job {
            Job::Write(chunk) => self.write(disk, chunk),
            Job::Cut(end) => self.cut(disk, *end),
            Job::Promise(epoch) => self.put(disk, *epoch),
            Job::Epoch(_) => Ok(()),
        }
    }

    // Writes a chunk.
    fn write<D: Disk>(&mut self, disk: &mut D, chunk: &Stored) -> Result<(), StoreFault>
        requires follows { LogEnds self.old.log chunk.now.first }
        requires backed { D.tells → (segments : List Segment) × StoreStands self.old segments (D.state disk.old) }
        ensures leaves { D.tells → (segments : List Segment) → StoreStands self.old segments (D.state disk.old) → JobLeaves (Write chunk.now) self.old segments (D.state disk.new) }
        ensures recoverable { D.tells → Recoverable self.old.stream (D.state disk.new) }
        ensures done { D.tells → (segments : List Segment) → StoreStands self.old segments (D.state disk.old) → OnOk result (StoreStands self.new (grown segments chunk.now) (D.state disk.new)) }
        ensures promised { promise_of self.new ≡ promise_of self.old }
        ensures others { OtherStreams self.old.stream (D.state disk.old) (D.state disk.new) }
        ensures keeper { SameKeeper self.old self.new }
        ensures memory { IsErrOf result StoreFault.Memory → (self.new ≡ self.old) × (disk.new ≡ disk.old) }
        ensures undamaged { (segment at : ℕ) → IsErrOf result (StoreFault.Damaged segment at) → ⊥ }
        ensures unworded { (place : ℕ) → IsErrOf result (StoreFault.DamagedWords place) → ⊥ }
        ensures cause { HasCause (IsErrOf result StoreFault.Disk) (D.state disk.old) (D.state disk.new) }
    {
        self.log.write(disk, chunk)
    }

    // Cuts the log.
    fn cut<D: Disk>(&mut self, disk: &mut D, end: u64) -> Result<(), StoreFault>
        requires ends { EndsChunk self.old.log end }
        requires backed { D.tells → (segments : List Segment) × StoreStands self.old segments (D.state disk.old) }
        ensures leaves { D.tells → (segments : List Segment) → StoreStands self.old segments (D.state disk.old) → JobLeaves (Cut end) self.old segments (D.state disk.new) }
        ensures recoverable { D.tells → Recoverable self.old.stream (D.state disk.new) }
        ensures done { D.tells → (segments : List Segment) → StoreStands self.old segments (D.state disk.old) → OnOk result (StandsAfter (Cut end) segments self.new (D.state disk.new)) }
        ensures promised { promise_of self.new ≡ promise_of self.old }
        ensures others { OtherStreams self.old.stream (D.state disk.old) (D.state disk.new) }
        ensures keeper { SameKeeper self.old self.new }
        ensures fault { (fault : StoreFault) → IsErrOf result fault → fault ≡ StoreFault.Disk }
        ensures cause { HasCause (IsErrOf result StoreFault.Disk) (D.state disk.old) (D.state disk.new) }
    {
        if let DiskDid::Failed = self.log.cut(disk, end) {
            return Err(StoreFault::Disk);
        }
        Ok(())
    }

    // Promises an epoch.
    fn put<D: Disk>(&mut self, disk: &mut D, epoch: u64) -> Result<(), StoreFault>
        requires { D.tells → (segments : List Segment) × StoreStands self.old segments (D.state disk.old) }
        ensures leaves { D.tells → (segments : List Segment) → StoreStands self.old segments (D.state disk.old) → JobLeaves (Promise epoch) self.old segments (D.state disk.new) }
        ensures recoverable { D.tells → Recoverable self.old.stream (D.state disk.new) }
        ensures done { D.tells → (segments : List Segment) → StoreStands self.old segments (D.state disk.old) → OnOk result (StoreStands self.new segments (D.state disk.new)) }
        ensures promised { OnOk result (promise_of self.new ≡ epoch) }
        ensures others { OtherStreams self.old.stream (D.state disk.old) (D.state disk.new) }
        ensures keeper { SameKeeper self.old self.new }
        ensures memory { IsTrue self.old.promises.sure → IsErrOf result StoreFault.Memory → (self.new ≡ self.old) × (disk.new ≡ disk.old) }
        ensures undamaged { (segment at : ℕ) → IsErrOf result (StoreFault.Damaged segment at) → ⊥ }
        ensures unworded { D.tells → (place : ℕ) → IsErrOf result (StoreFault.DamagedWords place) → ⊥ }
        ensures cause { HasCause (IsErrOf result StoreFault.Disk) (D.state disk.old) (D.state disk.new) }
    {
        self.promises.put(disk, self.stream as u64, epoch)?;
        Ok(())
    }
}
