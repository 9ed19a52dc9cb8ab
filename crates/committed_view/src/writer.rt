//! The one that publishes.
ghost use Rattle.std.specs.Prelude.{◌≡◌, ◌<◌, [], true, false, drop, replicate, IfOk, OnOk, OnErr};
ghost use Rattle.std.specs.List.{fold};
ghost use Rattle.left_right.specs.Sides.{view};
ghost use Rattle.committed_view.specs.Published.{newest, with_publish, new_pass};
ghost use Rattle.committed_view.specs.Rule.{newcomer, applied_batch};
ghost use Rattle.committed_view.specs.Writing.{IsWriter, last_chunks};

use crate::pass::{ViewNote, ViewPass};
use crate::share::shares_of;
use crate::shown::{Batch, Open, Publish, Publishing, Shown, View};
use chunk_format::Stored;
use core::mem::replace_with;
use frame_wire::Row;
use left_right::writer::Writer;
use std::alloc::{AllocError, Global};
use std::marker::Model;
use std::sync::Wait;

// The writer of the two copies.
type Writes = Writer<Shown, Batch, View, Publishing>;

/// The one that publishes. Contracts see it as the lists that its publishes made, the newest first. Its drop waits for the
/// guards that are left.
pub struct ViewWriter<R: Wait + Drop> {
    rt: R,
    alloc: Global,
    writer: Writes,
}

impl<R: Wait + Drop> Model for ViewWriter<R> {
    ghost use Rattle.left_right.specs.Sides.{view as seat_view};
    ghost use Rattle.committed_view.specs.Published.{Published};
    ghost use Rattle.committed_view.specs.Writing.{IsWriter};
    ghost use Rattle.std.specs.Prelude.{drop};

    ghost Value = { Published };

    ghost view = { λ w. (seat_view w.writer.desk.place).published };

    ghost invariant = { λ w. IsWriter (seat_view w.writer.desk.place) w.writer.desk.shown.value (drop w.writer.behind w.writer.log.items) };
}

// An empty copy of the list.
fn empty(alloc: Global) -> Shown
    ensures { (result.chunks.items ≡ []) × (result.begun ≡ false) }
{
    Shown {
        chunks: Vec::new(alloc),
        begun: false,
    }
}

// Opens the view: who does this is its writer from now on.
fn opened<R: Wait>(rt: &R, writer: Writes) -> (Writes, Result<(), AllocError>)
    requires seat { view writer.desk.place ≡ newcomer }
    requires shown { (writer.desk.shown.value.chunks.items ≡ []) × (writer.desk.shown.value.begun ≡ false) }
    requires pending { fold applied_batch ([], false) (drop writer.behind writer.log.items) ≡ ([], true) }
    ensures opened { OnOk result.1 (IsWriter (view result.0.desk.place) result.0.desk.shown.value (drop result.0.behind result.0.log.items)) }
    ensures nothing { OnOk result.1 ((view result.0.desk.place).published ≡ []) }
{
    writer.publish_as::<Open, R>(rt)
}

// Shows all that is pending: one list more is published.
fn shown<R: Wait>(writer: Writes, rt: &R) -> (Writes, Result<(), AllocError>)
    requires { IsWriter (view writer.desk.place) writer.desk.shown.value (drop writer.behind writer.log.items) }
    ensures writer { IsWriter (view result.0.desk.place) result.0.desk.shown.value (drop result.0.behind result.0.log.items) }
    ensures ok { OnOk result.1 ((view result.0.desk.place).published ≡ with_publish (view writer.desk.place).published (last_chunks [] (drop writer.behind writer.log.items))) }
    ensures err { OnErr result.1 ((view result.0.desk.place).published ≡ (view writer.desk.place).published) }
{
    writer.publish_as::<Publish, R>(rt)
}

// The writer of a new view.
fn open_writer<R: Wait + Drop>(
    rt: R,
    alloc: Global,
    readers: u8,
) -> Result<ViewWriter<R>, AllocError>
    requires { 0 < readers }
    ensures { IfOk result (λ writer. writer ≡ []) }
{
    let mut writer: Writes = Writer::new(alloc, empty(alloc), empty(alloc), usize::from(readers))?;
    let first = Batch {
        keep: 0,
        chunks: Vec::new(alloc),
    };
    if writer.append(first).is_err() {
        writer.take(&rt);
        return Err(AllocError);
    }
    let (writer, done) = opened(&rt, writer);
    match done {
        Ok(()) => Ok(ViewWriter { rt, alloc, writer }),
        Err(error) => {
            writer.take(&rt);
            Err(error)
        }
    }
}

/// A new view, with a pass for each of `readers` readers, at least one. Nothing is published. It fails for want of memory
/// alone.
pub fn open_view<R: Wait + Drop>(
    rt: R,
    alloc: Global,
    readers: u8,
) -> Result<(ViewWriter<R>, Row<ViewPass>), AllocError>
    requires { 0 < readers }
    ensures writer { IfOk result (λ opened. opened.0 ≡ []) }
    ensures passes { IfOk result (λ opened. opened.1 ≡ replicate readers new_pass) }
{
    let writer = open_writer(rt, alloc, readers)?;
    let mut passes = Row::new(alloc);
    for _ in 0..readers {
        let pass = writer.pass()?;
        if passes.push(pass).is_err() {
            return Err(AllocError);
        }
    }
    Ok((writer, passes))
}

impl<R: Wait + Drop> ViewWriter<R> {
    // A pass at the next free place.
    fn pass(&self) -> Result<ViewPass, AllocError>
        ensures { IfOk result (λ pass. pass ≡ new_pass) }
    {
        Ok(ViewPass::new(self.alloc, self.writer.factory().reader()?))
    }

    /// Appends the chunks to the list that is published, sharing their bytes. It fails for want of memory alone, and then
    /// nothing is changed. It waits for guards that lend the list from before the last publish, so a thread that holds a
    /// guard and publishes twice waits for itself.
    pub fn publish(&mut self, chunks: &[Stored]) -> Result<(), AllocError>
        ensures ok { OnOk result (self.new ≡ with_publish self.old chunks.now) }
        ensures err { OnErr result (self.new ≡ self.old) }
    {
        let batch = Batch {
            keep: self.writer.published().chunks.as_slice().len(),
            chunks: shares_of(self.alloc, chunks)?,
        };
        let Ok(()) = self.writer.append(batch) else {
            return Err(AllocError);
        };
        replace_with(
            &mut self.writer,
            &self.rt,
            |writer: Writes, rt: &R| -> (Writes, Result<(), AllocError>)
                requires { IsWriter (view writer.desk.place) writer.desk.shown.value (drop writer.behind writer.log.items) }
                ensures writer { IsWriter (view result.0.desk.place) result.0.desk.shown.value (drop result.0.behind result.0.log.items) }
                ensures ok { OnOk result.1 ((view result.0.desk.place).published ≡ with_publish (view writer.desk.place).published (last_chunks [] (drop writer.behind writer.log.items))) }
                ensures err { OnErr result.1 ((view result.0.desk.place).published ≡ (view writer.desk.place).published) }
            { shown(writer, rt) },
        )
    }

    /// The list that is published, all chunks in order.
    pub fn chunks(&self) -> &[Stored]
        ensures { result.now ≡ newest self.now }
    {
        self.writer.published().chunks.as_slice()
    }

    /// A note of all that is published, for passes to learn. It shares each chunk of the list. It fails for want of memory
    /// alone.
    pub fn tell(&self) -> Result<ViewNote, AllocError>
        ensures { IfOk result (λ note. note ≡ newest self.now) }
    {
        ViewNote::new(self.alloc, shares_of(self.alloc, self.chunks())?)
    }
}

impl<R: Wait + Drop> Drop for ViewWriter<R> {
    fn drop(self) {
        let Self {
            rt,
            alloc: _,
            writer,
        } = self;
        drop(writer.take(&rt));
    }
}
