//! Those that read, and the notes of the writer.
ghost use Rattle.std.specs.Prelude.{◌≡◌, ◌↔◌, true, false, IsTrue, IfOk, OnOk, OnErr, MatchResult};
ghost use Rattle.left_right.specs.Sides.{view};
ghost use Rattle.committed_view.specs.Published.{new_pass, lent_list, Learns, Polls, PollFails, BeginsWithEach};
ghost use Rattle.committed_view.specs.Looking.{Entered, Enters, Missed};
ghost use Rattle.committed_view.specs.Places.{seen_at, is_inside, OnlyReads};
ghost use Rattle.committed_view.specs.Rule.{newcomer};

use crate::share::begins_with;
use crate::shown::{Look, Publishing, Shown, View};
use chunk_format::Stored;
use core::mem::replace_with;
use left_right::reader::{Reader, Reading};
use std::alloc::{AllocError, Global};
use std::marker::Model;
use std::sync::Arc;

// A place at the two copies from which the list is read.
pub(crate) type Reads = Reader<Shown, View, Publishing>;

// The same while it reads.
type IsReading = Reading<Shown, View, Publishing>;

/// A note of the list that was published when the writer told it. Contracts see it as that list.
#[derive(Drop)]
pub struct ViewNote {
    list: Arc<Vec<Stored>>,
}

impl Model for ViewNote {
    ghost use Rattle.std.specs.Arc.{arc_value};
    ghost use Rattle.committed_view.specs.Published.{Chunks};

    ghost Value = { Chunks };

    ghost view = { λ n. (arc_value n.list).items };
}

impl ViewNote {
    pub(crate) fn new(alloc: Global, list: Vec<Stored>) -> Result<ViewNote, AllocError>
        ensures { IfOk result (λ note. note ≡ list.items) }
    {
        Ok(ViewNote {
            list: Arc::new(alloc, list)?,
        })
    }

    fn share(&self) -> Result<ViewNote, AllocError>
        ensures { IfOk result (λ note. note ≡ self.now) }
    {
        Ok(ViewNote {
            list: Arc::try_clone(&self.list)?,
        })
    }

    /// The list that was published.
    pub fn chunks(&self) -> &[Stored]
        ensures { result.now ≡ self.now }
    {
        self.list.as_slice()
    }
}

// Where a pass stands: it is inside while a guard lends the list.
enum Place {
    Outside(Reads),
    Inside(IsReading),
}

/// A reader. Contracts see what was published when it polled last, the lists of the notes that it learnt since, and whether
/// it lends a list.
pub struct ViewPass {
    place: Place,
    told: Vec<ViewNote>,
}

impl Model for ViewPass {
    ghost use Rattle.committed_view.specs.Published.{Pass};
    ghost use Rattle.committed_view.specs.Places.{seen_at, is_inside, OnlyReads};

    ghost Value = { Pass };

    ghost view = { λ p. record { known = record { published = (seen_at p.place).published; told = p.told.items }; lent = is_inside p.place } };

    ghost invariant = { λ p. OnlyReads p.place };
}

impl Drop for ViewPass {
    fn drop(self) {
        let Self { place, told } = self;
        drop(outside(place));
        drop(told);
    }
}

// Leaves, where it is inside.
fn outside(place: Place) -> Reads
    ensures { view result.place ≡ seen_at place }
{
    match place {
        Place::Outside(reader) => reader,
        Place::Inside(reading) => reading.leave(),
    }
}

// Whether a list begins with that of each note.
fn begins_with_each(list: &[Stored], told: &[ViewNote]) -> bool
    ensures { IsTrue result ↔ BeginsWithEach told.now list.now }
{
    for note in told {
        if !begins_with(list, note.chunks()) {
            return false;
        }
    }
    true
}

// Takes the list that is shown, if it begins with that of each note.
fn entered(reader: Reads, told: &[ViewNote]) -> Result<IsReading, Reads>
    requires { (view reader.place).writes ≡ false }
    ensures { MatchResult result (λ r. Entered (view reader.place) told.now r.part.value (view r.place)) (λ r. Missed (view reader.place) (view r.place)) }
{
    let reading = reader.enter_as::<Look>()?;
    if begins_with_each(reading.get().chunks.as_slice(), told) {
        Ok(reading)
    } else {
        Err(reading.leave())
    }
}

// Leaves, for good.
fn left(place: Place, _nothing: ()) -> (Place, ())
    requires { OnlyReads place }
    ensures reads { OnlyReads result.0 }
    ensures seen { seen_at result.0 ≡ seen_at place }
    ensures outside { is_inside result.0 ≡ false }
{
    (Place::Outside(outside(place)), ())
}

// Goes inside from where it stands, if the list that is shown begins with that of each note.
fn inside(place: Place, told: &[ViewNote]) -> (Place, Result<(), AllocError>)
    requires { OnlyReads place }
    ensures reads { OnlyReads result.0 }
    ensures ok { OnOk result.1 ((is_inside result.0 ≡ true) × Enters (seen_at place) told.now (seen_at result.0)) }
    ensures err { OnErr result.1 ((is_inside result.0 ≡ false) × Missed (seen_at place) (seen_at result.0)) }
{
    match entered(outside(place), told) {
        Ok(reading) => (Place::Inside(reading), Ok(())),
        Err(reader) => (Place::Outside(reader), Err(AllocError)),
    }
}

impl ViewPass {
    pub(crate) fn new(alloc: Global, reader: Reads) -> ViewPass
        requires { view reader.place ≡ newcomer }
        ensures { result ≡ new_pass }
    {
        ViewPass {
            place: Place::Outside(reader),
            told: Vec::new(alloc),
        }
    }

    /// From now on the pass polls no list that doesn't begin with that of the note. It fails for want of memory alone, and
    /// then the pass is as it was.
    pub fn learn(&mut self, note: &ViewNote) -> Result<(), AllocError>
        ensures ok { OnOk result (Learns self.old.known note.now self.new.known) }
        ensures err { OnErr result (self.new.known ≡ self.old.known) }
        ensures lent { self.new.lent ≡ self.old.lent }
    {
        let note = note.share()?;
        match self.told.push(note) {
            Ok(()) => Ok(()),
            Err(_) => Err(AllocError),
        }
    }

    // The list that it lends, none where it lends none.
    fn lent(&self) -> &[Stored]
        ensures { result.now ≡ lent_list self.now }
    {
        match &self.place {
            Place::Inside(reading) => reading.get().chunks.as_slice(),
            Place::Outside(_) => &[],
        }
    }

    // Lends no list any more.
    fn let_go(&mut self)
        ensures known { self.new.known ≡ self.old.known }
        ensures lent { self.new.lent ≡ false }
    {
        replace_with(&mut self.place, (), left)
    }

    // Lends the list that is shown.
    fn look(&mut self) -> Result<(), AllocError>
        ensures ok { OnOk result (Polls self.old.known (lent_list self.new) self.new.known) }
        ensures err { OnErr result ((self.new.lent ≡ false) × PollFails self.old.known self.new.known) }
    {
        replace_with(&mut self.place, self.told.as_slice(), inside)?;
        self.told.clear();
        Ok(())
    }
}

/// The list that a pass polled, which the writer leaves alone until the guard is let go.
pub struct ViewGuard<'a> {
    pass: &'a mut ViewPass,
}

impl ViewGuard<'_> {
    ghost use Rattle.std.specs.Prelude.{◌≡◌};
    ghost use Rattle.committed_view.specs.Guards.{list_of};

    /// The list, all chunks in order.
    pub fn chunks(&self) -> &[Stored]
        ensures { result.now ≡ list_of self.now }
    {
        self.pass.lent()
    }
}

impl Drop for ViewGuard<'_> {
    fn drop(self)
        ensures known { self.exit.0.now.known ≡ self.entry.pass.now.known }
        ensures lent { self.exit.0.now.lent ≡ false }
    {
        let Self { pass } = self;
        pass.let_go();
    }
}

impl ViewPass {
    ghost use Rattle.std.specs.Prelude.{◌≡◌, IfOk, false};
    ghost use Rattle.std.specs.Borrow.{sem, RestsIfErr};
    ghost use Rattle.committed_view.specs.contracts.pass.ViewPass.{the_row};
    ghost use Rattle.committed_view.specs.Guards.{list_of};
    ghost use Rattle.committed_view.specs.Published.{Polls, PollFails};

    /// The list that is published now. It waits for no one and copies nothing. Want of memory is answered where the writer
    /// is gone, and where the list doesn't begin with that of a note that was learnt, as one of another view; the pass may
    /// then be polled again.
    pub fn poll(&mut self) -> Result<ViewGuard<'_>, AllocError>
        ensures* fails { sem 𝓛 (RestsIfErr the_row self.entry (λ guard. guard.pass.ghost_name) result (λ pass. (pass.lent ≡ false) × PollFails self.old.known pass.known)) }
        ensures same_reference { IfOk result (λ guard. guard.pass.ghost_name ≡ self.entry.ghost_name) }
        ensures polls { IfOk result (λ guard. Polls self.old.known (list_of guard) guard.pass.now.known) }
    {
        match self.look() {
            Ok(()) => Ok(ViewGuard { pass: self }),
            Err(error) => Err(error),
        }
    }
}
