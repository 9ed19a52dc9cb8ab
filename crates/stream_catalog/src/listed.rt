//! The catalog in memory: names, and the live streams by number.

ghost use Rattle.std.specs.Prelude.{◌≡◌, ◌++◌, ◌∷◌, [], ◌<◌, true, length, filter, if◌then◌else◌, OnOk, OnErr, IfOk};
ghost use Rattle.stream_catalog.specs.Names.{Names, no_names, is_live, find, parts, route, routed, is_key, part_index, same_name, streams, live};
ghost use Rattle.stream_catalog.specs.Rules.{changed, is_among, numbers_going};
ghost use Rattle.stream_catalog.specs.InHand.{streams_without};
ghost use Rattle.std.specs.Option.{option_copied};
ghost use Rattle.stream_catalog.specs.Files.{fits};
ghost use Rattle.stream_catalog.specs.Adding.{AreNumbered, IsFront, Comes, Goes};

use crate::asking::copy_texts;
use crate::change::Change;
use crate::holder::Holder;
use crate::live::Live;
use crate::names::{NameList, count_of, is_among};
use frame_wire::{Row, Text};
use std::alloc::{AllocError, Global};
use std::marker::Model;

/// Names with the live streams by number. What happens by the rules to a change that is asked for, `ask_create` and those beside
/// it tell; `add` and `take_away` then make it.
#[derive(Drop)]
pub struct Listed {
    names: NameList,
    live: Live,
}

/// How many names and live streams there are, and the greatest number.
#[derive(Clone, Copy)]
pub(crate) struct Mark {
    pub(crate) names: usize,
    pub(crate) streams: usize,
    pub(crate) last: u32,
}

impl Model for Listed {
    ghost use Rattle.std.specs.Prelude.{◌≡◌};
    ghost use Rattle.stream_catalog.specs.Names.{Names, live as live_names};
    ghost use Rattle.stream_catalog.specs.Adding.{AreNumbered};

    ghost Value = { Names };

    ghost view = { λ l. l.names };

    ghost invariant = { λ l. (l.live ≡ live_names l.names) × AreNumbered l.names };
}

fn is_key(key: &[u8], bound: &Text) -> bool
    ensures { result ≡ is_key key.now bound.now }
{
    match bound.get() {
        None => false,
        Some(bytes) => is_same(key, bytes),
    }
}

fn is_same(one: &[u8], other: &[u8]) -> bool
    ensures { result ≡ same_name one.now other.now }
{
    one == other
}

/// Adds a partition where its binding key is a routing key.
fn push_routed(row: &mut Row<Text>, key: &[u8], part: &Text, bound: &Text) -> Result<(), AllocError>
    ensures { OnOk result (row.new ≡ row.old ++ (if is_key key.now bound.now then part.now ∷ [] else [])) }
{
    if !is_key(key, bound) {
        return Ok(());
    }
    let part = part.clone()?;
    match row.push(part) {
        Ok(()) => Ok(()),
        Err(_) => Err(AllocError),
    }
}

/// The partitions whose binding key is a routing key.
fn routed(alloc: Global, key: &[u8], parts: &[Text], keys: &[Text]) -> Result<Row<Text>, AllocError>
    ensures { IfOk result (λ row. row ≡ routed key.now parts.now keys.now) }
{
    let mut row = Row::new(alloc);
    let count = if parts.len() < keys.len() {
        parts.len()
    } else {
        keys.len()
    };
    for index in 0..count {
        push_routed(&mut row, key, &parts[index], &keys[index])?;
    }
    Ok(row)
}

/// Adds a number where it is to be kept.
fn push_where(numbers: &mut Row<u32>, keep: bool, number: u32) -> Result<(), AllocError>
    ensures { OnOk result (numbers.new ≡ numbers.old ++ (if keep then number ∷ [] else [])) }
{
    if !keep {
        return Ok(());
    }
    match numbers.push(number) {
        Ok(()) => Ok(()),
        Err(_) => Err(AllocError),
    }
}

/// The live streams that aren't live in another catalog. It takes memory for their numbers.
pub(crate) fn streams_without(
    alloc: Global,
    others: &Listed,
    listed: &Listed,
) -> Result<Row<u32>, AllocError>
    ensures { IfOk result (λ numbers. numbers ≡ streams_without others.now listed.now) }
{
    let mut kept = Row::new(alloc);
    let numbers = listed.streams();
    for index in 0..numbers.len() {
        let number = numbers[index];
        push_where(&mut kept, !others.is_live(number), number)?;
    }
    Ok(kept)
}

/// The numbers of the live streams that go with a super stream. It takes memory for them.
pub(crate) fn numbers_going(
    alloc: Global,
    holder: Option<&Holder>,
    numbers: &[u32],
) -> Result<Row<u32>, AllocError>
    ensures { IfOk result (λ going. going ≡ numbers_going (option_copied holder.entry) numbers.now) }
{
    match holder {
        Some(
            Holder::Super {
                first,
                parts,
                keys: _,
            },
        ) => numbers_among(alloc, *first, parts.as_slice().len(), numbers),
        _ => Ok(Row::new(alloc)),
    }
}

/// Those of some numbers that are among so many, from the first on.
fn numbers_among(
    alloc: Global,
    first: u32,
    count: usize,
    numbers: &[u32],
) -> Result<Row<u32>, AllocError>
    ensures { IfOk result (λ kept. kept ≡ filter (λ n. is_among first count n) numbers.now) }
{
    let mut kept = Row::new(alloc);
    for index in 0..numbers.len() {
        let number = numbers[index];
        push_where(&mut kept, is_among(first, count, number), number)?;
    }
    Ok(kept)
}

impl Listed {
    /// No names, and no number was given.
    pub fn empty(alloc: Global) -> Result<Listed, AllocError>
        ensures { IfOk result (λ l. l ≡ no_names) }
    {
        Listed::of(alloc, NameList::new(alloc))
    }

    /// Names with their live streams. It takes memory for the numbers.
    pub(crate) fn of(alloc: Global, names: NameList) -> Result<Listed, AllocError>
        requires { AreNumbered names }
        ensures { IfOk result (λ l. l ≡ names) }
    {
        let live = Live::of(alloc, &names)?;
        Ok(Listed { names, live })
    }

    /// The names.
    pub(crate) fn names(&self) -> &NameList
        ensures { result.now ≡ self.now }
    {
        &self.names
    }

    /// The number of the stream of a name.
    pub fn find(&self, name: &[u8]) -> Option<u32>
        ensures { result ≡ find name.now self.now }
    {
        match self.names.holder(name) {
            Some(Holder::Stream { number }) => Some(*number),
            Some(Holder::Part { number, place: _ }) => Some(*number),
            _ => None,
        }
    }

    /// The partitions of a super stream.
    pub fn parts(&self, alloc: Global, name: &[u8]) -> Result<Option<Row<Text>>, AllocError>
        ensures { IfOk result (λ row. row ≡ parts name.now self.now) }
    {
        match self.names.holder(name) {
            Some(
                Holder::Super {
                    first: _,
                    parts,
                    keys: _,
                },
            ) => {
                let row = copy_texts(alloc, parts.as_slice())?;
                Ok(Some(row))
            }
            _ => Ok(None),
        }
    }

    /// The partitions of a super stream whose binding key is a routing key.
    pub fn route(
        &self,
        alloc: Global,
        key: &[u8],
        name: &[u8],
    ) -> Result<Option<Row<Text>>, AllocError>
        ensures { IfOk result (λ row. row ≡ route key.now name.now self.now) }
    {
        match self.names.holder(name) {
            Some(
                Holder::Super {
                    first: _,
                    parts,
                    keys,
                },
            ) => {
                let row = routed(alloc, key, parts.as_slice(), keys.as_slice())?;
                Ok(Some(row))
            }
            _ => Ok(None),
        }
    }

    /// The greatest number ever given, or 0.
    pub fn last(&self) -> u32
        ensures { result ≡ self.now.last }
    {
        self.names.last()
    }

    /// Whether a live stream has a number.
    pub fn is_live(&self, number: u32) -> bool
        ensures { result ≡ is_live number self.now }
    {
        self.live.has(number)
    }

    /// The place of a stream in its super stream, or 0.
    pub fn part_index(&self, stream: u32) -> u32
        ensures { result ≡ part_index stream self.now }
    {
        self.live.place(stream)
    }

    /// The numbers of the live streams, rising.
    pub fn streams(&self) -> &[u32]
        ensures numbers { result.now ≡ streams self.now }
        ensures rising { AreNumbered self.now }
    {
        self.live.numbers()
    }

    /// How many names and live streams there are, and the greatest number.
    pub(crate) fn mark(&self) -> Mark
        ensures names { result.names ≡ length self.now.list }
        ensures streams { result.streams ≡ length (live self.now) }
        ensures last { result.last ≡ self.now.last }
        ensures numbered { AreNumbered self.now }
    {
        Mark {
            names: self.names.len(),
            streams: self.live.numbers().len(),
            last: self.names.last(),
        }
    }

    /// Goes back to names with others behind them.
    pub(crate) fn go_back(&mut self, mark: Mark)
        requires { (front : Names) × IsFront front self.old × (mark.names ≡ length front.list) × (mark.streams ≡ length (live front)) × (mark.last ≡ front.last) }
        ensures { (front : Names) → IsFront front self.old → mark.names ≡ length front.list → mark.last ≡ front.last → self.new ≡ front }
    {
        self.names.go_back(mark.names, mark.last);
        self.live.cut(mark.streams);
    }

    /// A stream comes, or a super stream with its partitions. Where memory runs out nothing changes.
    pub fn add(&mut self, alloc: Global, change: Change) -> Result<(), AllocError>
        requires fits { fits change self.old ≡ true }
        requires comes { Comes change.kind }
        ensures ok { OnOk result ((self.new ≡ changed change self.old) × IsFront self.old self.new) }
        ensures err { OnErr result (self.new ≡ self.old) }
    {
        let names = self.names.len();
        let last = self.names.last();
        self.names.add(change)?;
        match Live::of(alloc, &self.names) {
            Ok(live) => {
                self.live = live;
                Ok(())
            }
            Err(error) => {
                self.names.go_back(names, last);
                Err(error)
            }
        }
    }

    /// A stream goes, or a super stream with its partitions.
    pub fn take_away(&mut self, change: &Change)
        requires { Goes change.now.kind }
        ensures { self.new ≡ changed change.now self.old }
    {
        let count = count_of(self.names.holder_at(&change.name));
        self.names.take_away(change);
        self.live.remove(change.number, count);
    }
}
