//! Names and what they stand for.

ghost use Rattle.std.specs.Prelude.{◌≡◌, ◌++◌, ◌∷◌, ◌≤◌, ◌+◌, ◌^◌, ◌<◌, [], true, false, not, length, take, None, Some, is_some, OnOk, OnErr, IfOk, IsOk, ◌-◌};
ghost use Rattle.std.specs.List.{list_any, HoldsAt};
ghost use Rattle.std.specs.Option.{option_copied};
ghost use Rattle.stream_catalog.specs.declared.holder.Holder.TheVariants as holds;
ghost use Rattle.stream_catalog.specs.Adding.{are_free, Comes, Goes};
ghost use Rattle.stream_catalog.specs.Names.{no_names, holder_of, same_name};
ghost use Rattle.stream_catalog.specs.Rules.{holder_at, is_taken, named, all_differ, all_named, is_among, first_of, count_of, without, part_names, changed};
ghost use Rattle.stream_catalog.specs.Files.{fits};

use crate::change::{Change, ChangeKind};
use crate::holder::Holder;
use frame_wire::{Row, Text};
use indexmap::IndexMap;
use std::alloc::{AllocError, Global};
use std::marker::Model;

/// Names with what they stand for, in the order in which they came, and the greatest number ever given.
#[derive(Drop)]
pub(crate) struct NameList {
    held: IndexMap<Vec<u8>, Holder>,
    last: u32,
}

impl Model for NameList {
    ghost use Rattle.std.specs.Prelude.{map};
    ghost use Rattle.stream_catalog.specs.Names.{Names};

    ghost Value = { Names };

    ghost view = { λ n. record { list = map (λ e. (e.0.items, e.1)) n.held.entries; last = n.last } };
}

impl NameList {
    /// No names, and no number was given.
    pub(crate) fn new(alloc: Global) -> NameList
        ensures { result ≡ no_names }
    {
        NameList {
            held: IndexMap::new(alloc),
            last: 0,
        }
    }

    /// How many names there are.
    pub(crate) fn len(&self) -> usize
        ensures { result ≡ length self.now.list }
    {
        self.held.len()
    }

    /// The greatest number ever given, or 0.
    pub(crate) fn last(&self) -> u32
        ensures { result ≡ self.now.last }
    {
        self.last
    }

    /// What a name stands for.
    pub(crate) fn holder(&self, name: &[u8]) -> Option<&Holder>
        ensures { option_copied result ≡ holder_of name.now self.now }
    {
        self.held.get(name)
    }

    /// Whether a name stands for something.
    fn has(&self, name: &[u8]) -> bool
        ensures { result ≡ is_some (holder_of name.now self.now) }
    {
        self.holder(name).is_some()
    }

    /// What a text stands for; null stands for nothing.
    pub(crate) fn holder_at(&self, text: &Text) -> Option<&Holder>
        ensures { option_copied result ≡ holder_at text.now self.now }
    {
        match text.get() {
            None => None,
            Some(name) => self.holder(name),
        }
    }

    /// Whether a text stands for something.
    pub(crate) fn is_taken(&self, text: &Text) -> bool
        ensures { result ≡ is_taken self.now text.now }
    {
        self.holder_at(text).is_some()
    }

    /// Whether one of these texts stands for something.
    pub(crate) fn is_any_taken(&self, texts: &[Text]) -> bool
        ensures { result ≡ list_any (is_taken self.now) texts.now }
    {
        texts.iter().any(|text| self.is_taken(text))
    }

    /// Puts a new name behind all. Where memory runs out nothing changes.
    fn put(&mut self, name: &[u8], holder: Holder) -> Result<(), AllocError>
        requires { holder_of name.now self.old ≡ None }
        ensures list { OnOk result (self.new.list ≡ self.old.list ++ (name.now, holder) ∷ []) }
        ensures last { self.new.last ≡ self.old.last }
        ensures err { OnErr result (self.new.list ≡ self.old.list) }
    {
        let key = Vec::from_slice(*self.held.allocator(), name)?;
        self.held.insert(key, holder)?;
        Ok(())
    }

    /// Puts the names of partitions behind all, with consecutive numbers.
    fn put_parts(&mut self, first: u32, parts: &[Text]) -> Result<(), AllocError>
        requires free { are_free self.old.list (all_named parts.now) ≡ true }
        requires numbers { first + length parts.now ≤ 2 ^ 32 }
        ensures list { OnOk result (self.new.list ≡ self.old.list ++ part_names first 0 parts.now) }
        ensures last { self.new.last ≡ self.old.last }
        ensures err { OnErr result (take (length self.old.list) self.new.list ≡ self.old.list) }
    {
        for place in 0..parts.len() {
            let number = first + place as u32;
            let place_in = place as u32;
            self.put(
                named(&parts[place]),
                Holder::Part {
                    number,
                    place: place_in,
                },
            )?;
        }
        Ok(())
    }

    /// Puts a super stream behind its partitions.
    fn put_super(
        &mut self,
        first: u32,
        name: &Text,
        parts: Row<Text>,
        keys: Row<Text>,
    ) -> Result<(), AllocError>
        requires free { are_free self.old.list (all_named parts) ≡ true }
        requires name { holder_of (named name.now) self.old ≡ None }
        requires other { list_any (same_name (named name.now)) (all_named parts) ≡ false }
        requires numbers { first + length parts ≤ 2 ^ 32 }
        ensures list { OnOk result (self.new.list ≡ (self.old.list ++ part_names first 0 parts) ++ (named name.now, holds.Super first parts keys) ∷ []) }
        ensures last { self.new.last ≡ self.old.last }
        ensures err { OnErr result (take (length self.old.list) self.new.list ≡ self.old.list) }
    {
        self.put_parts(first, parts.as_slice())?;
        self.put(named(name), Holder::Super { first, parts, keys })
    }

    /// A stream comes.
    fn add_stream(&mut self, number: u32, name: &Text) -> Result<(), AllocError>
        requires { holder_of (named name.now) self.old ≡ None }
        ensures list { OnOk result (self.new.list ≡ self.old.list ++ (named name.now, holds.Stream number) ∷ []) }
        ensures last { OnOk result (self.new.last ≡ number) }
        ensures err { OnErr result (self.new ≡ self.old) }
    {
        self.put(named(name), Holder::Stream { number })?;
        self.last = number;
        Ok(())
    }

    /// A super stream comes with its partitions.
    fn add_super(
        &mut self,
        first: u32,
        name: &Text,
        parts: Row<Text>,
        keys: Row<Text>,
    ) -> Result<(), AllocError>
        requires free { are_free self.old.list (all_named parts) ≡ true }
        requires name { holder_of (named name.now) self.old ≡ None }
        requires other { list_any (same_name (named name.now)) (all_named parts) ≡ false }
        requires some { 0 < length parts }
        requires numbers { first + length parts ≤ 2 ^ 32 }
        ensures list { OnOk result (self.new.list ≡ (self.old.list ++ part_names first 0 parts) ++ (named name.now, holds.Super first parts keys) ∷ []) }
        ensures last { OnOk result (self.new.last ≡ first + length parts - 1) }
        ensures err { OnErr result (self.new ≡ self.old) }
    {
        let mark = self.len();
        let last = first + (parts.as_slice().len() - 1) as u32;
        if let Err(error) = self.put_super(first, name, parts, keys) {
            self.cut(mark);
            return Err(error);
        }
        self.last = last;
        Ok(())
    }

    /// A stream comes, or a super stream with its partitions. Where memory runs out nothing changes.
    pub(crate) fn add(&mut self, change: Change) -> Result<(), AllocError>
        requires fits { fits change self.old ≡ true }
        requires comes { Comes change.kind }
        ensures ok { OnOk result (self.new ≡ changed change self.old) }
        ensures err { OnErr result (self.new ≡ self.old) }
    {
        let Change {
            kind,
            number,
            name,
            parts,
            keys,
        } = change;
        match kind {
            ChangeKind::CreateSuper => self.add_super(number, &name, parts, keys),
            _ => self.add_stream(number, &name),
        }
    }

    /// A stream goes, or a super stream with its partitions.
    pub(crate) fn take_away(&mut self, change: &Change)
        requires { Goes change.now.kind }
        ensures { self.new ≡ changed change.now self.old }
    {
        let count = count_of(self.holder_at(&change.name));
        self.remove(change.number, count);
    }

    /// What a change that fits makes of the names. Where memory runs out nothing changes.
    pub(crate) fn apply(&mut self, change: Change) -> Result<(), AllocError>
        requires { fits change self.old ≡ true }
        ensures ok { OnOk result (self.new ≡ changed change self.old) }
        ensures err { OnErr result (self.new ≡ self.old) }
    {
        match change.kind {
            ChangeKind::Create | ChangeKind::CreateSuper => self.add(change),
            ChangeKind::Delete | ChangeKind::DeleteSuper => {
                self.take_away(&change);
                Ok(())
            }
        }
    }

    /// Keeps the first names alone, so many.
    pub(crate) fn cut(&mut self, len: usize)
        ensures list { self.new.list ≡ take len self.old.list }
        ensures last { self.new.last ≡ self.old.last }
    {
        self.held.truncate(len);
    }

    /// Keeps the first names alone, so many, and goes back to a greatest number.
    pub(crate) fn go_back(&mut self, len: usize, last: u32)
        ensures list { self.new.list ≡ take len self.old.list }
        ensures last { self.new.last ≡ last }
    {
        self.cut(len);
        self.last = last;
    }

    /// What the name at an index stands for.
    pub(crate) fn at(&self, index: usize) -> &Holder
        requires { index < length self.now.list }
        ensures { HoldsAt (λ e. e.1 ≡ result.now) self.now.list index }
    {
        let Some((_, holder)) = self.held.get_index(index) else {
            unreachable!()
        };
        holder
    }

    /// Takes the names away that stand for so many numbers, from the first on.
    pub(crate) fn remove(&mut self, first: u32, count: usize)
        ensures list { self.new.list ≡ without first count self.old.list }
        ensures last { self.new.last ≡ self.old.last }
    {
        self.held.retain(
            |_name: &Vec<u8>, holder: &mut Holder| -> bool
                ensures { (result ≡ not (is_among first count (first_of holder.old))) × (holder.new ≡ holder.old) }
            { !is_among(first, count, first_of(holder)) },
        );
    }
}

/// The bytes of a text; null has none.
pub(crate) fn named(text: &Text) -> &[u8]
    ensures { result.now ≡ named text.now }
{
    match text.get() {
        None => &[],
        Some(bytes) => bytes,
    }
}

/// Whether no two of a name and others are equal.
pub(crate) fn all_differ(alloc: Global, name: &Text, parts: &[Text]) -> Result<bool, AllocError>
    ensures { IfOk result (λ differ. differ ≡ all_differ (all_named (name.now ∷ parts.now))) }
{
    let mut seen = NameList::new(alloc);
    seen.put(named(name), Holder::Stream { number: 0 })?;
    for place in 0..parts.len() {
        let part = named(&parts[place]);
        if seen.has(part) {
            return Ok(false);
        }
        seen.put(part, Holder::Stream { number: 0 })?;
    }
    Ok(true)
}

/// The number that a name stands for: of a super stream that of its first partition.
pub(crate) fn first_of(holder: &Holder) -> u32
    ensures { result ≡ first_of holder.now }
{
    match holder {
        Holder::Stream { number } => *number,
        Holder::Part { number, place: _ } => *number,
        Holder::Super {
            first,
            parts: _,
            keys: _,
        } => *first,
    }
}

/// How many streams go with a name.
pub(crate) fn count_of(holder: Option<&Holder>) -> usize
    ensures { result ≡ count_of (option_copied holder.entry) }
{
    match holder {
        None => 0,
        Some(Holder::Stream { number: _ }) => 1,
        Some(
            Holder::Part {
                number: _,
                place: _,
            },
        ) => 1,
        Some(
            Holder::Super {
                first: _,
                parts,
                keys: _,
            },
        ) => parts.as_slice().len(),
    }
}

/// Whether a number is one of so many, from the first on.
pub(crate) fn is_among(first: u32, count: usize, number: u32) -> bool
    ensures { result ≡ is_among first count number }
{
    first <= number && ((number - first) as usize) < count
}
