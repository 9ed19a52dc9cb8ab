//! The live streams.

ghost use Rattle.std.specs.Prelude.{◌≡◌, ◌++◌, ◌∷◌, [], ◌<◌, not, map, filter, take, length, unwrap_or, is_some, None, OnOk, OnErr, IfOk, MatchOption, ◌==◌};
ghost use Rattle.std.specs.Map.{lookup};
ghost use Rattle.stream_catalog.specs.Names.{numbered, live};
ghost use Rattle.stream_catalog.specs.Rules.{is_among};
ghost use Rattle.stream_catalog.specs.Adding.{AreNumbered, HasNewNumber};

use crate::holder::Holder;
use crate::names::{NameList, is_among};
use indexmap::IndexMap;
use std::alloc::{AllocError, Global};
use std::marker::Model;

/// The numbers of the live streams, each with its place in its super stream.
#[derive(Drop)]
pub(crate) struct Live {
    numbers: Vec<u32>,
    places: IndexMap<u32, u32>,
}

impl Model for Live {
    ghost use Rattle.std.specs.Prelude.{List, ℕ, map, ◌≡◌};

    ghost Value = { List (ℕ × ℕ) };

    ghost view = { λ l. l.places.entries };

    ghost invariant = { λ l. l.numbers.items ≡ map (λ p. p.0) l.places.entries };
}

/// The number of a stream that a name stands for, with its place in its super stream.
fn numbered(holder: &Holder) -> Option<(u32, u32)>
    ensures { MatchOption result (numbered holder.now ≡ []) (λ p. numbered holder.now ≡ (p.0, p.1) ∷ []) }
{
    match holder {
        Holder::Stream { number } => Some((*number, 0)),
        Holder::Part { number, place } => Some((*number, *place)),
        Holder::Super {
            first: _,
            parts: _,
            keys: _,
        } => None,
    }
}

impl Live {
    /// The live streams of a list of names. It needs memory for them.
    pub(crate) fn of(alloc: Global, names: &NameList) -> Result<Live, AllocError>
        requires { AreNumbered names.now }
        ensures { IfOk result (λ l. l ≡ live names.now) }
    {
        let mut live = Live {
            numbers: Vec::new(alloc),
            places: IndexMap::new(alloc),
        };
        for index in 0..names.len() {
            live.push_stream(names.at(index))?;
        }
        Ok(live)
    }

    /// Adds the stream that a name stands for, if it is one.
    fn push_stream(&mut self, holder: &Holder) -> Result<(), AllocError>
        requires { HasNewNumber holder.now self.old }
        ensures ok { OnOk result (self.new ≡ self.old ++ numbered holder.now) }
    {
        match numbered(holder) {
            None => Ok(()),
            Some((number, place)) => self.push(number, place),
        }
    }

    fn push(&mut self, number: u32, place: u32) -> Result<(), AllocError>
        requires { lookup (λ n. number == n) self.old ≡ None }
        ensures ok { OnOk result (self.new ≡ self.old ++ (number, place) ∷ []) }
        ensures err { OnErr result (self.new ≡ self.old) }
    {
        self.numbers.push(number)?;
        if let Err(_) = self.places.insert(number, place) {
            self.numbers.pop();
            return Err(AllocError);
        }
        Ok(())
    }

    /// The numbers.
    pub(crate) fn numbers(&self) -> &[u32]
        ensures { result.now ≡ map (λ p. p.0) self.now }
    {
        self.numbers.as_slice()
    }

    /// The place of a stream in its super stream, or 0.
    pub(crate) fn place(&self, number: u32) -> u32
        ensures { result ≡ unwrap_or (lookup (λ n. number == n) self.now) 0 }
    {
        self.places.get(&number).copied().unwrap_or(0)
    }

    /// Whether a live stream has a number.
    pub(crate) fn has(&self, number: u32) -> bool
        ensures { result ≡ is_some (lookup (λ n. number == n) self.now) }
    {
        self.places.get(&number).is_some()
    }

    /// Keeps the first streams alone, so many.
    pub(crate) fn cut(&mut self, len: usize)
        ensures { self.new ≡ take len self.old }
    {
        self.numbers.truncate(len);
        self.places.truncate(len);
    }

    /// Takes so many streams away, from a number on.
    pub(crate) fn remove(&mut self, first: u32, count: usize)
        ensures { self.new ≡ filter (λ p. not (is_among first count p.0)) self.old }
    {
        self.numbers
            .retain(|number| !is_among(first, count, *number));
        self.places.retain(
            |number: &u32, place: &mut u32| -> bool
                ensures { (result ≡ not (is_among first count number.now)) × (place.new ≡ place.old) }
            { !is_among(first, count, *number) },
        );
    }
}
