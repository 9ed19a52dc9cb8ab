//! Items that wait in order.

ghost use Rattle.std.specs.Prelude.{◌≡◌, ◌↔◌, ◌+◌, ◌≤◌, ◌++◌, ◌∷◌, List, [], length, drop, take, IsTrue, OnOk, OnErr, MatchOption};
ghost use Rattle.std.specs.Option.{option_to_list};

use std::alloc::Global;
use std::collections::VecDeque;
use std::marker::Model;

/// Items in order, which are added behind the others and taken from the front. No call walks them.
#[derive(Debug, Drop)]
pub struct Queue<T> {
    items: VecDeque<T>,
}

impl<T> Model for Queue<T> {
    ghost Value = { List T };

    ghost view = { λ q. q.items.items };
}

impl<T> Queue<T> {
    /// No items. It takes no memory.
    pub fn new(alloc: Global) -> Queue<T>
        ensures { result ≡ [] }
    {
        Queue {
            items: VecDeque::new(alloc),
        }
    }

    /// Adds an item behind the others, or hands it back where memory ran out.
    pub fn push(&mut self, item: T) -> Result<(), T>
        ensures ok { OnOk result (self.new ≡ self.old ++ item ∷ []) }
        ensures err { OnErr result (self.new ≡ self.old) }
    {
        match self.items.push_back(item) {
            Ok(()) => Ok(()),
            Err(failed) => Err(failed.value),
        }
    }

    /// Takes the item in front.
    pub fn pop(&mut self) -> Option<T>
        ensures taken { self.old ≡ option_to_list result ++ self.new }
        ensures left { self.new ≡ drop 1 self.old }
    {
        self.items.pop_front()
    }

    /// The item at a place, from 0 on.
    pub fn get(&self, place: usize) -> Option<&T>
        ensures { MatchOption result (drop place self.now ≡ []) (λ item. drop place self.now ≡ item.now ∷ drop (place + 1) self.now) }
    {
        self.items.get(place)
    }

    /// Whether there is no item.
    pub fn is_empty(&self) -> bool
        ensures { IsTrue result ↔ (self.now ≡ []) }
    {
        self.items.is_empty()
    }

    /// How many items there are.
    pub fn len(&self) -> usize
        ensures { result ≡ length self.now }
    {
        self.items.len()
    }
}

impl<T: Drop> Queue<T> {
    /// Drops the first items, so many of them.
    pub fn skip(&mut self, count: usize)
        requires { count ≤ length self.old }
        ensures { self.new ≡ drop count self.old }
    {
        let _skipped = self.items.drain(..count);
    }

    /// Keeps the first items alone, so many of them, or all where there are fewer.
    pub fn cut(&mut self, count: usize)
        ensures { self.new ≡ take count self.old }
    {
        self.items.truncate(count);
    }
}
