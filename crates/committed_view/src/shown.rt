//! What readers take: the list, which grows by batches, and the rule that its two copies keep.

use crate::share::{append_moved, append_shares};
use chunk_format::Stored;
use crossbeam_utils::rule::{Outcome, Protocol};
use left_right::Absorb;
use std::alloc::AllocError;
use std::collections::LinkedList;

/// A list, and whether the view was opened.
#[derive(Drop)]
pub struct Shown {
    pub chunks: Vec<Stored>,
    pub begun: bool,
}

/// Chunks that come behind the first `keep` of a list. So a batch that could not be taken in is undone by the next one.
#[derive(Drop)]
pub struct Batch {
    pub keep: usize,
    pub chunks: Vec<Stored>,
}

impl Absorb<Batch> for Shown {
    ghost use Rattle.std.specs.Prelude.{true};
    ghost use Rattle.committed_view.specs.Batches.{with_batch};

    // A clause reads an array as a list, of any length.
    type State = ([Stored; 0], bool);

    ghost state = { λ s. (s.chunks.items, s.begun) };

    ghost applied = { λ s batch. (with_batch s.0 batch.keep batch.chunks.items, true) };

    fn absorb_first(&mut self, operation: &Batch, _other: &Shown) -> Result<(), AllocError> {
        append_shares(
            &mut self.chunks,
            operation.keep,
            operation.chunks.as_slice(),
        )?;
        self.begun = true;
        Ok(())
    }

    fn absorb_second(&mut self, operation: Batch, _other: &Shown) -> Result<(), Batch> {
        let Batch { keep, chunks } = operation;
        match append_moved(&mut self.chunks, keep, chunks) {
            Ok(()) => {
                self.begun = true;
                Ok(())
            }
            Err(chunks) => Err(Batch { keep, chunks }),
        }
    }
}

/// What a side knows: whether it writes, and what was published. No value of it is made.
pub struct View {
    pub writes: bool,
    pub published: LinkedList<LinkedList<Stored>>,
}

/// The rule: one run of publishes.
pub struct Publishing;

impl Protocol<Shown, View> for Publishing {
    ghost use Rattle.committed_view.specs.Rule.{Keeps, newcomer};

    ghost holds = { Keeps };

    ghost first = { newcomer };
}

/// A reader looks.
pub struct Look;

impl Outcome<Shown, View> for Look {
    ghost use Rattle.committed_view.specs.Rule.{Looks};

    ghost then = { Looks };
}

/// The writer opens the view.
pub struct Open;

impl Outcome<Shown, View> for Open {
    ghost use Rattle.committed_view.specs.Rule.{Opens};

    ghost then = { Opens };
}

/// The writer publishes.
pub struct Publish;

impl Outcome<Shown, View> for Publish {
    ghost use Rattle.committed_view.specs.Rule.{Publishes};

    ghost then = { Publishes };
}
