//! Clients, and dialogues with them.

ghost use Rattle.std.specs.Prelude.{◌+◌, ◌≤◌, length, IfOk};

use crate::answer::OTHER;
use crate::step::{Step, take};
use client_terms::Identity;
use frame_wire::{Octets, Text};
use std::alloc::{AllocError, Global};
use stream_client::ClientCore;

fn text(alloc: Global, bytes: &[u8]) -> Result<Text, AllocError> {
    match Text::copy(alloc, bytes) {
        Ok(text) => Ok(text),
        Err(_) => Err(AllocError),
    }
}

/// The user `u` with the password `p`.
fn identity(alloc: Global) -> Result<Identity, AllocError>
    ensures { IfOk result (λ who. length who.user + length who.password ≤ 2) }
{
    let user = Octets::copy(alloc, b"u")?;
    let password = Octets::copy(alloc, b"p")?;
    Ok(Identity {
        user,
        password,
        host: Text::null(),
        port: 5552,
    })
}

/// A client of the stream `s` under the name `n`, of which all ids up to one are confirmed.
pub fn new_client(alloc: Global, confirmed: u64) -> Result<ClientCore, AllocError> {
    let identity = identity(alloc)?;
    let stream = text(alloc, b"s")?;
    let name = text(alloc, b"n")?;
    ClientCore::start(alloc, identity, &stream, &name, confirmed)
}

/// The place of the first step whose answer isn't the one beside it, counted from 1, and that answer; or 0 and 0.
fn wrong_at(alloc: Global, core: &mut ClientCore, steps: &[(Step, i64)]) -> (usize, i64) {
    for at in 0..steps.len() {
        let (step, want) = steps[at];
        let told = take(alloc, core, step);
        if told != want {
            return (at + 1, told);
        }
    }
    (0, 0)
}

/// The place of the first of the parts in which a step is answered otherwise, counted from 1, the place of that step in it,
/// and its answer; or 0, 0 and 0.
pub fn wrong_in(
    alloc: Global,
    core: &mut ClientCore,
    parts: &[&[(Step, i64)]],
) -> (usize, usize, i64) {
    for at in 0..parts.len() {
        let (place, told) = wrong_at(alloc, core, parts[at]);
        if place != 0 {
            return (at + 1, place, told);
        }
    }
    (0, 0, 0)
}

/// What a step tells behind parts of which all is answered as it is to be.
pub fn told_behind(
    alloc: Global,
    core: &mut ClientCore,
    parts: &[&[(Step, i64)]],
    step: Step,
) -> i64 {
    let (part, _, _) = wrong_in(alloc, core, parts);
    if part != 0 {
        return OTHER;
    }
    take(alloc, core, step)
}
