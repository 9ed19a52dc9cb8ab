//! The confirms of offers.

ghost use Rattle.std.specs.Prelude.{◌≡◌, ◌≤◌, ◌++◌, ◌∷◌, [], IfOk, OnOk, map};
ghost use Rattle.std.specs.List.{filter};
ghost use Rattle.std.specs.Vec.{vec_len, vec_capacity};
ghost use Rattle.stream_terms.specs.Steps.{is_of, is_other, confirm_of};

use frame_wire::Row;
use std::alloc::{AllocError, Global};
use stream_terms::{Confirm, Given, Waits};

fn copy_numbers(alloc: Global, numbers: &[u64]) -> Result<Row<u64>, AllocError>
    ensures { IfOk result (λ row. row ≡ numbers.now) }
{
    let mut out = Row::new(alloc);
    'numbers: for number in numbers {
        match out.push(*number) {
            Ok(()) => {}
            Err(_) => return Err(AllocError),
        }
    }
    Ok(out)
}

/// The confirm of an offer.
fn confirm_of(alloc: Global, waits: &Waits) -> Result<Confirm, AllocError>
    ensures { IfOk result (λ confirm. confirm ≡ confirm_of waits.now) }
{
    let ids = copy_numbers(alloc, waits.ids.as_slice())?;
    Ok(Confirm {
        stream: waits.given.pass.stream,
        serial: waits.given.pass.serial,
        end: waits.end,
        ids,
    })
}

/// Adds the confirm of an offer behind others, where it is of a session.
fn add_confirm(
    alloc: Global,
    out: &mut Row<Confirm>,
    waits: &Waits,
    session: u32,
) -> Result<(), AllocError>
    ensures { OnOk result (out.new ≡ out.old ++ map confirm_of (filter (is_of session) (waits.now ∷ []))) }
{
    if waits.given.pass.session != session {
        return Ok(());
    }
    let confirm = confirm_of(alloc, waits)?;
    match out.push(confirm) {
        Ok(()) => Ok(()),
        Err(_) => Err(AllocError),
    }
}

/// The confirms of a session, in the order of their offers.
pub(crate) fn confirms_of(
    alloc: Global,
    ready: &[Waits],
    session: u32,
) -> Result<Row<Confirm>, AllocError>
    ensures { IfOk result (λ out. out ≡ map confirm_of (filter (is_of session) ready.now)) }
{
    let mut out = Row::new(alloc);
    let mut rest = ready;
    'ready: while let Some((waits, more)) = rest.split_first() {
        add_confirm(alloc, &mut out, waits, session)?;
        rest = more;
    }
    Ok(out)
}

/// Drops those of a session.
pub(crate) fn drop_session(ready: &mut Vec<Waits>, session: u32)
    ensures items { ready.new.items ≡ filter (is_other session) ready.old.items }
    ensures fewer { vec_len ready.new ≤ vec_len ready.old }
    ensures capacity { vec_capacity ready.new ≡ vec_capacity ready.old }
{
    ready.retain(|waits| waits.given.pass.session != session);
}
