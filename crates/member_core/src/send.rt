//! Lists of messages to send.

ghost use Rattle.std.specs.Prelude.{◌≡◌, ◌≤◌, ◌==◌, ◌∷◌, ◌++◌, [], map, not, OnOk, IfOk};
ghost use Rattle.std.specs.List.{filter};
ghost use Rattle.epoch_coordinator.specs.declared.message.Message.TheVariants as messages;
ghost use Rattle.epoch_coordinator.specs.MemberSteps.{mail, other_members};

use chunk_format::Stored;
use epoch_coordinator::{Message, Run, Sent, Tail};
use frame_wire::Row;
use std::alloc::{AllocError, Global};

fn push_sent(sent: &mut Row<Sent>, to: u8, message: Message) -> Result<(), AllocError>
    ensures { OnOk result (sent.new ≡ sent.old ++ mail to message ∷ []) }
{
    match sent.push(Sent { to, message }) {
        Ok(()) => Ok(()),
        Err(_) => Err(AllocError),
    }
}

/// One message.
pub(crate) fn one(alloc: Global, to: u8, message: Message) -> Result<Row<Sent>, AllocError>
    ensures { IfOk result (λ sent. sent ≡ mail to message ∷ []) }
{
    let mut sent = Row::new(alloc);
    push_sent(&mut sent, to, message)?;
    Ok(sent)
}

/// Adds an Append of the chunk to a member, unless it is the sender.
fn push_append(
    sent: &mut Row<Sent>,
    to: u8,
    me: u8,
    epoch: u64,
    previous: Tail,
    chunk: &Stored,
) -> Result<(), AllocError>
    ensures { OnOk result (sent.new ≡ sent.old ++ map (λ k. mail k (messages.Append epoch previous chunk.now)) (filter (λ k. not (k == me)) (to ∷ []))) }
{
    if to == me {
        return Ok(());
    }
    let chunk = chunk.share()?;
    let message = Message::Append {
        epoch,
        previous,
        chunk,
    };
    push_sent(sent, to, message)
}

/// An Append of the chunk to each member but the sender, by number.
pub(crate) fn appends(
    alloc: Global,
    members: u8,
    me: u8,
    epoch: u64,
    previous: Tail,
    chunk: &Stored,
) -> Result<Row<Sent>, AllocError>
    requires { members ≤ 7 }
    ensures { IfOk result (λ sent. sent ≡ map (λ k. mail k (messages.Append epoch previous chunk.now)) (other_members members me)) }
{
    let mut sent = Row::new(alloc);
    for place in 0..members {
        push_append(&mut sent, place + 1, me, epoch, previous, chunk)?;
    }
    Ok(sent)
}

/// The same runs.
pub(crate) fn copy_runs(alloc: Global, runs: &[Run]) -> Result<Row<Run>, AllocError>
    ensures { IfOk result (λ copy. copy ≡ runs.now) }
{
    let mut copy = Row::new(alloc);
    for run in runs {
        if let Err(_) = copy.push(*run) {
            return Err(AllocError);
        }
    }
    Ok(copy)
}
