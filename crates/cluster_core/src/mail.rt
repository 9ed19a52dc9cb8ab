//! Messages on their way, each with its number.

ghost use Rattle.std.specs.Prelude.{◌≡◌, ◌+◌, ◌<◌, ◌≤◌, ◌++◌, ◌∷◌, [], length, map, position, remove, IfSome, slice_set, slice_index_or};
ghost use Rattle.std.specs.Vec.{vec_len, vec_capacity};
ghost use Rattle.epoch_coordinator.specs.declared.message.Message.TheVariants as messages;
ghost use Rattle.epoch_coordinator.specs.Coordinators.{to_each};
ghost use Rattle.replication_laws.specs.Majorities.{flags_of};
ghost use Rattle.replication_laws.specs.Cluster.{numbered};
ghost use Rattle.cluster_core.specs.Parts.{lettered, has_number, flagged, flagged_from, delivered_at, opening_mail, did_mail};

use epoch_coordinator::{Message, Sent, StoppedDid};
use frame_wire::Row;

/// A message on its way. It stays until it is lost or forgotten, also after it was delivered.
#[derive(Debug, Drop)]
pub struct Numbered {
    /// Messages are numbered from 1, and from 1 again after all were forgotten.
    pub number: u64,
    /// Whether it was delivered.
    pub delivered: bool,
    /// The message and its receiver.
    pub sent: Sent,
}

/// The place of the message of a number.
pub fn place_of(mail: &[Numbered], number: u64) -> Option<usize>
    ensures is { result ≡ position (has_number number) mail.now }
    ensures inside { IfSome result (λ place. place < length mail.now) }
{
    mail.iter().position(|letter| letter.number == number)
}

/// Marks a message as delivered.
#[tactic(auto, using(crate::proofs::Letters::set_delivered))]
pub fn mark(mail: &mut Vec<Numbered>, place: usize)
    requires { place < length mail.old.items }
    ensures items { mail.new.items ≡ delivered_at place mail.old.items }
    ensures len { vec_len mail.new ≡ vec_len mail.old }
    ensures capacity { vec_capacity mail.new ≡ vec_capacity mail.old }
{
    mail[place].delivered = true;
}

/// Numbers one message on behind the last number. There is room for it. It is lost where its number would pass the
/// greatest one.
pub fn post_one(mail: &mut Vec<Numbered>, last: u64, sent: Sent) -> u64
    requires { vec_len mail.old < vec_capacity mail.old }
    ensures mail { lettered mail.new.items ≡ lettered mail.old.items ++ numbered last (sent ∷ []) }
    ensures last { result ≡ last + length (numbered last (sent ∷ [])) }
    ensures len { vec_len mail.new ≤ vec_len mail.old + 1 }
    ensures capacity { vec_capacity mail.new ≡ vec_capacity mail.old }
{
    if last == u64::MAX {
        return last;
    }
    mail.push_reserved(Numbered {
        number: last + 1,
        delivered: false,
        sent,
    });
    last + 1
}

/// Numbers messages on behind the last number. There is room for them. What would pass the greatest number is lost.
pub fn post(mail: &mut Vec<Numbered>, last: u64, sent: Row<Sent>) -> u64
    requires { vec_len mail.old + length sent ≤ vec_capacity mail.old }
    ensures mail { lettered mail.new.items ≡ lettered mail.old.items ++ numbered last sent }
    ensures last { result ≡ last + length (numbered last sent) }
{
    let mut last = last;
    let mut left = sent.into_vec();
    'sent: while !left.is_empty() {
        let one = left.remove(0);
        last = post_one(mail, last, one);
    }
    last
}

/// A Follow to a member whose bit is the lowest, if it is set, but for the leader. There is room for it.
fn post_follow(
    mail: &mut Vec<Numbered>,
    last: u64,
    epoch: u64,
    leader: u8,
    number: u8,
    bits: u8,
) -> u64
    requires { vec_len mail.old < vec_capacity mail.old }
    ensures mail { lettered mail.new.items ≡ lettered mail.old.items ++ numbered last (to_each (messages.Follow epoch leader) (flagged number leader bits)) }
    ensures last { result ≡ last + length (numbered last (to_each (messages.Follow epoch leader) (flagged number leader bits))) }
    ensures len { vec_len mail.new ≤ vec_len mail.old + 1 }
    ensures capacity { vec_capacity mail.new ≡ vec_capacity mail.old }
{
    if bits % 2 == 1 && number != leader {
        let message = Message::Follow { epoch, leader };
        let sent = Sent {
            to: number,
            message,
        };
        return post_one(mail, last, sent);
    }
    last
}

/// A Follow to each member whose bit is set, but for the leader, by number. There is room for them.
pub fn post_follows(
    mail: &mut Vec<Numbered>,
    last: u64,
    epoch: u64,
    leader: u8,
    members: u8,
    electors: u8,
) -> u64
    requires few { members ≤ 7 }
    requires room { vec_len mail.old + members ≤ vec_capacity mail.old }
    ensures mail { lettered mail.new.items ≡ lettered mail.old.items ++ numbered last (to_each (messages.Follow epoch leader) (flagged_from 1 leader (flags_of members electors))) }
    ensures last { result ≡ last + length (numbered last (to_each (messages.Follow epoch leader) (flagged_from 1 leader (flags_of members electors)))) }
{
    let mut last = last;
    let mut bits = electors;
    'members: for place in 0..members {
        last = post_follow(mail, last, epoch, leader, place + 1, bits);
        bits /= 2;
    }
    last
}

/// An Open to the leader, and a Follow to each other member whose bit is set. There is room for them.
fn post_opening(
    mail: &mut Vec<Numbered>,
    last: u64,
    epoch: u64,
    leader: u8,
    members: u8,
    electors: u8,
) -> u64
    requires few { members ≤ 7 }
    requires room { vec_len mail.old + 8 ≤ vec_capacity mail.old }
    ensures mail { lettered mail.new.items ≡ lettered mail.old.items ++ numbered last (opening_mail members epoch leader electors) }
    ensures last { result ≡ last + length (numbered last (opening_mail members epoch leader electors)) }
{
    let message = Message::Open { epoch };
    let sent = Sent {
        to: leader,
        message,
    };
    let next = post_one(mail, last, sent);
    post_follows(mail, next, epoch, leader, members, electors)
}

/// Numbers on what the coordinator sends when a member told that it has stopped. There is room for it.
pub fn post_did(mail: &mut Vec<Numbered>, last: u64, members: u8, did: StoppedDid) -> u64
    requires few { members ≤ 7 }
    requires room { vec_len mail.old + 8 ≤ vec_capacity mail.old }
    ensures mail { lettered mail.new.items ≡ lettered mail.old.items ++ numbered last (did_mail members did) }
    ensures last { result ≡ last + length (numbered last (did_mail members did)) }
{
    match did {
        StoppedDid::Later => last,
        StoppedDid::Nothing => last,
        StoppedDid::Send1(sent) => post_one(mail, last, sent),
        StoppedDid::Opened {
            epoch,
            leader,
            electors,
        } => { post_opening(mail, last, epoch, leader, members, electors) }
    }
}
