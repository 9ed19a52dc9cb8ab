//! A member, and whether it is up.

ghost use Rattle.std.specs.Prelude.{◌≡◌, true};
ghost use Rattle.chunk_format.specs.Logs.{end_of};
ghost use Rattle.stream_cluster.specs.Seats.{gone_down};

use member_core::Member;
use std::marker::Model;

/// A member, and whether it is up. Of one that is down the member is what its disk may have, and its job is the one that
/// was cut off.
#[derive(Drop)]
pub(crate) struct Place {
    pub(crate) up: bool,
    pub(crate) member: Member,
}

impl Model for Place {
    ghost use Rattle.replication_laws.specs.Cluster.{Seat};
    ghost use Rattle.cluster_core.specs.States.{seat_of};

    ghost Value = { Seat };

    ghost view = { λ p. seat_of p.up p.member };
}

impl Place {
    /// A member that is up goes down.
    pub(crate) fn go_down(&mut self)
        requires { self.old.up ≡ true }
        ensures { self.new ≡ gone_down self.old }
    {
        self.up = false;
    }

    /// Where the log of the member ends.
    pub(crate) fn end(&self) -> u64
        ensures { result ≡ end_of self.now.state.log }
    {
        self.member.tail().end
    }
}
