//! What is next in a settle.

ghost use Rattle.std.specs.Prelude.{◌≡◌, ◌≤◌, length};
ghost use Rattle.settling_laws.specs.Settling.{is_due, job_from, next_job, next_letter};
ghost use Rattle.cluster_core.specs.Parts.{letter_of};
ghost use Rattle.stream_settle.specs.Settles.{is_busy_at};

use cluster_core::Numbered;
use stream_cluster::Cluster;

/// Whether a member is up and has a job.
#[tactic(auto, using(crate::proofs::Nexts::not_busy, crate::proofs::Nexts::busy))]
fn is_busy(cluster: &Cluster, member: u8) -> bool
    ensures { result ≡ is_busy_at member cluster.now.state.cluster }
{
    match cluster.job(member) {
        None => false,
        Some(_) => true,
    }
}

/// The first of the members, counted from 1, that is up and has a job.
fn first_busy(cluster: &Cluster) -> Option<u8>
    requires { length cluster.now.state.cluster.seats ≤ 7 }
    ensures { result ≡ job_from 1 cluster.now.state.cluster.seats }
{
    let mut place = 0;
    'members: while place < 7 {
        if is_busy(cluster, place + 1) {
            return Some(place + 1);
        }
        place += 1;
    }
    None
}

/// The least number with a pending job, of those that are up. The coordinator's is 0.
pub(crate) fn next_job(cluster: &Cluster) -> Option<u8>
    requires { length cluster.now.state.cluster.seats ≤ 7 }
    ensures { result ≡ next_job cluster.now.state.cluster }
{
    if cluster.epoch_job().is_some() {
        return Some(0);
    }
    first_busy(cluster)
}

/// Whether a message wasn't delivered and its receiver is up.
fn is_due(cluster: &Cluster, letter: &Numbered) -> bool
    ensures { result ≡ is_due cluster.now.state.cluster (letter_of letter.now) }
{
    if letter.delivered {
        return false;
    }
    cluster.is_up(letter.sent.to)
}

/// The number of the first message that wasn't delivered and whose receiver is up.
pub(crate) fn next_letter(cluster: &Cluster) -> Option<u64>
    ensures { result ≡ next_letter cluster.now.state.cluster }
{
    let mut left = cluster.messages();
    'letters: while let Some((letter, more)) = left.split_first() {
        if is_due(cluster, letter) {
            return Some(letter.number);
        }
        left = more;
    }
    None
}
