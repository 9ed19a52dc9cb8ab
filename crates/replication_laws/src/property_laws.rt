//! Properties of logs, stated once for all of them.

ghost use Rattle.std.specs.Prelude.{◌≡◌, ℕ, ◌<◌, List, length};
ghost use Rattle.chunk_format.specs.declared.chunk.Chunk.{Chunk};
ghost use Rattle.chunk_format.specs.Logs.{RisesIn, Truthful};
ghost use Rattle.replication_laws.specs.Cluster.{ClusterState};
ghost use Rattle.replication_laws.specs.Events.{ClusterStep, OfferStep, AnyStep};
ghost use Rattle.replication_laws.specs.Openings.{Start, start_at, opened_cluster, CanStart, IsRecovered};
ghost use Rattle.replication_laws.specs.Soundness.{IsSound};
ghost use Rattle.replication_laws.specs.Properties.{IsLogProperty, IsKeptByOffers, KeepsAt, SoundWith, AllHave};

/// A property of lists of chunks.
pub trait LogProperty {
    ghost has: { List Chunk → Type 0 };
}

/// A property that beginnings and openings keep stays over every event, and over each offer that keeps it. Then each log
/// that a disk may have has it, each member's sequence, the committed list, and a log with an Append that goes on from
/// it. It does nothing.
pub fn properties_of_logs_stay<P: LogProperty>()
    ensures event { (opened now : ℕ) (w w' : ClusterState) → IsLogProperty P.has → SoundWith P.has opened w → ClusterStep now w w' → SoundWith P.has opened w' }
    ensures offer { (opened now : ℕ) (w w' : ClusterState) → SoundWith P.has opened w → (step : OfferStep now w w') → KeepsAt P.has step → SoundWith P.has opened w' }
    ensures all { (opened : ℕ) (w : ClusterState) → IsLogProperty P.has → SoundWith P.has opened w → AllHave P.has w }
    ensures sound { (opened : ℕ) (w : ClusterState) → SoundWith P.has opened w → IsSound opened w }
{}

/// A property that every offer keeps stays over all that happens. It does nothing.
pub fn properties_that_offers_keep<P: LogProperty>()
    ensures { (opened : ℕ) (w w' : ClusterState) → IsLogProperty P.has → IsKeptByOffers P.has → SoundWith P.has opened w → AnyStep w w' → SoundWith P.has opened w' }
{}

/// A stream that is opened has what each of its logs has, and what it had when it is opened again over what it left. It
/// does nothing.
pub fn openings_have_the_property<P: LogProperty>()
    ensures first { (epoch : ℕ) (starts : List Start) → IsLogProperty P.has → CanStart epoch starts → ((i : ℕ) → i < length starts → P.has (start_at starts i).log) → SoundWith P.has epoch (opened_cluster epoch starts) }
    ensures again { (opened epoch : ℕ) (w : ClusterState) (starts : List Start) → IsLogProperty P.has → SoundWith P.has opened w → IsRecovered w starts epoch → SoundWith P.has epoch (opened_cluster epoch starts) }
{}

/// The ids of each name rise.
pub struct IdsRise;

impl LogProperty for IdsRise {
    ghost use Rattle.chunk_format.specs.Logs.{RisesIn};

    ghost has = { RisesIn };
}

/// Ids rise in every log, sequence and the committed list, over all that happens. It does nothing.
pub fn ids_rise()
    ensures property { IsLogProperty RisesIn }
    ensures offers { IsKeptByOffers RisesIn }
    ensures step { (opened : ℕ) (w w' : ClusterState) → SoundWith RisesIn opened w → AnyStep w w' → SoundWith RisesIn opened w' }
    ensures all { (opened : ℕ) (w : ClusterState) → SoundWith RisesIn opened w → AllHave RisesIn w }
{}

/// Each snapshot has the entry of the chunks before it.
pub struct SnapshotsAreTruthful;

impl LogProperty for SnapshotsAreTruthful {
    ghost use Rattle.chunk_format.specs.Logs.{Truthful};

    ghost has = { Truthful };
}

/// Snapshots are truthful in every log, sequence and the committed list, over all that happens. It does nothing.
pub fn snapshots_are_truthful()
    ensures property { IsLogProperty Truthful }
    ensures offers { IsKeptByOffers Truthful }
    ensures step { (opened : ℕ) (w w' : ClusterState) → SoundWith Truthful opened w → AnyStep w w' → SoundWith Truthful opened w' }
    ensures all { (opened : ℕ) (w : ClusterState) → SoundWith Truthful opened w → AllHave Truthful w }
{}
