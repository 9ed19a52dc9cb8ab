//! What holds over offers and stored offsets, as it does over events.

ghost use Rattle.std.specs.Prelude.{ℕ, List, Option};
ghost use Rattle.chunk_format.specs.declared.chunk.Chunk.{Chunk};
ghost use Rattle.chunk_format.specs.Logs.{RisesIn};
ghost use Rattle.command_data.specs.declared.item.Tagged.{Tagged};
ghost use Rattle.replication_laws.specs.Cluster.{Reign};
ghost use Rattle.replication_laws.specs.Soundness.{Kept, IsSound, StaysKept};
ghost use Rattle.replication_laws.specs.Properties.{SoundWith};
ghost use Rattle.stream_terms.specs.declared.terms.Pass.{Pass};
ghost use Rattle.stream_terms.specs.declared.terms.Taken.{Taken};
ghost use Rattle.cluster_core.specs.States.{reigned};
ghost use Rattle.stream_cluster.specs.Served.{ServedState, IsServed};
ghost use Rattle.stream_cluster.specs.Takes.{OfferMade, OffsetMade};

/// Over an offer and a stored offset that were taken kept lists stay kept: one of each and the committed list begins the
/// other. It does nothing.
pub fn kept_lists_stay_kept()
    ensures offer { (opened now : ℕ) (reigns : List Reign) (old new : ServedState) (pass : Pass) (items : List Tagged) (taken : Taken) (list : List Chunk) → IsServed old → OfferMade old pass items now taken new → IsSound opened (reigned reigns old.state.cluster) → Kept (reigned reigns old.state.cluster) list → StaysKept list (reigned reigns new.state.cluster) }
    ensures offset { (opened now : ℕ) (reigns : List Reign) (old new : ServedState) (name : Option (List ℕ)) (offset : ℕ) (taken : Taken) (list : List Chunk) → IsServed old → OffsetMade old name offset now taken new → IsSound opened (reigned reigns old.state.cluster) → Kept (reigned reigns old.state.cluster) list → StaysKept list (reigned reigns new.state.cluster) }
{}

/// Where ids rise in all logs, they rise on over an offer and a stored offset that were taken. It does nothing.
pub fn ids_rise_on()
    ensures offer { (opened now : ℕ) (reigns : List Reign) (old new : ServedState) (pass : Pass) (items : List Tagged) (taken : Taken) → IsServed old → OfferMade old pass items now taken new → SoundWith RisesIn opened (reigned reigns old.state.cluster) → SoundWith RisesIn opened (reigned reigns new.state.cluster) }
    ensures offset { (opened now : ℕ) (reigns : List Reign) (old new : ServedState) (name : Option (List ℕ)) (offset : ℕ) (taken : Taken) → IsServed old → OffsetMade old name offset now taken new → SoundWith RisesIn opened (reigned reigns old.state.cluster) → SoundWith RisesIn opened (reigned reigns new.state.cluster) }
{}
