//! The laws of the client.

ghost use Rattle.std.specs.Prelude.{◌≡◌, ℕ, List, [], ◌∷◌, Option};
ghost use Rattle.command_all.specs.declared.identity.Identity.{Identity};
ghost use Rattle.client_terms.specs.Hearing.{LearnStep};
ghost use Rattle.list_machine.specs.Discipline.{Disciplined};
ghost use Rattle.client_laws.specs.Worlds.{World, Event, first_world, WorldRun, Kept, bodies_of, enqueued_by_all};
ghost use Rattle.client_laws.specs.Examples.{resent, jumped, six, gapped, client_name};

/// Over every list of a client's inputs, losses of its connection, restarts, and what servers read of each connection and
/// did at the stream, the declarations of the client's name are disciplined by the list of all messages that were queued,
/// each under its id. All of these up to the confirmed one were confirmed, and the queue has the others. It does nothing.
pub fn a_client_is_disciplined()
    ensures each { (name : List ℕ) (identity : Identity) (stream : Option (List ℕ)) (n : ℕ) (events : List Event) (new : World) → WorldRun name (first_world identity stream name n) events new → Disciplined name new.all new.stream.declarations }
    ensures told { (name : List ℕ) (identity : Identity) (stream : Option (List ℕ)) (n : ℕ) (events : List Event) (new : World) → WorldRun name (first_world identity stream name n) events new → bodies_of new.all ≡ enqueued_by_all events }
    ensures kept { (name : List ℕ) (identity : Identity) (stream : Option (List ℕ)) (n : ℕ) (events : List Event) (new : World) → WorldRun name (first_world identity stream name n) events new → Kept name new.all new.stream new.client.confirmed new.client.queue }
{}

/// A client that kept over a new connection what was confirmed out of order: a confirm moves the confirmed id past the last
/// one that was sent, and if the next message then goes, the declaration isn't disciplined. It does nothing.
pub fn kept_ids_would_leave_gaps()
    ensures jumps { LearnStep resent (1 ∷ 2 ∷ []) jumped }
    ensures passes_last { jumped.last ≡ 2 }
    ensures gapped { Disciplined client_name six (gapped ∷ []) → ⊥ }
{}
