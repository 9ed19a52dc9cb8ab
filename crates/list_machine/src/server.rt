//! That the list machine takes what a correct server commits and confirms.

ghost use Rattle.std.specs.Prelude.{◌≡◌, List, [], ◌∷◌, ◌++◌, ℕ, Some, flat_map};
ghost use Rattle.chunk_format.specs.declared.chunk.Chunk.{Chunk};
ghost use Rattle.chunk_format.specs.LogRows.{LogRow};
ghost use Rattle.chunk_format.specs.Logs.{bare};
ghost use Rattle.command_data.specs.declared.item.Tagged.{Tagged};
ghost use Rattle.list_machine.specs.Items.{items_by, AreReached, AtMostAsOften};
ghost use Rattle.list_machine.specs.Streams.{Stream};
ghost use Rattle.list_machine.specs.Commits.{CommitStep};
ghost use Rattle.list_machine.specs.Leaders.{Server, new_server, Did, elected, ServerRun, Offers, CommitsNext};
ghost use Rattle.list_machine.specs.Examples.{item, chunk_of};
ghost use Rattle.list_machine.specs.ServerExample.{two_offers, after_offers, after_election, after_stop, third_offer, after_third, with_first};
ghost use Rattle.list_machine.specs.Counting.{Counter, new_counter, Counts, CounterRun};

/// What a correct server commits is taken: each next part of a sequence of some leader is a commit behind what stands
/// before it, whatever was declared, offered, refused and elected. It does nothing.
pub fn a_server_commits()
    ensures { (did : List Did) (server : Server) (stream : Stream) (chunk : Chunk) → ServerRun new_server did server → CommitsNext server stream chunk → CommitStep stream chunk (record stream { chunks = stream.chunks ++ chunk ∷ []; seen = stream.chunks ++ chunk ∷ [] }) }
{}

/// What a correct server confirms is taken: a frame with a name, once the list holds the sequence that stood behind it; and
/// frames without one, where each waits for the end of the sequence behind it, whoever leads. It does nothing.
pub fn a_server_confirms()
    ensures named { (did : List Did) (old new : Server) (items : List Tagged) (rows rest : List LogRow) (name : List ℕ) → ServerRun new_server did old → (step : Offers old items rows new) → step.one.name ≡ Some name → AreReached (items_by name (new.sequence ++ rest)) items }
    ensures counted { (events : List Counts) (new : Counter) → CounterRun new_counter events new → AtMostAsOften new.spent (flat_map bare new.committed) }
{}

/// The premises of both are met by a server at work: of two declarations of a name the second repeats an item, which is
/// left out; an election drops the row behind it; all stops; and the item is offered again and may be committed. It does
/// nothing.
pub fn a_server_at_work()
    ensures offers { ServerRun new_server two_offers after_offers }
    ensures elects { ServerRun after_offers (elected ∷ []) after_election }
    ensures stops { ServerRun after_election (elected ∷ []) after_stop }
    ensures goes_on { ServerRun after_stop third_offer after_third }
    ensures commits { CommitsNext after_third with_first (chunk_of 2 1 (item 2 98)) }
{}
