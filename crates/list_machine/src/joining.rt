//! That what the view of a stream does is commits and confirms of the list machine.

ghost use Rattle.std.specs.Prelude.{◌≡◌, List, ◌++◌, map};
ghost use Rattle.chunk_format.specs.declared.chunk.Chunk.{Chunk};
ghost use Rattle.chunk_format.specs.Logs.{GoesOn};
ghost use Rattle.command_data.specs.declared.item.Tagged.{Tagged};
ghost use Rattle.stream_terms.specs.declared.terms.Waits.{Waits};
ghost use Rattle.stream_terms.specs.Views.{StreamView};
ghost use Rattle.stream_terms.specs.Steps.{MoveStep};
ghost use Rattle.list_machine.specs.Streams.{live, Stream};
ghost use Rattle.list_machine.specs.Publishing.{MayConfirm};
ghost use Rattle.list_machine.specs.Moves.{commits, StreamRun};
ghost use Rattle.list_machine.specs.Joining.{AllSent, committed_all, pass_name, HandsOut};

/// Where all that stands in a view's list was sent, in order and with nothing passed over, the chunks with which its list
/// goes on are commits of the stream; and so are the chunks past the stream's list, also where the view began anew with
/// nothing and the stream's list is longer than what the view had. It does nothing.
pub fn moves_are_commits()
    ensures goes_on { (stream : Stream) (old new : StreamView) (more : List Chunk) → stream.life ≡ live → stream.chunks ≡ old.chunks → MoveStep old more new → AllSent stream new.chunks → StreamRun stream (map commits more) (committed_all stream more) }
    ensures past { (stream : Stream) (view : StreamView) → stream.life ≡ live → GoesOn stream.chunks view.chunks → AllSent stream view.chunks → (more : List Chunk) × (view.chunks ≡ stream.chunks ++ more) × StreamRun stream (map commits more) (committed_all stream more) }
{}

/// What a view hands out may be confirmed: with a name each id is at most that of some tag, without one the list counts the
/// entries. It does nothing.
pub fn handed_out_is_confirmed()
    ensures { (stream : Stream) (view : StreamView) (spent : List Waits) (w : Waits) (items : List Tagged) → HandsOut stream view spent w items → MayConfirm stream (pass_name w.given.name) items }
{}
