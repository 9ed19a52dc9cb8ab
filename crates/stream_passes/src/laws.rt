//! What the calls are to those that use the stream, and what holds of it when its list goes on.

ghost use Rattle.std.specs.Prelude.{◌≡◌, ℕ, List, [], ◌++◌, Option};
ghost use Rattle.std.specs.List.{filter, AllByRecursion};
ghost use Rattle.chunk_format.specs.declared.chunk.Chunk.{Chunk};
ghost use Rattle.chunk_format.specs.Logs.{end_of, IsLog};
ghost use Rattle.stream_terms.specs.declared.terms.Waits.{Waits};
ghost use Rattle.stream_terms.specs.Views.{StreamView, StreamHolds, Caused};
ghost use Rattle.stream_terms.specs.Steps.{put_wait, is_of, is_reached, still_waits, HandStep, MoveStep};
ghost use Rattle.stream_passes.specs.Parts.{PassesState, viewed, parts_put, parts_moved, parts_handed};

/// Of the view of a stream, to put an offer, the move of what waits and the handing out are those of the stream's steps. It
/// does nothing.
pub fn calls_are_steps()
    ensures put { (chunks queue : List Chunk) (running : Option ℕ) (w : Waits) (s : PassesState) → viewed chunks queue running (parts_put (end_of chunks) w s) ≡ put_wait w (viewed chunks queue running s) }
    ensures ready { (chunks : List Chunk) (running : Option ℕ) (s : PassesState) → (parts_moved (end_of chunks) running s).ready ≡ s.ready ++ filter (is_reached chunks) s.waiting }
    ensures waiting { (chunks : List Chunk) (running : Option ℕ) (s : PassesState) → (parts_moved (end_of chunks) running s).waiting ≡ filter (still_waits chunks running) s.waiting }
    ensures handed { (chunks queue : List Chunk) (running : Option ℕ) (session : ℕ) (s : PassesState) → HandStep (viewed chunks queue running s) session (filter (is_of session) s.ready) (viewed chunks queue running (parts_handed session s)) }
{}

/// Where the list goes on, what holds of a stream goes on to hold, if those of its offers that the list now reaches have
/// their cause. It does nothing.
pub fn moves_keep_what_holds()
    ensures { (old new : StreamView) (more : List Chunk) → StreamHolds old [] → MoveStep old more new → IsLog new.chunks → AllByRecursion (Caused new.chunks) (filter (is_reached new.chunks) old.waiting) → StreamHolds new [] }
{}
