//! Laws of the list machine, over every run from the machine with nothing.

ghost use Rattle.std.specs.Prelude.{◌≡◌, ℕ, List, Option, ◌++◌, ◌∷◌};
ghost use Rattle.std.specs.List.{AllByRecursion};
ghost use Rattle.chunk_format.specs.Logs.{GoesOn, IsLog};
ghost use Rattle.command_data.specs.declared.item.Tagged.{Tagged};
ghost use Rattle.chunk_format.specs.declared.chunk.Chunk.{Chunk};
ghost use Rattle.chunk_format.specs.declared.chunk.Header.{Header};
ghost use Rattle.script_text.specs.declared.output.Ending.{Ending};
ghost use Rattle.list_machine.specs.Items.{items_in};
ghost use Rattle.list_machine.specs.Given.{WereGiven, WasGiven};
ghost use Rattle.list_machine.specs.Commits.{CommitStep};
ghost use Rattle.list_machine.specs.Streams.{Stream, Subscription, no_stream};
ghost use Rattle.list_machine.specs.Moves.{Move, StreamRun};
ghost use Rattle.list_machine.specs.Machines.{Machine, empty_machine};
ghost use Rattle.list_machine.specs.Steps.{Event, committed, sent, ended, MachineStep, MachineRun, moves_at};
ghost use Rattle.list_machine.specs.Transcripts.{Transcript, CommitLines};
ghost use Rattle.list_machine.specs.Waits.{LinesWait, InspectsItsList};
ghost use Rattle.list_machine.specs.Written.{AnswersFixed, AnswersWritten, confirm_frame, delivery_frame, IsConfirm, IsDelivery, AmongConfirmed, StepBehind};
ghost use Rattle.list_machine.specs.Discipline.{Disciplined, DisciplinedRun};
ghost use Rattle.list_machine.specs.Laws.{IsNotOf, RowsRight, ExactlyOnce, DeliversRun, ConfirmedBy, tally_of, no_tally, Tallied};

/// The chunks of a stream's commit lines are its list, which is contiguous from 0 with epochs that don't fall; and over
/// each further run, also where all stops, it only grows. It does nothing.
pub fn lists_only_grow()
    ensures is { (events : List Event) (new : Machine) (number : ℕ) → MachineRun empty_machine events new → (new.streams number).chunks ≡ CommitLines number events }
    ensures log { (events : List Event) (new : Machine) (number : ℕ) → MachineRun empty_machine events new → IsLog (new.streams number).chunks }
    ensures grows { (events : List Event) (old new : Machine) (number : ℕ) → MachineRun old events new → GoesOn (old.streams number).chunks (new.streams number).chunks }
{}

/// The ids of each name rise, nothing stands that wasn't sent, and each entry stands without a tag at least as often as it
/// was confirmed. It does nothing.
pub fn rows_are_right()
    ensures { (events : List Event) (new : Machine) (number : ℕ) → MachineRun empty_machine events new → RowsRight (new.streams number) }
{}

/// What a declaration sent was given in Publish commands of its connection and id, which were handled; so each item that
/// commit lines have under a name was given so. It does nothing.
pub fn items_were_given()
    ensures sent { (events : List Event) (new : Machine) (number : ℕ) → MachineRun empty_machine events new → AllByRecursion (WereGiven events) (new.streams number).declarations }
    ensures committed { (name : List ℕ) (events : List Event) (new : Machine) (number : ℕ) → MachineRun empty_machine events new → AllByRecursion (WasGiven events) (items_in name (CommitLines number events)) }
{}

/// What each stream did along a run is a run of moves from a stream not made. Where it is disciplined for a name, the items
/// of the name are a beginning of the publisher's list, and each item of each frame that was confirmed under the name is of
/// that list and stands once. The same where the declarations that the state has are disciplined. It does nothing.
pub fn confirmed_stand_once()
    ensures moves { (events : List Event) (new : Machine) (number : ℕ) (run : MachineRun empty_machine events new) → StreamRun no_stream (moves_at number empty_machine events new run) (new.streams number) }
    ensures once { (name : List ℕ) (list : List Tagged) (moves : List Move) (new : Stream) (run : StreamRun no_stream moves new) → DisciplinedRun name list moves new run → ExactlyOnce name list new.chunks (ConfirmedBy moves) }
    ensures known { (name : List ℕ) (list : List Tagged) (moves : List Move) (new : Stream) → StreamRun no_stream moves new → Disciplined name list new.declarations → ExactlyOnce name list new.chunks (ConfirmedBy moves) }
{}

/// What each subscription was sent since its last start is the gap-free run of the user chunks of its stream's list from
/// there on, and all that it was sent is at most the credits granted. It does nothing.
pub fn deliveries_are_runs()
    ensures told { (events : List Event) (new : Machine) (number : ℕ) (run : MachineRun empty_machine events new) → AllByRecursion (λ (s : Subscription). tally_of s ≡ Tallied s.connection s.id no_tally (moves_at number empty_machine events new run)) (new.streams number).subscriptions }
    ensures runs { (events : List Event) (new : Machine) (number : ℕ) → MachineRun empty_machine events new → AllByRecursion (DeliversRun (new.streams number).chunks) (new.streams number).subscriptions }
{}

/// Each commit line is a Commit of its stream. It does nothing.
pub fn commit_lines_are_commits()
    ensures { (old new : Machine) (number : ℕ) (chunk : Chunk) → MachineStep old (committed number chunk) new → CommitStep (old.streams number) chunk (new.streams number) }
{}

/// Behind the line that ends it nothing is written on a connection, no command of it is handled, and it doesn't end again.
/// It does nothing.
pub fn nothing_comes_behind_the_end()
    ensures { (before behind : List Event) (c : ℕ) (how : Ending) (old new : Machine) → MachineRun old (before ++ ended c how ∷ behind) new → AllByRecursion (IsNotOf c) behind }
{}

/// The answers that are written on a connection, with those that are still owed behind them, are those that its handled
/// commands fixed, each once and in order; so no answer is written that isn't owed, and none twice. It does nothing.
pub fn answers_are_written_once()
    ensures { (events : List Event) (new : Machine) (c : ℕ) → MachineRun empty_machine events new → AnswersFixed c events ≡ AnswersWritten c events ++ (new.connections c).owed }
{}

/// Each confirm that is written is that of one frame that waits, of a declaration that stands, whose items the list has, and
/// one of those that its stream counts as confirmed; and each delivery is that of the next user chunk, to an active
/// subscription with a credit. It does nothing.
pub fn unasked_frames_are_steps()
    ensures confirms { (c id : ℕ) (ids : List ℕ) (before behind : List Event) (new : Machine) → MachineRun empty_machine (before ++ sent c (confirm_frame id ids) ∷ behind) new → StepBehind (sent c (confirm_frame id ids)) (IsConfirm c id ids) before behind new }
    ensures confirmed { (c id : ℕ) (ids : List ℕ) (before behind : List Event) (new : Machine) (run : MachineRun empty_machine (before ++ sent c (confirm_frame id ids) ∷ behind) new) → AmongConfirmed ids empty_machine (before ++ sent c (confirm_frame id ids) ∷ behind) new run }
    ensures deliveries { (c id : ℕ) (last : Option ℕ) (header : Header) (payload : List ℕ) (before behind : List Event) (new : Machine) → MachineRun empty_machine (before ++ sent c (delivery_frame id last header payload) ∷ behind) new → StepBehind (sent c (delivery_frame id last header payload)) (IsDelivery c id last header payload) before behind new }
{}

/// Where a line is read, each command that was read before it is handled, each answer is written, and each connection that
/// was to end has ended; so too in a transcript, whose events are a run. It does nothing.
pub fn lines_wait_for_answers()
    ensures runs { (events : List Event) (old new : Machine) → MachineRun old events new → LinesWait old events new }
    ensures transcripts { (taken given : List ℕ) (t : Transcript taken given) → MachineRun empty_machine t.events t.machine × LinesWait empty_machine t.events t.machine }
{}

/// The commit lines with which an inspection of a stream is compared are the list that the stream has when it is inspected.
/// It does nothing.
pub fn inspections_look_at_the_list()
    ensures { (number : ℕ) (before behind : List Event) (new : Machine) → MachineRun empty_machine (before ++ behind) new → InspectsItsList number before behind new }
{}
