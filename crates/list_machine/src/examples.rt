//! What the list machine runs of events that are written out, and what it refuses.

ghost use Rattle.std.specs.Prelude.{ℕ, List, [], ◌∷◌, Option, Some, None, ◌++◌, flat_map};
ghost use Rattle.command_all.specs.declared.command.Command.{Command};
ghost use Rattle.script_text.specs.declared.script.ScriptLine.TheVariants.{Connect};
ghost use Rattle.script_text.specs.declared.output.Ending.{Ending};
ghost use Rattle.script_text.specs.declared.output.OutputLine.TheVariants.{Committed, LogDown};
ghost use Rattle.script_text.specs.Script.{line_bytes};
ghost use Rattle.script_text.specs.Outputs.{output_bytes};
ghost use Rattle.list_machine.specs.Transcripts.{Transcript, InspectsKept};
ghost use Rattle.list_machine.specs.Waits.{HasNoRun, log_to, inspected_as};
ghost use Rattle.list_machine.specs.Streams.{waiting, active, Stream};
ghost use Rattle.list_machine.specs.Machines.{fresh, idle};
ghost use Rattle.list_machine.specs.Steps.{read, committed, sent, handled, ended};
ghost use Rattle.list_machine.specs.Examples.{HasRun, a_stream_made, a_declaration, the_worked_run, a_frame_too_large, a_change_in_doubt, item, chunk_of, opening, stored_chunk, machine_of, reader, is_declared, delivery};
ghost use Rattle.list_machine.specs.SessionExample.{a_session};
ghost use Rattle.list_machine.specs.TranscriptExample.{a_script, its_output};
ghost use Rattle.list_machine.specs.Wrongs.{HasNoStep, published, subscribed, one_waits, two_wait, two_then_one, one_confirmed, five_waits, first_chunk, second_chunk, third_chunk, later_opening, confirms_ids, ended_connection, published_run, committed_run, three_run, stored_run, of_group, a_subscription};

/// Written out: a stream is made and opens, a publisher is declared, its item is committed and confirmed, a subscription
/// gets it, all stops, and another epoch opens; a size too large closes its connection; a name is refused, and a stream is
/// found that was in doubt; and a session with a single active consumer in version 2 of Deliver, credits, questions, a
/// refused frame, ends of both, and all else that is sent unasked. It does nothing.
pub fn worked_runs_stand()
    ensures worked { HasRun the_worked_run }
    ensures large { HasRun (a_stream_made ++ a_frame_too_large) }
    ensures doubted { HasRun (a_stream_made ++ a_change_in_doubt) }
    ensures session { HasRun a_session }
{}

/// Not committed are a chunk out of its place, twice, or of a lower epoch; and a row that nobody sent, that passes an
/// earlier item over, whose id stands already, or whose id falls. It does nothing.
pub fn wrong_chunks_are_refused()
    ensures out_of_place { HasNoStep (published (opening ∷ []) one_waits) (committed 1 (chunk_of 1 5 (item 1 97))) }
    ensures twice { HasNoStep (published (opening ∷ []) one_waits) (committed 1 opening) }
    ensures lower_epoch { HasNoStep (published (opening ∷ later_opening ∷ []) one_waits) (committed 1 (chunk_of 1 2 (item 1 97))) }
    ensures nobody_sent { HasNoStep (published (opening ∷ []) one_waits) (committed 1 (chunk_of 1 1 (item 9 99))) }
    ensures passing { HasNoStep (published (opening ∷ []) two_wait) (committed 1 (chunk_of 1 1 (item 2 98))) }
    ensures tag_twice { HasNoStep (published (opening ∷ first_chunk ∷ []) one_confirmed) (committed 1 (chunk_of 1 2 (item 1 97))) }
    ensures tag_falls { HasNoStep (published (opening ∷ chunk_of 1 1 (item 2 98) ∷ []) two_then_one) (committed 1 (chunk_of 1 2 (item 1 97))) }
{}

/// Not confirmed is an item before its commit, twice, of no declaration, or above the greatest id. It does nothing.
pub fn wrong_confirms_are_refused()
    ensures early { HasNoStep (published (opening ∷ []) one_waits) (sent 1 (confirms_ids 7 (1 ∷ []))) }
    ensures twice { HasNoStep (published (opening ∷ first_chunk ∷ []) one_confirmed) (sent 1 (confirms_ids 7 (1 ∷ []))) }
    ensures undeclared { HasNoStep (published (opening ∷ first_chunk ∷ []) one_waits) (sent 1 (confirms_ids 9 (1 ∷ []))) }
    ensures above { HasNoStep (published (opening ∷ first_chunk ∷ []) five_waits) (sent 1 (confirms_ids 7 (5 ∷ []))) }
{}

/// Not delivered is a chunk without a credit, out of order, past a gap, that stores an offset, or to a consumer that waits.
/// It does nothing.
pub fn wrong_deliveries_are_refused()
    ensures uncredited { HasNoStep (subscribed (opening ∷ first_chunk ∷ []) (reader active 0 0 [])) (sent 1 (delivery first_chunk)) }
    ensures out_of_order { HasNoStep (subscribed (opening ∷ first_chunk ∷ second_chunk ∷ []) (reader active 0 1 [])) (sent 1 (delivery second_chunk)) }
    ensures past_gap { HasNoStep (subscribed (opening ∷ first_chunk ∷ second_chunk ∷ chunk_of 1 3 (item 3 99) ∷ []) (reader active 2 1 [])) (sent 1 (delivery (chunk_of 1 3 (item 3 99)))) }
    ensures of_delta { HasNoStep (subscribed (opening ∷ stored_chunk 1 ∷ []) (reader active 0 1 [])) (sent 1 (delivery (stored_chunk 1))) }
    ensures to_waiting { HasNoStep (subscribed (opening ∷ first_chunk ∷ []) (reader waiting 0 1 [])) (sent 1 (delivery first_chunk)) }
{}

/// No answer is written that isn't owed, as one that was written already; and on a connection that has ended nothing is
/// written or handled, and it doesn't end again. It does nothing.
pub fn nothing_else_is_written()
    ensures not_owed { (s : Stream) → HasNoStep (machine_of s fresh idle) (sent 1 is_declared) }
    ensures frame { (s : Stream) (command : Command) → HasNoStep (machine_of s ended_connection idle) (sent 1 command) }
    ensures end { (s : Stream) (how : Ending) → HasNoStep (machine_of s ended_connection idle) (ended 1 how) }
    ensures handling { (s : Stream) (command : Command) (answer : Option Command) → HasNoStep (machine_of s ended_connection idle) (handled 1 command answer) }
{}

/// No run of the machine with nothing goes on from one written out so: by a chunk out of its place, twice, or of a lower
/// epoch; by a row whose id stands already or falls; or, behind the end of a connection, by a frame on it, a command of it
/// or another end. It does nothing.
pub fn wrong_runs_are_none()
    ensures out_of_place { HasNoRun (a_stream_made ++ committed 1 (chunk_of 1 5 (item 1 97)) ∷ []) }
    ensures twice { HasNoRun (a_stream_made ++ committed 1 opening ∷ []) }
    ensures lower_epoch { HasNoRun (the_worked_run ++ committed 1 (chunk_of 1 3 (item 2 98)) ∷ []) }
    ensures tag_twice { HasNoRun (the_worked_run ++ committed 1 (chunk_of 3 3 (item 1 97)) ∷ []) }
    ensures tag_falls { HasNoRun (the_worked_run ++ committed 1 (chunk_of 3 3 (item 0 96)) ∷ []) }
    ensures frame { (command : Command) → HasNoRun (the_worked_run ++ sent 1 command ∷ []) }
    ensures handling { (command : Command) (answer : Option Command) → HasNoRun (the_worked_run ++ handled 1 command answer ∷ []) }
    ensures end { (how : Ending) → HasNoRun (the_worked_run ++ ended 1 how ∷ []) }
{}

/// No run of the machine with nothing goes on from one written out so: by a row that nobody sent, or one that passes an
/// earlier item over. It does nothing.
pub fn wrong_rows_have_no_run()
    ensures nobody_sent { HasNoRun (published_run (item 1 97 ∷ []) ++ committed 1 (chunk_of 1 1 (item 9 99)) ∷ []) }
    ensures passing { HasNoRun (published_run (item 1 97 ∷ item 2 98 ∷ []) ++ committed 1 (chunk_of 1 1 (item 2 98)) ∷ []) }
{}

/// No run of the machine with nothing goes on so by the confirm of an item before its commit, twice, of no declaration, or
/// above the greatest id. It does nothing.
pub fn wrong_confirms_have_no_run()
    ensures early { HasNoRun (published_run (item 1 97 ∷ []) ++ sent 1 (confirms_ids 7 (1 ∷ [])) ∷ []) }
    ensures twice { HasNoRun (committed_run (item 1 97 ∷ []) ++ sent 1 (confirms_ids 7 (1 ∷ [])) ∷ sent 1 (confirms_ids 7 (1 ∷ [])) ∷ []) }
    ensures undeclared { HasNoRun (committed_run (item 1 97 ∷ []) ++ sent 1 (confirms_ids 9 (1 ∷ [])) ∷ []) }
    ensures above { HasNoRun (committed_run (item 1 97 ∷ item 5 101 ∷ []) ++ sent 1 (confirms_ids 7 (1 ∷ 5 ∷ [])) ∷ []) }
{}

/// No run of the machine with nothing goes on so by the delivery of a chunk without a credit, out of order, past a gap, that
/// stores an offset, or to a consumer that waits. It does nothing.
pub fn wrong_deliveries_have_no_run()
    ensures uncredited { HasNoRun (three_run ++ (a_subscription 0 None ++ sent 1 (delivery first_chunk) ∷ [])) }
    ensures out_of_order { HasNoRun (three_run ++ (a_subscription 3 None ++ sent 1 (delivery second_chunk) ∷ [])) }
    ensures past_gap { HasNoRun (three_run ++ (a_subscription 3 None ++ sent 1 (delivery first_chunk) ∷ sent 1 (delivery third_chunk) ∷ [])) }
    ensures of_delta { HasNoRun (stored_run ++ (a_subscription 3 None ++ sent 1 (delivery (stored_chunk 1)) ∷ [])) }
    ensures to_waiting { HasNoRun (three_run ++ (a_subscription 3 (Some of_group) ++ sent 1 (delivery first_chunk) ∷ [])) }
{}

/// No run of the machine with nothing goes on so by an answer that is owed to nobody, or by one that was written already. It
/// does nothing.
pub fn wrong_answers_have_no_run()
    ensures not_owed { HasNoRun (a_stream_made ++ read (Connect 1) ∷ sent 1 is_declared ∷ []) }
    ensures twice { HasNoRun (a_stream_made ++ (a_declaration ++ sent 1 is_declared ∷ [])) }
{}

/// What goes before the wrong events of `wrong_rows_have_no_run`, `wrong_confirms_have_no_run` and
/// `wrong_deliveries_have_no_run` is a run, so each is refused for itself. It does nothing.
pub fn runs_before_wrong_events_stand()
    ensures published { HasRun (published_run (item 1 97 ∷ item 2 98 ∷ [])) }
    ensures confirmed { HasRun (committed_run (item 1 97 ∷ []) ++ sent 1 (confirms_ids 7 (1 ∷ [])) ∷ []) }
    ensures committed { HasRun (committed_run (item 1 97 ∷ item 5 101 ∷ [])) }
    ensures uncredited { HasRun (three_run ++ a_subscription 0 None) }
    ensures delivered { HasRun (three_run ++ (a_subscription 3 None ++ sent 1 (delivery first_chunk) ∷ [])) }
    ensures waiting { HasRun (three_run ++ a_subscription 3 (Some of_group)) }
    ensures stored { HasRun (stored_run ++ a_subscription 3 None) }
{}

/// A script and what is written are a transcript; a commit line is none where nothing was read. It does nothing.
pub fn transcripts_are_told_apart()
    ensures worked { Transcript (flat_map line_bytes a_script) (flat_map output_bytes its_output) }
    ensures unread { (number : ℕ) (chunk : List ℕ) → Transcript [] (output_bytes (Committed number chunk)) → ⊥ }
{}

/// Of three members, an inspection is right where two hold what the commit lines say, or one does and one is down; it is
/// wrong where one holds it and none is down. It does nothing.
pub fn inspections_are_told_apart()
    ensures held { InspectsKept (inspected_as (log_to 1 1 ∷ log_to 2 1 ∷ log_to 3 0 ∷ [])) }
    ensures down { InspectsKept (inspected_as (log_to 1 1 ∷ LogDown 1 2 ∷ log_to 3 0 ∷ [])) }
    ensures lost { InspectsKept (inspected_as (log_to 1 1 ∷ log_to 2 0 ∷ log_to 3 0 ∷ [])) → ⊥ }
{}
