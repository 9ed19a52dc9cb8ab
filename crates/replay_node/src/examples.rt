//! What the list machine runs of events that are written out, and what it refuses, named by a contract.

ghost use Rattle.replay_node.specs.Examples.{HasRun, HasNoRun, entry_a, entry_b, a_stream_made, a_message_given, a_chunk_committed, the_worked_run, a_declaration_and_its_confirm, a_refused_message, refused_and_committed, a_chunk_out_of_place, a_chunk_twice, a_confirm_before_its_commit, a_confirm_of_no_publish, a_confirm_twice, a_confirm_of_no_entry, a_confirm_of_an_undeclared_publisher};

/// The list machine runs what a server may do: from making a stream to a confirm, a declaration and the confirm of its
/// publisher, and a refused message. It refuses a chunk out of its place, a chunk twice, and a confirm before its
/// commit, of an id that was not published, of an id that was confirmed, of an entry that the list has not, and of a
/// publisher that was not declared; each of these is a run without its last event. It does nothing.
pub fn list_machine_on_literals()
    ensures worked { HasRun the_worked_run }
    ensures declared { HasRun a_declaration_and_its_confirm }
    ensures refused { HasRun a_refused_message }
    ensures but_for_the_last { HasRun a_stream_made × HasRun a_message_given × HasRun (a_chunk_committed entry_a) × HasRun (a_chunk_committed entry_b) × HasRun refused_and_committed }
    ensures chunk_out_of_place { HasNoRun a_chunk_out_of_place }
    ensures chunk_twice { HasNoRun a_chunk_twice }
    ensures confirm_before_its_commit { HasNoRun a_confirm_before_its_commit }
    ensures confirm_of_no_publish { HasNoRun a_confirm_of_no_publish }
    ensures confirm_twice { HasNoRun a_confirm_twice }
    ensures confirm_of_no_entry { HasNoRun a_confirm_of_no_entry }
    ensures confirm_of_no_publisher { HasNoRun a_confirm_of_an_undeclared_publisher }
{}
