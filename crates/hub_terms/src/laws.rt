//! That a table of streams is a hub.

ghost use Rattle.hub_terms.specs.Meaning.{HubLaws};
ghost use Rattle.hub_terms.specs.Tables.{table_meaning};

/// A table of streams with a catalog and groups is a hub. It does nothing.
pub fn a_table_of_streams_is_a_hub()
    ensures { HubLaws table_meaning }
{}
