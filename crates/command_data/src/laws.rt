//! What holds of the data commands, named by contracts.

ghost use Rattle.command_fields.specs.Tables.{OneOutcomeIn};
ghost use Rattle.command_data.specs.Commands.{data_table};
ghost use Rattle.command_data.specs.Starts.{StartsGoOn, StartsOfThree};

/// Every body spells exactly one data command, or has exactly one first wrong field. So two commands never share a body,
/// and what is written is read again. It does nothing.
pub fn data_bodies_have_one_outcome()
    ensures { OneOutcomeIn data_table }
{}

/// Where a subscription begins in a list of chunks, when chunks are added to the list. It does nothing.
pub fn starts_go_on()
    ensures { StartsGoOn }
{}

/// Where each offset specification begins in a list of two user chunks with another chunk between them. It does nothing.
pub fn starts_on_literals()
    ensures { StartsOfThree }
{}
