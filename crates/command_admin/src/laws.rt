//! What holds of the administrative commands, named by contracts.

ghost use Rattle.command_fields.specs.Tables.{OneOutcomeIn};
ghost use Rattle.command_admin.specs.Commands.{admin_table};

/// Every body spells exactly one administrative command, or has exactly one first wrong field. So two commands never
/// share a body, and what is written is read again. It does nothing.
pub fn admin_bodies_have_one_outcome()
    ensures { OneOutcomeIn admin_table }
{}
