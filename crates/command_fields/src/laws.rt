//! What holds of the shared fields, named by contracts.

ghost use Rattle.frame_wire.specs.Laws.{Lawful, OneOutcome};
ghost use Rattle.command_fields.specs.Offsets.{spec_field};
ghost use Rattle.command_fields.specs.Properties.{property_field};

/// What is read of a shared field stood there spelled, what is spelled is read again whatever follows it, and reading
/// fails exactly where the field is wrong, in the way that the fault names. At any bytes either one value stands
/// spelled, or the field is wrong in one way, so two values never share a spelling. It does nothing.
pub fn shared_fields_are_lawful()
    ensures offset { Lawful spec_field }
    ensures property { Lawful property_field }
    ensures one_offset { OneOutcome spec_field }
    ensures one_property { OneOutcome property_field }
{}
