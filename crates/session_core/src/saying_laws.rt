//! What holds of what a session says.

ghost use Rattle.session_core.specs.Causes.{SaidIsCalledFor};
ghost use Rattle.session_core.specs.Saying.{RepliesAreSayable};
ghost use Rattle.session_core.specs.Silence.{SilenceIsExact};

use hub_terms::Hub;

/// Each reply to a command of a frame of at most 1,048,576 bytes has a spelling. It does nothing.
pub fn replies_are_sayable<H: Hub>()
    ensures { RepliesAreSayable H.meaning }
{}

/// A poll says nothing exactly where nothing is due, and then it changes nothing. It does nothing.
pub fn silence_is_exact<H: Hub>()
    ensures { SilenceIsExact H.meaning }
{}

/// Where a poll tells of a stream, an epoch of the session's publishers or subscriptions ended there, and where it asks a
/// consumer to turn, its group changed. It does nothing.
pub fn said_is_called_for<H: Hub>()
    ensures { SaidIsCalledFor H.meaning }
{}
