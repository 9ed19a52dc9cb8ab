//! The passes that a stream gave.

ghost use Rattle.std.specs.Prelude.{◌≡◌, ◌↔◌, ◌++◌, ◌∷◌, [], Some, IfOk, IfErr, OnOk, OnErr, IsTrue};
ghost use Rattle.std.specs.List.{AllByRecursion, Contains};
ghost use Rattle.stream_terms.specs.declared.terms.DeclareFault.TheVariants as closed;
ghost use Rattle.stream_terms.specs.Views.{name_of};
ghost use Rattle.stream_passes.specs.Keeps.{SerialsFrom, IsShort, WasGiven};

use frame_wire::{Octets, Text};
use std::alloc::{AllocError, Global};
use stream_terms::{DeclareFault, Given, Pass};

/// A text as a name: null and empty are none.
pub(crate) fn name_of(alloc: Global, name: &Text) -> Result<Octets, AllocError>
    ensures { IfOk result (λ o. o ≡ name_of name.now) }
{
    match name.get() {
        None => Ok(Octets::new(alloc)),
        Some(bytes) => Octets::copy(alloc, bytes),
    }
}

fn is_same_pass(a: Pass, b: Pass) -> bool
    ensures { IsTrue result ↔ (a ≡ b) }
{
    a.stream == b.stream && a.session == b.session && a.serial == b.serial && a.epoch == b.epoch
}

/// Whether a pass was given. Its serial is its place.
pub(crate) fn was_given(passes: &[Given], pass: &Pass) -> bool
    requires { SerialsFrom 0 passes.now }
    ensures { IsTrue result ↔ WasGiven passes.now pass.now }
{
    let place = pass.serial as usize;
    if place >= passes.len() {
        return false;
    }
    is_same_pass(passes[place].pass, *pass)
}

/// Whether a pass was given, and its epoch runs.
pub(crate) fn is_of_use(running: Option<u64>, passes: &[Given], pass: &Pass) -> bool
    requires { SerialsFrom 0 passes.now }
    ensures { IsTrue result ↔ ((running ≡ Some pass.now.epoch) × WasGiven passes.now pass.now) }
{
    match running {
        None => false,
        Some(epoch) => epoch == pass.epoch && was_given(passes, pass),
    }
}

/// Adds a pass.
pub(crate) fn push_given(passes: &mut Vec<Given>, given: Given) -> Result<(), DeclareFault>
    ensures ok { OnOk result (passes.new.items ≡ passes.old.items ++ given ∷ []) }
    ensures err { OnErr result (passes.new.items ≡ passes.old.items) }
    ensures memory { IfErr result (λ fault. fault ≡ closed.Memory) }
{
    match passes.push(given) {
        Ok(()) => Ok(()),
        Err(_) => Err(DeclareFault::Memory),
    }
}

/// A copy of what was given with a pass.
pub(crate) fn given_with(alloc: Global, passes: &[Given], pass: &Pass) -> Result<Given, AllocError>
    requires serials { SerialsFrom 0 passes.now }
    requires short { AllByRecursion IsShort passes.now }
    requires known { WasGiven passes.now pass.now }
    ensures { IfOk result (λ given. (given.pass ≡ pass.now) × Contains passes.now given × IsShort given) }
{
    let given = &passes[pass.serial as usize];
    let name = Octets::copy(alloc, given.name.as_slice())?;
    Ok(Given { pass: *pass, name })
}
