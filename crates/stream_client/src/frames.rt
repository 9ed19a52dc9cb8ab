//! The frames of a client. Each call fails for want of memory alone.

ghost use Rattle.std.specs.Prelude.{◌≡◌, ◌∷◌, [], codes, None, Some, IfOk};
ghost use Rattle.chunk_format.specs.declared.entry.Entry.TheVariants.{Simple};
ghost use Rattle.command_data.specs.declared.command.DataCommand.TheVariants as data_commands;
ghost use Rattle.command_admin.specs.declared.command.AdminCommand.TheVariants as admin_commands;
ghost use Rattle.command_all.specs.declared.command.Command.TheVariants.{Data, Admin};
ghost use Rattle.command_all.specs.Commands.{IsFrame};
ghost use Rattle.client_terms.specs.Sending.{plain, message};
ghost use Rattle.stream_client.specs.Outboxes.{IsShort};

use crate::client::Login;
use chunk_format::Entry;
use command_all::{AdminCommand, Command, DataCommand, KeyVersions, OffsetSpec, Tagged, frame};
use frame_wire::{Octets, Row, Text};
use std::alloc::{AllocError, Global};

/// A credit of one chunk for the subscription.
#[tactic(auto, using(crate::proofs::Fits::credit_fits))]
pub fn credit(alloc: Global) -> Result<Octets, AllocError>
    ensures { IfOk result (λ bytes. IsFrame (Data (data_commands.Credit 0 1)) bytes) }
{
    let command = DataCommand::Credit { sub: 0, credit: 1 };
    frame(alloc, &Command::Data(command))
}

/// The answer to Tune: the server's greatest frame, and no heartbeats.
#[tactic(auto, using(crate::proofs::Fits::tuned_fits))]
pub fn tuned(alloc: Global, frame_max: u32) -> Result<Octets, AllocError>
    ensures { IfOk result (λ bytes. IsFrame (Admin (admin_commands.TuneAnswer frame_max 0)) bytes) }
{
    let command = AdminCommand::TuneAnswer {
        frame_max,
        heartbeat: 0,
    };
    frame(alloc, &Command::Admin(command))
}

#[tactic(auto, using(crate::proofs::Fits::peer_fits))]
pub fn peer_properties(alloc: Global, corr: u32) -> Result<Octets, AllocError>
    ensures { IfOk result (λ bytes. IsFrame (Admin (admin_commands.PeerProperties corr [])) bytes) }
{
    let command = AdminCommand::PeerProperties {
        corr,
        properties: Row::new(alloc),
    };
    frame(alloc, &Command::Admin(command))
}

#[tactic(auto, using(crate::proofs::Fits::handshake_fits))]
pub fn sasl_handshake(alloc: Global, corr: u32) -> Result<Octets, AllocError>
    ensures { IfOk result (λ bytes. IsFrame (Admin (admin_commands.SaslHandshake corr)) bytes) }
{
    frame(alloc, &Command::Admin(AdminCommand::SaslHandshake { corr }))
}

/// A text of bytes that are few.
fn text(alloc: Global, bytes: &[u8]) -> Result<Text, AllocError>
    ensures { IfOk result (λ text. text ≡ Some bytes.now) }
{
    match Text::copy(alloc, bytes) {
        Ok(text) => Ok(text),
        Err(_) => Err(AllocError),
    }
}

/// A zero byte, the user, a zero byte, the password.
pub fn plain_of(alloc: Global, login: &Login) -> Result<Octets, AllocError>
    ensures { IfOk result (λ bytes. bytes ≡ plain login.now) }
{
    let mut out = Octets::copy(alloc, &[0])?;
    out.push_slice(login.user())?;
    out.push_slice(&[0])?;
    out.push_slice(login.password())?;
    Ok(out)
}

pub fn sasl_authenticate(alloc: Global, corr: u32, login: &Login) -> Result<Octets, AllocError>
    ensures { IfOk result (λ bytes. IsFrame (Admin (admin_commands.SaslAuthenticate corr (Some (codes "PLAIN")) (Some (plain login.now)))) bytes) }
{
    login.user();
    let mechanism = text(alloc, b"PLAIN")?;
    let opaque = plain_of(alloc, login)?;
    let command = AdminCommand::SaslAuthenticate {
        corr,
        mechanism,
        opaque: Some(opaque),
    };
    frame(alloc, &Command::Admin(command))
}

#[tactic(auto, using(crate::proofs::Fits::host_fits))]
pub fn open_host(alloc: Global, corr: u32) -> Result<Octets, AllocError>
    ensures { IfOk result (λ bytes. IsFrame (Admin (admin_commands.OpenHost corr (Some (codes "/")))) bytes) }
{
    let virtual_host = text(alloc, b"/")?;
    frame(
        alloc,
        &Command::Admin(AdminCommand::OpenHost { corr, virtual_host }),
    )
}

/// Both versions of a delivery are taken.
#[tactic(auto, using(crate::proofs::Fits::versions_fits))]
pub fn exchange_versions(alloc: Global, corr: u32) -> Result<Octets, AllocError>
    ensures { IfOk result (λ bytes. IsFrame (Admin (admin_commands.ExchangeVersions corr (record { key = 0x0008; least = 1; greatest = 2 } ∷ []))) bytes) }
{
    let mut items = Row::new(alloc);
    let versions = KeyVersions {
        key: 0x0008,
        least: 1,
        greatest: 2,
    };
    let Ok(()) = items.push(versions) else {
        return Err(AllocError);
    };
    frame(
        alloc,
        &Command::Admin(AdminCommand::ExchangeVersions { corr, items }),
    )
}

#[tactic(auto, using(crate::proofs::Fits::create_fits))]
pub fn create(alloc: Global, corr: u32, stream: &Text) -> Result<Octets, AllocError>
    ensures { IfOk result (λ bytes. IsFrame (Admin (admin_commands.Create corr stream.now [])) bytes) }
{
    let _stream = stream.get();
    let command = AdminCommand::Create {
        corr,
        stream: stream.clone()?,
        properties: Row::new(alloc),
    };
    frame(alloc, &Command::Admin(command))
}

/// The publisher of the client is 0.
#[tactic(auto, using(crate::proofs::Fits::declare_fits))]
pub fn declare_publisher(
    alloc: Global,
    corr: u32,
    name: &Text,
    stream: &Text,
) -> Result<Octets, AllocError>
    ensures { IfOk result (λ bytes. IsFrame (Data (data_commands.DeclarePublisher corr 0 name.now stream.now)) bytes) }
{
    let _name = name.get();
    let _stream = stream.get();
    let command = DataCommand::DeclarePublisher {
        corr,
        publisher: 0,
        reference: name.clone()?,
        stream: stream.clone()?,
    };
    frame(alloc, &Command::Data(command))
}

#[tactic(auto, using(crate::proofs::Fits::query_fits))]
pub fn query_sequence(
    alloc: Global,
    corr: u32,
    name: &Text,
    stream: &Text,
) -> Result<Octets, AllocError>
    ensures { IfOk result (λ bytes. IsFrame (Data (data_commands.QueryPublisherSequence corr name.now stream.now)) bytes) }
{
    let _name = name.get();
    let _stream = stream.get();
    let command = DataCommand::QueryPublisherSequence {
        corr,
        reference: name.clone()?,
        stream: stream.clone()?,
    };
    frame(alloc, &Command::Data(command))
}

/// The subscription of the client is 0.
#[tactic(auto, using(crate::proofs::Fits::subscribe_fits))]
pub fn subscribe(
    alloc: Global,
    corr: u32,
    stream: &Text,
    spec: OffsetSpec,
    credit: u16,
) -> Result<Octets, AllocError>
    ensures { IfOk result (λ bytes. IsFrame (Data (data_commands.Subscribe corr 0 stream.now spec credit None)) bytes) }
{
    let _stream = stream.get();
    let command = DataCommand::Subscribe {
        corr,
        sub: 0,
        stream: stream.clone()?,
        spec,
        credit,
        properties: None,
    };
    frame(alloc, &Command::Data(command))
}

/// A message under its id, alone in a frame.
#[tactic(auto, using(crate::proofs::Fits::publish_fits))]
pub fn publish(alloc: Global, id: u64, body: &[u8]) -> Result<Octets, AllocError>
    requires { IsShort body.now }
    ensures { IfOk result (λ bytes. IsFrame (Data (data_commands.Publish 0 (message id body.now ∷ []))) bytes) }
{
    let entry = Entry::Simple(Octets::copy(alloc, body)?);
    let mut items = Row::new(alloc);
    let Ok(()) = items.push(Tagged { id, entry }) else {
        return Err(AllocError);
    };
    let command = DataCommand::Publish {
        publisher: 0,
        items,
    };
    frame(alloc, &Command::Data(command))
}
