//! What a client keeps.

ghost use Rattle.std.specs.Prelude.{◌≡◌, ◌↔◌, ◌+◌, ◌≤◌, ◌++◌, ◌∷◌, [], length, None, false, IsTrue, OnOk, OnErr, IfOk};
ghost use Rattle.client_terms.specs.States.{started, linked, unlinked};
ghost use Rattle.client_terms.specs.Steps.{created, queried, subscribed};
ghost use Rattle.stream_client.specs.Cores.{state_of, IsDone};

use crate::outbox::Outbox;
use crate::queue::Queue;
use client_terms::{Received, Request, Stage, Wish};
use command_all::Identity;
use command_fields::OffsetSpec;
use frame_wire::Text;
use std::alloc::{AllocError, Global};
use std::marker::Model;

/// Who logs in. The user and the password have together at most 2,147,483,645 bytes.
#[derive(Debug, Drop)]
pub struct Login {
    identity: Identity,
}

impl Model for Login {
    ghost use Rattle.std.specs.Prelude.{◌+◌, ◌≤◌, length};
    ghost use Rattle.command_all.specs.declared.identity.Identity.{Identity};

    ghost Value = { Identity };

    ghost view = { λ l. l.identity };

    ghost invariant = { λ l. length l.identity.user + length l.identity.password ≤ 2147483645 };
}

impl Login {
    pub fn new(identity: Identity) -> Login
        requires { length identity.user + length identity.password ≤ 2147483645 }
        ensures { result ≡ identity }
    {
        Login { identity }
    }

    pub fn user(&self) -> &[u8]
        ensures is { result.now ≡ self.now.user }
        ensures short { length self.now.user + length self.now.password ≤ 2147483645 }
    {
        self.identity.user.as_slice()
    }

    pub fn password(&self) -> &[u8]
        ensures { result.now ≡ self.now.password }
    {
        self.identity.password.as_slice()
    }
}

/// What a client keeps of its connection.
#[derive(Clone, Copy, Debug)]
pub struct Line {
    pub stage: Stage,
    /// The correlation of the last request.
    pub corr: u32,
    /// The last request, until it is answered.
    pub awaited: Option<Request>,
    /// Whether the declaration was answered.
    pub declared: bool,
    /// Whether the subscription was answered.
    pub subscribed: bool,
    /// How many credits are due, one for each delivery.
    pub credits: u64,
    /// What the last delivery of version 2 told.
    pub committed: Option<u64>,
}

impl Line {
    /// Nothing was said yet, and this is what was told of the committed list.
    pub fn new(stage: Stage, committed: Option<u64>) -> Line
        ensures { result ≡ record {
          stage = stage;
          corr = 0;
          awaited = None;
          declared = false;
          subscribed = false;
          credits = 0;
          committed = committed;
        } }
    {
        Line {
            stage,
            corr: 0,
            awaited: None,
            declared: false,
            subscribed: false,
            credits: 0,
            committed,
        }
    }
}

/// A client, without the bytes that it reads.
#[derive(Debug, Drop)]
pub struct Client {
    pub login: Login,
    pub stream: Text,
    pub name: Text,
    pub outbox: Outbox,
    /// How many wishes for its stream to be made have no answer.
    pub creates: u64,
    /// Which others have none.
    pub wishes: Queue<Wish>,
    /// What the last query was answered.
    pub answer: Option<u64>,
    /// Where the subscription begins, and with how many credits.
    pub spec: OffsetSpec,
    pub credit: u16,
    /// What was delivered and not taken out.
    pub received: Queue<Received>,
    pub line: Line,
}

/// A client of which all ids up to one are confirmed.
pub fn start(
    alloc: Global,
    identity: Identity,
    stream: &Text,
    name: &Text,
    confirmed: u64,
) -> Result<Client, AllocError>
    requires { length identity.user + length identity.password ≤ 2147483645 }
    ensures { IfOk result (λ client. state_of client ≡ started identity stream.now name.now confirmed) }
{
    let stream = stream.clone()?;
    let name = name.clone()?;
    Ok(Client {
        login: Login::new(identity),
        stream,
        name,
        outbox: Outbox::new(alloc, confirmed),
        creates: 0,
        wishes: Queue::new(alloc),
        answer: None,
        spec: OffsetSpec::Unset,
        credit: 0,
        received: Queue::new(alloc),
        line: Line::new(Stage::Away, None),
    })
}

/// A connection begins.
pub fn link(client: &mut Client)
    ensures { state_of client.new ≡ linked (state_of client.old) }
{
    client.outbox.restart();
    client.line = Line::new(Stage::Greeting, None);
}

/// The connection is gone.
pub fn unlink(client: &mut Client)
    ensures { state_of client.new ≡ unlinked (state_of client.old) }
{
    client.line = Line::new(Stage::Away, client.line.committed);
}

/// The stream is to be made. Want of memory leaves the client as it was.
pub fn wish_create(client: &mut Client) -> Result<(), AllocError>
    ensures ok { OnOk result (state_of client.new ≡ created (state_of client.old)) }
    ensures err { OnErr result (state_of client.new ≡ state_of client.old) }
{
    match client.creates.checked_add(1) {
        Some(creates) => {
            client.creates = creates;
            Ok(())
        }
        None => Err(AllocError),
    }
}

/// Adds a wish. Want of memory leaves the client as it was.
fn add_wish(client: &mut Client, wish: Wish) -> Result<(), AllocError>
    ensures ok { OnOk result (client.new ≡ record client.old { wishes = client.old.wishes ++ wish ∷ [] }) }
    ensures err { OnErr result (client.new ≡ client.old) }
{
    match client.wishes.push(wish) {
        Ok(()) => Ok(()),
        Err(_) => Err(AllocError),
    }
}

/// The greatest id of the name is asked for. Want of memory leaves the client as it was.
pub fn wish_query(client: &mut Client) -> Result<(), AllocError>
    ensures ok { OnOk result (state_of client.new ≡ queried (state_of client.old)) }
    ensures err { OnErr result (state_of client.new ≡ state_of client.old) }
{
    add_wish(client, Wish::Query)
}

/// The subscription is asked for. Want of memory leaves the client as it was.
pub fn wish_subscribe(client: &mut Client, spec: OffsetSpec, credit: u16) -> Result<(), AllocError>
    ensures ok { OnOk result (state_of client.new ≡ subscribed (state_of client.old) spec credit) }
    ensures err { OnErr result (state_of client.new ≡ state_of client.old) }
{
    add_wish(client, Wish::Subscribe)?;
    client.spec = spec;
    client.credit = credit;
    Ok(())
}

/// Whether the wishes were answered and the queued messages are confirmed.
pub fn is_done(client: &Client) -> bool
    ensures { IsTrue result ↔ IsDone (state_of client.now) }
{
    client.creates == 0 && client.wishes.is_empty() && client.outbox.is_empty()
}
