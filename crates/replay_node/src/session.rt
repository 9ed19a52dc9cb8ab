//! What a connection's commands do: the session's rules.

ghost use Rattle.std.specs.Prelude.{◌≡◌, ◌↔◌, ◌∷◌, ◌++◌, [], Some, IsTrue, IfOk, OnOk};
ghost use Rattle.replay_node.specs.Sessions.{is_declared, is_unnamed, are_simple, is_stream, declare_code, declared, published, credited, joined, ServesOne};

use chunk_format::Entry;
use command_data::{DataCommand, Refusal, Tagged};
use frame_wire::{Octets, Row, Text};
use std::alloc::{AllocError, Global};

/// The id is no publisher's that was declared on its connection.
const NOT_DECLARED: u16 = 0x12;

/// No stream has the name.
const NO_STREAM: u16 = 0x02;

/// The id is a declared publisher's already.
const TAKEN: u16 = 0x11;

/// It was done.
const DONE: u16 = 0x01;

/// The key of the answer to a declaration.
const DECLARED: u16 = 0x8001;

/// The subscription is none.
const NO_SUBSCRIPTION: u16 = 0x04;

/// The messages of one Publish frame, which wait for their commit and then for their confirm.
#[derive(Debug, Drop)]
pub struct Offer {
    pub connection: u64,
    pub publisher: u8,
    pub items: Row<Tagged>,
}

/// A connection: its number, the bytes that are no whole frame yet, and the ids of its publishers.
#[derive(Debug, Drop)]
pub struct Link {
    pub number: u64,
    pub rest: Octets,
    pub publishers: Row<u8>,
}

/// What commands came to: the answers, the publishers behind them, and the frames that were taken.
#[derive(Debug, Drop)]
pub struct Served {
    pub answers: Row<DataCommand>,
    pub publishers: Row<u8>,
    pub offers: Row<Offer>,
}

/// Adds an item to a list.
fn add<T: Drop>(list: &mut Row<T>, item: T) -> Result<(), AllocError>
    ensures { OnOk result (list.new ≡ list.old ++ item ∷ []) }
{
    match list.push(item) {
        Ok(()) => Ok(()),
        Err(_) => Err(AllocError),
    }
}

/// Whether the id is a declared publisher's.
fn has_publisher(publishers: &[u8], publisher: u8) -> bool
    ensures { result ≡ is_declared publisher publishers.now }
{
    for declared in publishers {
        if *declared == publisher {
            return true;
        }
    }
    false
}

/// Whether a reference is null or empty, which is none.
fn has_no_name(reference: &Text) -> bool
    ensures { result ≡ is_unnamed reference.now }
{
    match reference.get() {
        None => true,
        Some(name) => name.is_empty(),
    }
}

/// Whether a text is the name of the stream.
fn names_stream(stream: &[u8], name: &Text) -> bool
    ensures { result ≡ is_stream stream.now name.now }
{
    match name.get() {
        None => false,
        Some(name) => stream == name,
    }
}

/// Whether each entry is a simple one.
fn has_simple_entries(items: &[Tagged]) -> bool
    ensures { result ≡ are_simple items.now }
{
    for item in items {
        match &item.entry {
            Entry::Simple(_) => {}
            Entry::Batch { .. } => return false,
        }
    }
    true
}

/// The code that answers a declaration of this id on the stream of this name.
fn code_of(stream: &[u8], publishers: &[u8], publisher: u8, name: &Text) -> u16
    ensures { result ≡ declare_code stream.now publishers.now publisher name.now }
{
    if !names_stream(stream, name) {
        return NO_STREAM;
    }
    if has_publisher(publishers, publisher) {
        return TAKEN;
    }
    DONE
}

/// Declares a publisher without a name, and answers.
fn declare(
    served: &mut Served,
    stream: &[u8],
    corr: u32,
    publisher: u8,
    name: &Text,
) -> Result<(), AllocError>
    ensures { OnOk result (served.new ≡ joined served.old (declared stream.now served.old.publishers corr publisher name.now)) }
{
    let code = code_of(stream, served.publishers.as_slice(), publisher, name);
    if code == DONE {
        add(&mut served.publishers, publisher)?;
    }
    add(
        &mut served.answers,
        DataCommand::Plain {
            key: DECLARED,
            corr,
            code,
        },
    )
}

/// The refusal of each message of an undeclared publisher.
fn refusals(alloc: Global, items: &[Tagged]) -> Result<Row<Refusal>, AllocError>
    ensures { IfOk result (λ refused. refused ≡ Rattle.replay_node.specs.Sessions.refusals items.now) }
{
    let mut refused = Row::new(alloc);
    for item in items {
        add(
            &mut refused,
            Refusal {
                id: item.id,
                code: NOT_DECLARED,
            },
        )?;
    }
    Ok(refused)
}

/// Takes the messages of a declared publisher, and refuses those of another.
fn publish(
    alloc: Global,
    served: &mut Served,
    connection: u64,
    publisher: u8,
    items: Row<Tagged>,
) -> Result<(), AllocError>
    ensures { OnOk result (served.new ≡ joined served.old (published connection served.old.publishers publisher items)) }
{
    if items.as_slice().is_empty() {
        return Ok(());
    }
    if has_publisher(served.publishers.as_slice(), publisher) {
        return add(
            &mut served.offers,
            Offer {
                connection,
                publisher,
                items,
            },
        );
    }
    let items = refusals(alloc, items.as_slice())?;
    add(
        &mut served.answers,
        DataCommand::PublishError { publisher, items },
    )
}

/// Answers credit, as no subscription can be.
fn credit(served: &mut Served, sub: u8) -> Result<(), AllocError>
    ensures { OnOk result (served.new ≡ joined served.old (credited served.old.publishers sub)) }
{
    add(
        &mut served.answers,
        DataCommand::CreditFault {
            code: NO_SUBSCRIPTION,
            sub,
        },
    )
}

/// Serves one command of a connection, or answers that it is not served.
fn serve(
    alloc: Global,
    connection: u64,
    stream: &[u8],
    command: DataCommand,
    served: &mut Served,
) -> Result<bool, AllocError>
    ensures { IfOk result (λ done. ServesOne done (Rattle.replay_node.specs.Sessions.serve connection stream.now served.old.publishers command) served.old served.new) }
{
    match command {
        DataCommand::DeclarePublisher {
            corr,
            publisher,
            reference,
            stream: name,
        } => {
            if !has_no_name(&reference) {
                return Ok(false);
            }
            declare(served, stream, corr, publisher, &name)?;
            Ok(true)
        }
        DataCommand::Publish { publisher, items } => {
            if !has_simple_entries(items.as_slice()) {
                return Ok(false);
            }
            publish(alloc, served, connection, publisher, items)?;
            Ok(true)
        }
        DataCommand::Credit { sub, .. } => {
            credit(served, sub)?;
            Ok(true)
        }
        _ => Ok(false),
    }
}

/// A list of the same ids.
fn copy_ids(alloc: Global, ids: &[u8]) -> Result<Row<u8>, AllocError>
    ensures { IfOk result (λ copied. copied ≡ ids.now) }
{
    let mut copied = Row::new(alloc);
    for id in ids {
        add(&mut copied, *id)?;
    }
    Ok(copied)
}

/// Serves commands of a connection in order: what they came to, or `None` where one of them is not served.
pub(crate) fn serve_all(
    alloc: Global,
    connection: u64,
    stream: &[u8],
    publishers: &[u8],
    commands: Row<DataCommand>,
) -> Result<Option<Served>, AllocError>
    ensures { IfOk result (λ answer. answer ≡ Rattle.replay_node.specs.Sessions.serve_all connection stream.now publishers.now commands) }
{
    let mut served = Served {
        answers: Row::new(alloc),
        publishers: copy_ids(alloc, publishers)?,
        offers: Row::new(alloc),
    };
    for command in commands.into_vec() {
        if !serve(alloc, connection, stream, command, &mut served)? {
            return Ok(None);
        }
    }
    Ok(Some(served))
}
