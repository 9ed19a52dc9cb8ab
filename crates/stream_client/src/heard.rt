//! What a frame of the server is to a client.

ghost use Rattle.std.specs.Prelude.{◌≡◌, None};
ghost use Rattle.command_all.specs.declared.command.Command.TheVariants.{Data, Admin};
ghost use Rattle.client_terms.specs.Hearing.{frame_of, answer};
ghost use Rattle.stream_client.specs.Hearings.{frame_heard};

use chunk_format::Header;
use command_all::{AdminCommand, Command, DataCommand, Refusal};
use frame_wire::Text;

/// An answer, by its own key, with a response code; that to a query may have a number.
#[derive(Clone, Copy, Debug)]
pub struct Answer {
    pub key: u16,
    pub corr: u32,
    pub code: u16,
    pub content: Option<u64>,
}

/// A frame of the server. Codes are response codes.
#[derive(Clone, Copy, Debug)]
pub enum Heard<'a> {
    /// An answer to a request.
    Answer(Answer),
    /// Ids of a publisher that are stored.
    Confirm {
        publisher: u8,
        ids: &'a [u64],
    },
    /// Ids of a publisher that are refused.
    Error {
        publisher: u8,
        refusals: &'a [Refusal],
    },
    /// A chunk of a subscription, with the number that version 2 tells.
    Delivery {
        sub: u8,
        committed: Option<u64>,
        header: &'a Header,
        payload: &'a [u8],
    },
    /// A credit came for a subscription that there is not.
    Uncredited {
        code: u16,
        sub: u8,
    },
    /// A stream is no longer served here.
    Update {
        code: u16,
        stream: &'a Text,
    },
    /// The greatest frame that the server takes, in bytes.
    Tune {
        frame_max: u32,
    },
    /// The server closes the connection.
    Close {
        code: u16,
    },
    Heartbeat,
    /// Another one.
    Other {
        key: u16,
    },
}

/// An answer without a number.
fn bare_answer<'a>(key: u16, corr: u32, code: u16) -> Heard<'a>
    ensures { frame_heard result ≡ answer (record { key = key; corr = corr; code = code; content = None }) }
{
    Heard::Answer(Answer {
        key,
        corr,
        code,
        content: None,
    })
}

fn data_heard(command: &DataCommand) -> Heard<'_>
    ensures { frame_heard result ≡ frame_of (Data command.now) }
{
    match command {
        DataCommand::PublishConfirm { publisher, items } => Heard::Confirm {
            publisher: *publisher,
            ids: items.as_slice(),
        },
        DataCommand::PublishError { publisher, items } => Heard::Error {
            publisher: *publisher,
            refusals: items.as_slice(),
        },
        DataCommand::SequenceAnswer {
            corr,
            code,
            content,
        } => Heard::Answer(Answer {
            key: 0x8005,
            corr: *corr,
            code: *code,
            content: *content,
        }),
        DataCommand::Deliver {
            sub,
            header,
            payload,
        } => Heard::Delivery {
            sub: *sub,
            committed: None,
            header,
            payload: payload.as_slice(),
        },
        DataCommand::Deliver2 {
            sub,
            committed,
            header,
            payload,
        } => Heard::Delivery {
            sub: *sub,
            committed: Some(*committed),
            header,
            payload: payload.as_slice(),
        },
        DataCommand::CreditFault { code, sub } => Heard::Uncredited {
            code: *code,
            sub: *sub,
        },
        DataCommand::Plain { key, corr, code } => bare_answer(*key, *corr, *code),
        _ => Heard::Other { key: command.key() },
    }
}

fn admin_heard(command: &AdminCommand) -> Heard<'_>
    ensures { frame_heard result ≡ frame_of (Admin command.now) }
{
    match command {
        AdminCommand::MetadataUpdate { code, stream } => Heard::Update {
            code: *code,
            stream,
        },
        AdminCommand::PeerAnswer {
            corr,
            code,
            properties: _,
        } => bare_answer(0x8011, *corr, *code),
        AdminCommand::MechanismAnswer {
            corr,
            code,
            items: _,
        } => bare_answer(0x8012, *corr, *code),
        AdminCommand::SaslAnswer {
            corr,
            code,
            content: _,
        } => bare_answer(0x8013, *corr, *code),
        AdminCommand::Tune {
            frame_max,
            heartbeat: _,
        } => Heard::Tune {
            frame_max: *frame_max,
        },
        AdminCommand::HostAnswer {
            corr,
            code,
            properties: _,
        } => bare_answer(0x8015, *corr, *code),
        AdminCommand::Close {
            corr: _,
            code,
            reason: _,
        } => Heard::Close { code: *code },
        AdminCommand::Heartbeat => Heard::Heartbeat,
        AdminCommand::VersionsAnswer {
            corr,
            code,
            items: _,
        } => bare_answer(0x801b, *corr, *code),
        AdminCommand::Plain { key, corr, code } => bare_answer(*key, *corr, *code),
        _ => Heard::Other { key: command.key() },
    }
}

pub fn frame_of(command: &Command) -> Heard<'_>
    ensures { frame_heard result ≡ frame_of command.now }
{
    match command {
        Command::Data(command) => data_heard(command),
        Command::Admin(command) => admin_heard(command),
    }
}
