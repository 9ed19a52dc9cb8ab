//! The response codes.

ghost use Rattle.std.specs.Prelude.{◌≡◌, IfSome};
ghost use Rattle.command_fields.specs.Codes.{number_of_code};
ghost use Rattle.command_fields.specs.declared.response.ResponseCode.{ResponseCode};

/// How a request went: the number of two bytes in the field `code` of an answer, of CreditFault, PublishError,
/// MetadataUpdate and Close. `ResponseCode::NoOffset as u16` and `u16::from` give that number.
#[derive(Clone, Copy, Debug, PartialEq, Eq)]
pub enum ResponseCode {
    /// The request was done.
    Ok = 0x01,
    StreamDoesNotExist = 0x02,
    SubscriptionIdAlreadyExists = 0x03,
    SubscriptionIdDoesNotExist = 0x04,
    StreamAlreadyExists = 0x05,
    /// No leader is open for the stream.
    StreamNotAvailable = 0x06,
    SaslMechanismNotSupported = 0x07,
    AuthenticationFailure = 0x08,
    SaslError = 0x09,
    SaslChallenge = 0x0a,
    AuthenticationFailureLoopback = 0x0b,
    VirtualHostAccessFailure = 0x0c,
    UnknownFrame = 0x0d,
    FrameTooLarge = 0x0e,
    InternalError = 0x0f,
    AccessRefused = 0x10,
    PreconditionFailed = 0x11,
    PublisherDoesNotExist = 0x12,
    /// No offset is kept under the reference.
    NoOffset = 0x13,
}

impl ResponseCode {
    /// The code of a number from 0x01 to 0x13; `None` for every other number.
    pub fn of_number(number: u16) -> Option<ResponseCode>
        ensures found { IfSome result (λ code. number_of_code code ≡ number) }
        ensures only { (code : ResponseCode) → number_of_code code ≡ number → result ≡ Some code }
    {
        match number {
            0x01 => Some(ResponseCode::Ok),
            0x02 => Some(ResponseCode::StreamDoesNotExist),
            0x03 => Some(ResponseCode::SubscriptionIdAlreadyExists),
            0x04 => Some(ResponseCode::SubscriptionIdDoesNotExist),
            0x05 => Some(ResponseCode::StreamAlreadyExists),
            0x06 => Some(ResponseCode::StreamNotAvailable),
            0x07 => Some(ResponseCode::SaslMechanismNotSupported),
            0x08 => Some(ResponseCode::AuthenticationFailure),
            0x09 => Some(ResponseCode::SaslError),
            0x0a => Some(ResponseCode::SaslChallenge),
            0x0b => Some(ResponseCode::AuthenticationFailureLoopback),
            0x0c => Some(ResponseCode::VirtualHostAccessFailure),
            0x0d => Some(ResponseCode::UnknownFrame),
            0x0e => Some(ResponseCode::FrameTooLarge),
            0x0f => Some(ResponseCode::InternalError),
            0x10 => Some(ResponseCode::AccessRefused),
            0x11 => Some(ResponseCode::PreconditionFailed),
            0x12 => Some(ResponseCode::PublisherDoesNotExist),
            0x13 => Some(ResponseCode::NoOffset),
            _ => None,
        }
    }
}

impl From<ResponseCode> for u16 {
    ghost use Rattle.std.specs.Prelude.{◌≡◌};
    ghost use Rattle.command_fields.specs.Codes.{number_of_code};

    ghost from_gives = { λ code number. number ≡ number_of_code code };

    fn from(code: ResponseCode) -> u16 {
        code as u16
    }
}
