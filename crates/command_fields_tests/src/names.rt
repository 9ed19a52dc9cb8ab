use command_fields::{DecodeError, DecodeFault, ResponseCode};
use std::alloc::Global;
use std::process::Abort;
use std::test::Fail;

/// Every fault at a place, and its text.
const TEXTS: [(DecodeFault, &str); 7] = [
    (
        DecodeFault::UnknownKey { place: 0 },
        "unknown command key, at 0",
    ),
    (
        DecodeFault::Version { place: 2 },
        "unknown command version, at 2",
    ),
    (
        DecodeFault::Short { place: 4 },
        "the field ends early, at 4",
    ),
    (
        DecodeFault::Long { place: 10 },
        "bytes follow the last field, at 10",
    ),
    (DecodeFault::Negative { place: 9 }, "negative length, at 9"),
    (DecodeFault::Flag { place: 5 }, "wrong flag, at 5"),
    (
        DecodeFault::OffsetType { place: 12 },
        "unknown offset type, at 12",
    ),
];

fn reads<R: Abort>(rt: &R, alloc: Global, fault: DecodeFault, text: &str) -> Result<(), Fail> {
    let written = format!(in alloc; "{fault}")?;
    assert_eq!(rt; written.as_str(), text);
    Ok(())
}

#[test]
fn faults_and_errors_have_texts(rt: HostRuntime) -> Result<(), Fail> {
    for (fault, text) in TEXTS {
        reads(&rt, rt.alloc(), fault, text)?;
    }
    let error = DecodeError::Fault(DecodeFault::Flag { place: 5 });
    let written = format!(in rt.alloc(); "{error}")?;
    assert_eq!(rt;
        written.as_str(),
        "the body is no command: wrong flag, at 5"
    );
    let error = DecodeError::Memory;
    let written = format!(in rt.alloc(); "{error}")?;
    assert_eq!(rt; written.as_str(), "memory ran out");
    Ok(())
}

/// The names of the codes, from 1 on.
const CODES: [&str; 19] = [
    "Ok",
    "StreamDoesNotExist",
    "SubscriptionIdAlreadyExists",
    "SubscriptionIdDoesNotExist",
    "StreamAlreadyExists",
    "StreamNotAvailable",
    "SaslMechanismNotSupported",
    "AuthenticationFailure",
    "SaslError",
    "SaslChallenge",
    "AuthenticationFailureLoopback",
    "VirtualHostAccessFailure",
    "UnknownFrame",
    "FrameTooLarge",
    "InternalError",
    "AccessRefused",
    "PreconditionFailed",
    "PublisherDoesNotExist",
    "NoOffset",
];

/// The code of a number has this name, and that number again.
fn is_named<R: Abort>(rt: &R, alloc: Global, number: u16, name: &str) -> Result<(), Fail> {
    let Some(code) = ResponseCode::of_number(number) else {
        return Err(Fail::from("it has no name"));
    };
    assert_eq!(rt; u16::from(code), number);
    let written = format!(in alloc; "{code:?}")?;
    assert_eq!(rt; written.as_str(), name);
    Ok(())
}

#[test]
fn response_codes_have_names(rt: HostRuntime) -> Result<(), Fail> {
    let mut number = 1u16;
    for name in CODES {
        is_named(&rt, rt.alloc(), number, name)?;
        number = number.wrapping_add(1);
    }
    assert_eq!(rt; ResponseCode::of_number(0), None);
    assert_eq!(rt; ResponseCode::of_number(number), None);
    Ok(())
}
