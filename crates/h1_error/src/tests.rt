//! Names for reports and messages for people.
use crate::{ConnectFault, Error, ErrorType, HeadFault, TaskKind};
use std::test::Fail;

#[test]
fn a_kind_has_a_name_for_reports(rt: HostRuntime) -> Result<(), Fail> {
    let cases: [(ErrorType, &str); 10] = [
        (
            ErrorType::InvalidHTTPHeader(HeadFault::DuplicateHost),
            "InvalidHTTPHeader DuplicateHost",
        ),
        (
            ErrorType::InvalidHTTPHeader(HeadFault::CodingOn10),
            "InvalidHTTPHeader CodingOn10",
        ),
        (ErrorType::ConnectionClosed, "ConnectionClosed"),
        (ErrorType::ReadTimedout, "ReadTimedout"),
        (
            ErrorType::ConnectError(ConnectFault::DialFailed),
            "ConnectError DialFailed",
        ),
        (
            ErrorType::UnexpectedTask(TaskKind::UpgradedBody),
            "UnexpectedTask UpgradedBody",
        ),
        (ErrorType::ModuleFailed(0), "ModuleFailed 0"),
        (
            ErrorType::TaskFailed(4_294_967_295),
            "TaskFailed 4294967295",
        ),
        (ErrorType::NoMemory, "NoMemory"),
        (ErrorType::ContentTooLarge, "ContentTooLarge"),
    ];
    for (kind, text) in cases {
        assert_eq!(rt; kind.text(rt.alloc())?.as_str(), text);
    }
    Ok(())
}

#[test]
fn an_error_has_a_message_for_people(rt: HostRuntime) -> Result<(), Fail> {
    let cases: [(ErrorType, &str); 10] = [
        (
            ErrorType::InvalidHTTPHeader(HeadFault::DuplicateHost),
            "the head is refused: it has more than one Host line",
        ),
        (
            ErrorType::InvalidHTTPHeader(HeadFault::CodingOn10),
            "the head is refused: Transfer-Encoding isn't allowed on HTTP/1.0",
        ),
        (
            ErrorType::ConnectionClosed,
            "the peer closed the connection inside a message",
        ),
        (ErrorType::ReadTimedout, "a read went past its deadline"),
        (
            ErrorType::ConnectError(ConnectFault::DialFailed),
            "no link to the server: the dialer failed",
        ),
        (
            ErrorType::UnexpectedTask(TaskKind::UpgradedBody),
            "a task of kind UpgradedBody doesn't fit here",
        ),
        (
            ErrorType::ModuleFailed(0),
            "a module refused with the number 0",
        ),
        (
            ErrorType::TaskFailed(4_294_967_295),
            "a task failed with the number 4294967295",
        ),
        (ErrorType::NoMemory, "out of memory"),
        (
            ErrorType::ContentTooLarge,
            "the body is longer than what is gathered of one",
        ),
    ];
    for (kind, message) in cases {
        assert_eq!(rt; kind.to_string(rt.alloc())?.as_str(), message);
        assert_eq!(rt; Error::from(kind).to_string(rt.alloc())?.as_str(), message);
    }
    Ok(())
}
