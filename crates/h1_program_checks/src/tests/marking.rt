//! What the modules make of heads, by example.
use bytes::BytesMut;
use h1_app::{HeadModule, HttpModule};
use h1_error::{Error, ErrorType};
use h1_head::{RequestHeader, ResponseHeader};
use h1_marking::Marking;
use std::alloc::Global;
use std::process::Abort;

/// The lines of a header of one line, behind this module.
fn lines_behind(alloc: Global, marking: Marking) -> Result<BytesMut, Error> {
    let mut resp = ResponseHeader::build(alloc, 200, None)?;
    resp.append_header(b"content-length", b"6")?;
    let mut module = HeadModule::new(marking, 1);
    module.response_header_filter(alloc, &mut resp, false)?;
    let mut lines = BytesMut::new(alloc);
    resp.header_to_h1_wire(&mut lines)?;
    Ok(lines)
}

/// Why this module refuses a request for this target, if it does.
fn refusal_of(alloc: Global, marking: Marking, target: &[u8]) -> Result<Option<Error>, Error> {
    let mut req = RequestHeader::build(alloc, b"GET", target, None)?;
    let mut module = HeadModule::new(marking, 1);
    let refused = module.request_header_filter(alloc, &mut req).err();
    Ok(refused)
}

/// Whether the lines of that header behind this module are these.
fn makes(rt: &(impl Abort + AllocGlobal), marking: Marking, expected: &[u8]) -> bool {
    let lines = lines_behind(rt.alloc(), marking).expect(rt, "memory");
    lines.as_slice() == expected
}

#[test]
fn a_mark_stands_behind_the_other_lines(rt: HostRuntime) {
    let marked = b"content-length: 6\r\nx-mark: 7\r\n";
    assert!(rt; makes(&rt, Marking::Mark(7), marked));
    assert!(rt; makes(&rt, Marking::Refuse(7), b"content-length: 6\r\n"));
}

#[test]
fn one_target_is_refused(rt: HostRuntime) {
    let refused = Some(Error::from(ErrorType::ModuleFailed(9)));
    let cases: [(Marking, &[u8], Option<Error>); 6] = [
        (Marking::Refuse(9), b"/refuse", refused),
        (Marking::Refuse(9), b"/refuse/", None),
        (Marking::Refuse(9), b"/", None),
        (Marking::Mark(9), b"/refuse", None),
        (Marking::Mark(9), b"/refuse/", None),
        (Marking::Mark(9), b"/", None),
    ];
    for (marking, target, expected) in cases {
        let found = refusal_of(rt.alloc(), marking, target).expect(&rt, "a target");
        assert_eq!(rt; found, expected);
    }
}
