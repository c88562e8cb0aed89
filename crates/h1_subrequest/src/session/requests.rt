//! The head of a subrequest (RFC 9112, section 3), and what is asked of it.
ghost use Rattle.std.specs.Prelude.{◌≡◌, IsSome, IfSome, IfOk, IsOkUnless, OnOk, OnErr, None, Some, is_some, option_map, true, codes, string_bytes};
ghost use Rattle.std.specs.Option.{option_copied};
ghost use Rattle.h1_error.specs.Memory.{no_memory};
ghost use Rattle.h1_subrequest.specs.ReadBody.{is_empty, is_over};
ghost use Rattle.h1_subrequest.specs.Reading.{count_of};
ghost use Rattle.h1_subrequest.specs.SessionHead as spec;
ghost use Rattle.h1_subrequest.specs.SessionHead.{ReadsHead, asked_of, asks, begun, cleared, field_of, is_changed, summary_of, upgrade_by, value_of};
ghost use Rattle.h1_subrequest.specs.WriteBody.{written};

use super::HttpSession;
use crate::ParseState;
use crate::upgrade::completes;
use crate::writer::written;
use futures::task::Poll;
use h1_body::framing_of;
use h1_error::{Error, ErrorType};
use h1_head::{HeadStep, RequestHeader, ResponseHeader, is_upgrade_req, read_request_head};
use h1_rings::{TaskRx, TaskTx};
use std::alloc::Global;
use std::sync::Wait;

impl<X: TaskTx + Drop, R: TaskRx + Drop, W: Wait + Drop> HttpSession<X, R, W> {
    /// Reads the head of the request, and says how many bytes it has, or None where there is no byte.
    /// A head that isn't whole answers `ConnectionClosed`. All bytes are there, so that the call is
    /// never to be repeated at a later moment.
    pub fn poll_read_request(&mut self, now: u64) -> Poll<Result<Option<usize>, Error>>
        requires { self.old.request ≡ None }
        ensures { ReadsHead self.old self.new result }
    {
        let _ = now;
        if self.raw.is_empty() {
            return Poll::Ready(Ok(None));
        }
        let step = match read_request_head(self.alloc, self.raw.as_slice()) {
            Ok(step) => step,
            Err(error) => return Poll::Ready(Err(error)),
        };
        match step {
            HeadStep::NotYet => Poll::Ready(Err(Error::from(ErrorType::ConnectionClosed))),
            HeadStep::Refused(fault) => {
                Poll::Ready(Err(Error::from(ErrorType::InvalidHTTPHeader(fault))))
            }
            HeadStep::Whole(head, len) => match self.begin(head.header) {
                Ok(()) => Poll::Ready(Ok(Some(len))),
                Err(error) => Poll::Ready(Err(error)),
            },
        }
    }

    /// This head was read.
    fn begin(&mut self, head: RequestHeader) -> Result<(), Error>
        ensures ok { OnOk result (self.new ≡ begun self.old (asked_of self.old.cleared head)) }
        ensures err { IsOkUnless result no_memory }
        ensures same { OnErr result (self.new ≡ self.old) }
    {
        let mut head = head;
        if self.cleared {
            clear(&mut head);
        }
        let read = head.copy()?;
        self.reader.body_state = ParseState::of(framing_of(&read));
        self.read = read;
        self.header = head;
        self.is_read = true;
        Ok(())
    }

    /// Whether the head of the request was read.
    pub fn has_request(&self) -> bool
        ensures { result ≡ is_some self.now.request }
    {
        self.is_read
    }

    /// The head of the request.
    pub fn req_header(&self) -> &RequestHeader
        requires { IsSome self.now.request }
        ensures { IfSome self.now.request (λ asked. result.now ≡ asked.header) }
    {
        &self.header
    }

    /// The value of the first line of that name, once the head was read.
    pub fn get_header(&self, name: &[u8]) -> Option<&[u8]>
        ensures { option_map (λ value. value.now) result ≡ field_of name.now self.now.request }
    {
        if self.is_read {
            self.header.get(name)
        } else {
            None
        }
    }

    /// The same, with nothing in the place of no value.
    pub fn get_header_bytes(&self, name: &[u8]) -> &[u8]
        ensures { result.now ≡ value_of (field_of name.now self.now.request) }
    {
        match self.get_header(name) {
            Some(value) => value,
            None => b"",
        }
    }

    /// `METHOD TARGET, Host: HOST (subrequest)`, with `-` in the place of a method before the head was
    /// read. What is no UTF-8 is replaced. Being out of memory is the one error.
    pub fn request_summary(&self) -> Result<String, Error>
        ensures ok { IfOk result (λ text. string_bytes text ≡ summary_of self.now.request) }
        ensures err { IsOkUnless result no_memory }
    {
        let alloc = self.alloc;
        let (method, target) = self.method_and_target();
        let target = String::from_utf8_lossy(alloc, target)?;
        let host = String::from_utf8_lossy(alloc, self.get_header_bytes(b"Host"))?;
        let text = summary_line(alloc, method, target.as_str(), host.as_str())?;
        Ok(text)
    }

    fn method_and_target(&self) -> (&str, &[u8])
        ensures method { result.0.now ≡ spec.method_of self.now.request }
        ensures target { result.1.now ≡ spec.target_of self.now.request }
    {
        if self.is_read {
            (self.header.method().as_str(), self.header.raw_path())
        } else {
            ("-", b"")
        }
    }

    /// Whether the request asks for another protocol (RFC 9110, section 7.8), as its head was read.
    pub fn is_upgrade_req(&self) -> bool
        ensures { result ≡ asks self.now.request }
    {
        self.is_read && is_upgrade_req(&self.read)
    }

    /// Whether this header changes the protocol, or None where the request asks for no other.
    pub fn is_upgrade(&self, header: &ResponseHeader) -> Option<bool>
        ensures { result ≡ upgrade_by self.now.request header.now }
    {
        if self.is_read && is_upgrade_req(&self.read) {
            Some(completes(&self.read, header))
        } else {
            None
        }
    }

    /// Whether the header that was put last changed the protocol.
    pub fn was_upgraded(&self) -> bool
        ensures { result ≡ is_changed self.now.request self.now.written }
    {
        match &self.written {
            Some(header) => self.is_read && completes(&self.read, header),
            None => false,
        }
    }

    /// Takes off the fields that tell of a body, at once or when the head is read. Where no call has
    /// asked the reader yet, there is no body then.
    pub fn clear_request_body_headers(&mut self)
        ensures { self.new ≡ cleared self.old }
    {
        self.cleared = true;
        if self.is_read {
            clear(&mut self.header);
            clear(&mut self.read);
            if !self.used {
                self.reader.body_state = ParseState::Complete(0);
            }
        }
    }

    /// Whether no more of the request's body comes. From here on the reader was asked.
    pub fn is_body_done(&mut self) -> bool
        requires { IsSome self.old.request }
        ensures value { result ≡ is_over self.old.reader }
        ensures rest { self.new ≡ record self.old { used = true } }
    {
        self.used = true;
        self.reader.body_done()
    }

    /// Whether the request's body was read to its end and has no byte. From here on the reader was
    /// asked.
    pub fn is_body_empty(&mut self) -> bool
        requires { IsSome self.old.request }
        ensures value { result ≡ is_empty self.old.reader }
        ensures rest { self.new ≡ record self.old { used = true } }
    {
        self.used = true;
        self.reader.body_empty()
    }

    /// How many bytes of payload were read; it stops at 2^64 - 1.
    pub fn body_bytes_read(&self) -> usize
        ensures { result ≡ count_of self.now.reader }
    {
        self.reader.body_state.count()
    }

    /// How many bytes of payload were put.
    pub fn body_bytes_sent(&self) -> usize
        ensures { result ≡ written self.now.writer }
    {
        written(self.writer.body_mode)
    }

    /// The header that was put last.
    pub fn response_written(&self) -> Option<&ResponseHeader>
        ensures { option_copied result ≡ self.now.written }
    {
        self.written.as_ref()
    }
}

fn summary_line(alloc: Global, method: &str, target: &str, host: &str) -> Result<String, Error>
    ensures ok { IfOk result (λ text.
        string_bytes text ≡ spec.summary_line method.now target.now host.now) }
    ensures err { IsOkUnless result no_memory }
{
    Ok(format!(in alloc; "{method} {target}, Host: {host} (subrequest)")?)
}

/// Takes off the fields that tell of a body.
fn clear(head: &mut RequestHeader)
    ensures { head.new ≡ spec.without_body head.old }
{
    head.remove_header(b"Content-Length");
    head.remove_header(b"Transfer-Encoding");
    head.remove_header(b"Content-Type");
    head.remove_header(b"Content-Encoding");
}
