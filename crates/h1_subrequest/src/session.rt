//! The session of a subrequest, over the ends of two rings of tasks.
ghost use Rattle.std.specs.Prelude.{◌≡◌, [], false, true, IfOk, IsOkUnless};
ghost use Rattle.h1_error.specs.Memory.{no_memory};
ghost use Rattle.h1_subrequest.specs.SessionView.{first_failure, new_session};

use crate::{BodyReader, BodyWriter};
use bytes::Bytes;
use h1_error::Error;
use h1_head::{RequestHeader, ResponseHeader};
use h1_rings::{OnceTx, TaskRx, TaskTx};
use std::alloc::Global;
use std::marker::Model;
use std::sync::Wait;

mod bodies;
mod replies;
mod requests;

/// The session of a subrequest. It takes the parts of its request from one end, and puts those of
/// the response into the other. Its calls may wait for another thread.
#[derive(Drop)]
pub struct HttpSession<X: TaskTx + Drop, R: TaskRx + Drop, W: Wait + Drop> {
    alloc: Global,
    tx: X,
    rx: R,
    /// Both ends were closed.
    shut: bool,
    /// The bytes that the head is read from.
    raw: Bytes,
    /// Whether the head was read, the head as it is now, and as it was read.
    is_read: bool,
    header: RequestHeader,
    read: RequestHeader,
    /// The fields that tell of a body are off, or will be once the head is read.
    cleared: bool,
    reader: BodyReader<W>,
    /// A call has asked the reader.
    used: bool,
    /// The refusal that each later read of the body answers.
    read_refused: Option<Error>,
    writer: BodyWriter,
    /// The refusal that each later write answers.
    write_refused: Option<Error>,
    /// The header that was put last.
    written: Option<ResponseHeader>,
    /// The first error of the proxy, and where it is told.
    failure: Option<Error>,
    proxy_error: Option<OnceTx<Error, W>>,
}

impl<X: TaskTx + Drop, R: TaskRx + Drop, W: Wait + Drop> Model for HttpSession<X, R, W> {
    ghost use Rattle.h1_subrequest.specs.SessionView.{Sound, SubSession, request_in};

    ghost Value = { SubSession X R };

    ghost view = { λ s. record {
      tx = s.tx;
      rx = s.rx;
      shut = s.shut;
      raw = s.raw;
      request = request_in s.is_read s.header s.read;
      cleared = s.cleared;
      reader = s.reader.body_state;
      used = s.used;
      read_refused = s.read_refused;
      writer = s.writer.body_mode;
      write_refused = s.write_refused;
      written = s.written;
      failure = s.failure;
    } };

    ghost invariant = { λ s. Sound (X.is_closed s.tx) (R.is_closed s.rx) s.shut
        (request_in s.is_read s.header s.read) s.reader.body_state };
}

impl<X: TaskTx + Drop, R: TaskRx + Drop, W: Wait + Drop> HttpSession<X, R, W> {
    /// A session of the subrequest with this head, over the ends of its two rings. The first read of
    /// the body tells `wants_body`, and the first error of the proxy is sent to `proxy_error`. Being
    /// out of memory is the one error.
    pub fn with_ends(
        alloc: Global,
        raw_head: &[u8],
        tx: X,
        rx: R,
        wants_body: Option<OnceTx<(), W>>,
        proxy_error: Option<OnceTx<Error, W>>,
    ) -> Result<Self, Error>
        requires tx { X.is_closed tx ≡ false }
        requires rx { R.is_closed rx ≡ false }
        ensures ok { IfOk result (λ session. session ≡ new_session raw_head.now tx rx) }
        ensures err { IsOkUnless result no_memory }
    {
        Ok(HttpSession {
            alloc,
            tx,
            rx,
            shut: false,
            raw: Bytes::copy_from_slice(alloc, raw_head)?,
            is_read: false,
            header: RequestHeader::new(alloc),
            read: RequestHeader::new(alloc),
            cleared: false,
            reader: BodyReader::new(wants_body),
            used: false,
            read_refused: None,
            writer: BodyWriter::new(),
            write_refused: None,
            written: None,
            failure: None,
            proxy_error,
        })
    }

    /// Whether the ends were closed: no call that puts or takes may follow.
    pub fn is_shut(&self) -> bool
        ensures { result ≡ self.now.shut }
    {
        self.shut
    }

    /// Closes both ends.
    pub fn shutdown(&mut self)
        ensures put { X.puts self.old.tx [] self.new.tx }
        ensures taken { R.takes self.old.rx [] self.new.rx }
        ensures closed { (X.is_closed self.new.tx ≡ true) × (R.is_closed self.new.rx ≡ true) }
        ensures rest { self.new
            ≡ record self.old { tx = self.new.tx; rx = self.new.rx; shut = true } }
    {
        self.tx.close();
        self.rx.close();
        self.shut = true;
    }

    /// Tells of an error of the proxy. The first alone is kept and sent.
    pub fn on_proxy_failure(&mut self, error: Error)
        ensures { self.new
            ≡ record self.old { failure = first_failure self.old.failure error } }
    {
        if self.failure.is_some() {
            return;
        }
        self.failure = Some(error);
        if let Some(told) = self.proxy_error.take() {
            told.send(error);
        }
    }
}
