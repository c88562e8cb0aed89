//! One exchange: what was read of a request, what the application replied and what was sent.
ghost use Rattle.std.specs.Prelude.{◌≡◌, [], Some, None, IsSome, OnOk, IfOk, IfErr, IfSome, true, false};
ghost use Rattle.h1_error.specs.Memory.{no_memory};

use crate::held::{Held, drop_copy, see_in};
use crate::{History, Holding, Reply};
use bytes::Bytes;
use h1_body::Payload;
use h1_error::Error;
use h1_head::{RequestHeader, ResponseHeader};
use h1_server::Settings;
use std::alloc::Global;
use std::marker::Model;
use std::snapshot::Snapshot;

mod getters;
mod lending;

/// How a request's body stood when its reply was made.
#[derive(Clone, Copy, Debug, PartialEq, Eq)]
pub enum How {
    /// It was not read to its end.
    Open,
    Whole,
    Failed,
}

/// One exchange. Contracts see all of it. Where the connection forgets its exchanges, memory has no
/// copy of the heads and of what was sent.
#[derive(Drop)]
pub struct Entry {
    holding: Holding,
    head: Held<RequestHeader>,
    /// Whether the head for the application isn't the one that was read.
    is_changed: bool,
    /// The head for the application, where it isn't.
    filtered: Option<Held<RequestHeader>>,
    payload: Payload,
    handed: u64,
    body_error: Option<Error>,
    read_limit: Option<u64>,
    how: How,
    began: Settings,
    left: Settings,
    replied: bool,
    reply: Option<Reply>,
    headed: bool,
    sent_head: Option<Held<ResponseHeader>>,
    bodied: bool,
    sent_body: Option<Held<Bytes>>,
    written: u64,
    date: u64,
    date_text: [u8; 29],
    both: bool,
    keep: bool,
    owed: bool,
}

impl Model for Entry {
    ghost use Rattle.std.specs.Prelude.{◌≡◌, option_map, IfSome};
    ghost use Rattle.h1_transcript.specs.Entry.{Entry, gathering_of};
    ghost use Rattle.h1_transcript.specs.Held.{HoldsBy, filtered_of, shown_if, value_of};

    ghost Value = { Entry };

    ghost view = { λ e. record {
      holding = e.holding;
      head = value_of e.head;
      filtered = filtered_of e.is_changed e.head e.filtered;
      body = e.payload.bytes;
      handed = e.handed;
      body_error = e.body_error;
      read_limit = e.read_limit;
      how = e.how;
      began = e.began;
      left = e.left;
      reply = shown_if e.replied e.reply;
      sent_head = shown_if e.headed (option_map value_of e.sent_head);
      sent_body = shown_if e.bodied (option_map value_of e.sent_body);
      written = e.written;
      date = e.date;
      date_text = e.date_text;
      both = e.both;
      keep = e.keep;
      owed = e.owed;
    } };

    // What is kept is in memory, and what is forgotten isn't.
    ghost invariant = { λ e. HoldsBy e.holding.history e.head
        × IfSome e.filtered (HoldsBy e.holding.history)
        × IfSome e.sent_head (HoldsBy e.holding.history)
        × IfSome e.sent_body (HoldsBy e.holding.history)
        × (e.payload.gathering ≡ gathering_of e.holding) };
}

impl Entry {
    ghost use Rattle.h1_transcript.specs.Entries.{new_entry};
    ghost use Rattle.h1_transcript.specs.Held.{HoldsBy, value_of};
    ghost use Rattle.h1_transcript.specs.declared.history.History.TheVariants.{Forgotten, Kept};

    /// An exchange that is forgotten, of which nothing was read after this head.
    #[inline(always)]
    pub(crate) fn new(
        alloc: Global,
        holding: Holding,
        settings: &Settings,
        both: bool,
        head: &RequestHeader,
    ) -> Self
        requires { holding.history ≡ Forgotten }
        ensures { result ≡ new_entry holding settings.now both head.now }
    {
        let head = Held::Seen(Snapshot::of(head));
        Entry::begun(alloc, holding, settings, both, head)
    }

    /// One that is kept, whose head is still to be put in its place.
    #[inline(always)]
    pub(crate) fn new_kept(alloc: Global, holding: Holding, settings: &Settings, both: bool) -> Self
        requires { holding.history ≡ Kept }
        ensures { result ≡ new_entry holding settings.now both result.head }
    {
        let head = Held::Copy(RequestHeader::new(alloc));
        Entry::begun(alloc, holding, settings, both, head)
    }

    /// One with this head, of which nothing was read after it.
    #[inline(always)]
    fn begun(
        alloc: Global,
        holding: Holding,
        settings: &Settings,
        both: bool,
        head: Held<RequestHeader>,
    ) -> Self
        requires { HoldsBy holding.history head }
        ensures { result ≡ new_entry holding settings.now both (value_of head) }
    {
        Entry {
            holding,
            head,
            is_changed: false,
            filtered: None,
            payload: Payload::new(alloc, holding.gathering()),
            handed: 0,
            body_error: None,
            read_limit: None,
            how: How::Open,
            began: *settings,
            left: *settings,
            replied: false,
            reply: None,
            headed: false,
            sent_head: None,
            bodied: false,
            sent_body: None,
            written: 0,
            date: 0,
            date_text: [0; 29],
            both,
            keep: false,
            owed: false,
        }
    }

    /// One that is forgotten, in the place of one that ended.
    #[inline(always)]
    pub(crate) fn start_over(
        &mut self,
        alloc: Global,
        holding: Holding,
        settings: &Settings,
        both: bool,
        head: &RequestHeader,
    )
        requires { holding.history ≡ Forgotten }
        ensures { self.new ≡ new_entry holding settings.now both head.now }
    {
        self.holding = holding;
        self.payload.start_over(alloc, holding.gathering());
        self.head.see(head);
        self.is_changed = false;
        drop_copy(&mut self.filtered);
        self.handed = 0;
        self.body_error = None;
        self.read_limit = None;
        self.how = How::Open;
        self.began = *settings;
        self.left = *settings;
        self.replied = false;
        self.headed = false;
        drop_copy(&mut self.sent_head);
        self.bodied = false;
        drop_copy(&mut self.sent_body);
        self.written = 0;
        self.date = 0;
        self.date_text = [0; 29];
        self.both = both;
        self.keep = false;
        self.owed = false;
    }

    /// Lets the payload and the reply go. The reply's header, and a block of its body that nobody
    /// shares and that has at most 64 KiB, stay in their places until the next reply comes there.
    #[inline(always)]
    pub(crate) fn release(&mut self)
        ensures { self.new ≡ record self.old { body = []; reply = None } }
    {
        self.payload.clear();
        self.replied = false;
        if let Some(reply) = &mut self.reply {
            reply.body.clear();
        }
    }

    /// Puts the head in its place, for the application too. With an error what stands there has no
    /// meaning.
    #[inline(always)]
    pub(crate) fn put_head(&mut self, head: &RequestHeader) -> Result<(), Error>
        ensures ok { OnOk result (self.new
            ≡ record self.old { head = head.now; filtered = Some head.now }) }
        ensures err { IfErr result (λ error. error ≡ no_memory) }
    {
        self.is_changed = false;
        self.head.put(head)
    }

    /// Notes what the filters made of the head. Without memory for it there is none.
    pub fn note_filtered(&mut self, head: &RequestHeader) -> Result<(), Error>
        ensures ok { OnOk result (self.new ≡ record self.old { filtered = Some head.now }) }
        ensures err { IfErr result (λ error. (error ≡ no_memory)
            × (self.new ≡ record self.old { filtered = None })) }
    {
        self.drop_filtered();
        self.filtered = Some(match self.holding.history {
            History::Kept => Held::Copy(head.copy()?),
            History::Forgotten => Held::Seen(Snapshot::of(head)),
        });
        Ok(())
    }

    /// There is no head for the application.
    #[cold]
    #[inline(never)]
    pub fn drop_filtered(&mut self)
        ensures { self.new ≡ record self.old { filtered = None } }
    {
        self.is_changed = true;
        self.filtered = None;
    }

    /// Notes how the body stands, and what is set, behind a call of the application that was handed
    /// so many bytes of it.
    #[inline(always)]
    pub fn note_reading(
        &mut self,
        handed: u64,
        body_error: Option<Error>,
        read_limit: Option<u64>,
        how: How,
        left: &Settings,
    )
        ensures { self.new ≡ record self.old {
          handed = handed;
          body_error = body_error;
          read_limit = read_limit;
          how = how;
          left = left.now;
        } }
    {
        self.handed = handed;
        self.body_error = body_error;
        self.read_limit = read_limit;
        self.how = how;
        self.left = *left;
    }

    /// Notes what the application replied.
    #[inline(always)]
    pub fn note_reply(&mut self, reply: Reply)
        ensures { self.new ≡ record self.old { reply = Some reply } }
    {
        self.reply = Some(reply);
        self.replied = true;
    }

    /// Notes the header that was taken up.
    #[inline(always)]
    pub fn note_header(
        &mut self,
        header: ResponseHeader,
        second: u64,
        date_text: [u8; 29],
        keep: bool,
        written: u64,
    )
        ensures { self.new ≡ record self.old {
          sent_head = Some header;
          date = second;
          date_text = date_text;
          keep = keep;
          owed = true;
          written = written;
        } }
    {
        match self.holding.history {
            History::Kept => self.sent_head = Some(Held::Copy(header)),
            History::Forgotten => see_in(&mut self.sent_head, &header),
        }
        self.headed = true;
        self.note_taken_up(second, date_text, keep, written);
    }

    /// Notes that the reply's own header was taken up.
    #[inline(always)]
    pub fn note_own_header(&mut self, second: u64, date_text: [u8; 29], keep: bool, written: u64)
        requires reply { IsSome self.old.reply }
        requires forgotten { self.old.holding.history ≡ Forgotten }
        ensures { IfSome self.old.reply (λ reply. self.new ≡ record self.old {
          sent_head = Some reply.header;
          date = second;
          date_text = date_text;
          keep = keep;
          owed = true;
          written = written;
        }) }
    {
        match &self.reply {
            Some(reply) => see_in(&mut self.sent_head, &reply.header),
            None => unreachable!(),
        }
        self.headed = true;
        self.note_taken_up(second, date_text, keep, written);
    }

    #[inline(always)]
    fn note_taken_up(&mut self, second: u64, date_text: [u8; 29], keep: bool, written: u64)
        ensures { self.new ≡ record self.old {
          date = second;
          date_text = date_text;
          keep = keep;
          owed = true;
          written = written;
        } }
    {
        self.date = second;
        self.date_text = date_text;
        self.keep = keep;
        self.owed = true;
        self.written = written;
    }

    /// Notes what the modules made of the reply's body, and hands it out again.
    #[inline(always)]
    pub fn note_body(&mut self, sent: Bytes) -> Result<Bytes, Error>
        ensures ok { IfOk result (λ same. (same ≡ sent)
            × (self.new ≡ record self.old { sent_body = Some sent })) }
        ensures err { IfErr result (λ error. (error ≡ no_memory) × (self.new ≡ self.old)) }
    {
        match self.holding.history {
            History::Kept => self.sent_body = Some(Held::Copy(sent.clone()?)),
            History::Forgotten => see_in(&mut self.sent_body, &sent),
        }
        self.bodied = true;
        Ok(sent)
    }

    /// Notes how many bytes of the reply were written.
    #[inline(always)]
    pub fn note_written(&mut self, written: u64)
        ensures { self.new ≡ record self.old { written = written } }
    {
        self.written = written;
    }

    /// Notes that the reply is flushed.
    #[inline(always)]
    pub fn note_flushed(&mut self)
        ensures { self.new ≡ record self.old { owed = false } }
    {
        self.owed = false;
    }

    /// The body of the reply, to be held by others too.
    #[inline(always)]
    pub fn share_body(&mut self) -> Result<Bytes, Error>
        requires { IsSome self.old.reply }
        ensures ok { IfOk result (λ body. IfSome self.old.reply (λ reply. body ≡ reply.body)) }
        ensures err { IfErr result (λ error. error ≡ no_memory) }
        ensures kept { self.new ≡ self.old }
    {
        match &mut self.reply {
            Some(reply) => reply.body.share(),
            None => unreachable!(),
        }
    }
}
