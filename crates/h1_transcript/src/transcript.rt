//! What a connection read and wrote, exchange by exchange.
ghost use Rattle.std.specs.Prelude.{◌≡◌, ◌++◌, [], None, Some, IsSome, OnOk, OnErr, IfErr, is_some, length, min, slice_get, option_to_list};
ghost use Rattle.h1_error.specs.Memory.{no_memory};
ghost use Rattle.std.specs.Borrow.{sem};
ghost use Rattle.std.specs.Option.{option_copied};
ghost use Rattle.h1_transcript.specs.declared.history.History.TheVariants.{Forgotten, Kept};

use crate::{Entry, History, Holding};
use h1_error::Error;
use h1_head::RequestHeader;
use h1_server::Settings;
use http_server::Log;
use std::alloc::Global;
use std::marker::Model;

/// How long a connection waits for a head, in seconds.
pub const KEEPALIVE_SECONDS: u64 = 60;

/// The exchanges of a connection, in order. Contracts see those that ended as `done`, and the one
/// that goes on as `last`; where they are forgotten, memory has one place, of the last.
#[derive(Drop)]
pub struct Transcript {
    holding: Holding,
    /// Those that were forgotten. It takes no memory.
    past: Log<Entry, ()>,
    /// How many those are, up to the last number of 64 bits.
    forgotten: usize,
    /// The others. Where exchanges are forgotten, one at most, in whose place the next one begins.
    entries: Vec<Entry>,
    /// How many of the others ended: all, or all but the last.
    ended: usize,
    /// How many bytes of payload those that ended have, up to the last number of 64 bits.
    payload: u64,
}

impl Model for Transcript {
    ghost use Rattle.std.specs.Prelude.{◌≤◌, ◌+◌, ◌^◌, ◌-◌, ◌≡◌, ◌++◌, take, length, min, slice_get};
    ghost use Rattle.h1_transcript.specs.Entries.{TranscriptView, exchanges_of, bodies, ended_entries, KeepsBy};

    ghost Value = { TranscriptView };

    ghost view = { λ t. record {
      holding = t.holding;
      done = ended_entries t.holding.history (exchanges_of t.past.items) t.ended t.entries.items;
      last = slice_get t.entries.items t.ended;
    } };

    // The exchange that goes on is the last.
    ghost invariant = { λ t. (t.ended ≤ length t.entries.items)
        × (length t.entries.items ≤ t.ended + 1)
        × (t.forgotten ≡ min (length (exchanges_of t.past.items)) (2 ^ 64 - 1))
        × KeepsBy t.holding.history (exchanges_of t.past.items) t.entries.items
        × (t.payload ≡ min (length (bodies
        (ended_entries t.holding.history (exchanges_of t.past.items) t.ended t.entries.items)))
        (2 ^ 64 - 1)) };
}

impl Transcript {
    ghost use Rattle.h1_transcript.specs.Entry.{kept_in};
    ghost use Rattle.h1_transcript.specs.Entry.{Entry};
    ghost use Rattle.h1_transcript.specs.Entries.{new_entry, bodies, transcript_entries, with_last};
    ghost use Rattle.h1_transcript.specs.Lending.{LendsLast};
    ghost use Rattle.std.specs.Prelude.{◌^◌, ◌-◌};

    /// No exchange yet.
    pub fn new(alloc: Global, holding: Holding) -> Self
        ensures holding { result.holding ≡ holding }
        ensures done { result.done ≡ [] }
        ensures last { result.last ≡ None }
    {
        Transcript {
            holding,
            past: Log::new(),
            forgotten: 0,
            entries: Vec::new(alloc),
            ended: 0,
            payload: 0,
        }
    }

    /// An exchange begins with this head, where none goes on, with what is set. `both` says whether
    /// Content-Length was dropped from it.
    #[inline(always)]
    pub fn begin(
        &mut self,
        alloc: Global,
        settings: &Settings,
        both: bool,
        head: &RequestHeader,
    ) -> Result<(), Error>
        requires { self.old.last ≡ None }
        ensures ok { OnOk result
            (self.new ≡ with_last self.old (new_entry self.old.holding settings.now both head.now)) }
        ensures err { OnErr result (self.new ≡ self.old) }
        ensures memory { IfErr result (λ error. error ≡ no_memory) }
    {
        match self.holding.history {
            History::Kept => self.begin_kept(alloc, settings, both, head),
            History::Forgotten => {
                if self.entries.is_empty() {
                    self.entries.reserve(1)?;
                    self.entries
                        .push_reserved(Entry::new(alloc, self.holding, settings, both, head));
                } else {
                    self.entries[0].start_over(alloc, self.holding, settings, both, head);
                    self.ended = 0;
                }
                Ok(())
            }
        }
    }

    fn begin_kept(
        &mut self,
        alloc: Global,
        settings: &Settings,
        both: bool,
        head: &RequestHeader,
    ) -> Result<(), Error>
        requires kept { self.old.holding.history ≡ Kept }
        requires none { self.old.last ≡ None }
        ensures ok { OnOk result
            (self.new ≡ with_last self.old (new_entry self.old.holding settings.now both head.now)) }
        ensures err { OnErr result (self.new ≡ self.old) }
        ensures memory { IfErr result (λ error. error ≡ no_memory) }
    {
        // The head is copied to its place in the list, so that no exchange is moved.
        self.push_kept(alloc, settings, both)?;
        let put = self.last_entry().put_head(head);
        if put.is_err() {
            self.drop_last();
        }
        put
    }

    /// An exchange begins that is kept, whose head is still to be put in its place.
    #[inline(always)]
    fn push_kept(&mut self, alloc: Global, settings: &Settings, both: bool) -> Result<(), Error>
        requires kept { self.old.holding.history ≡ Kept }
        requires none { self.old.last ≡ None }
        ensures ok { OnOk result
            ((e : Entry) × (e ≡ new_entry self.old.holding settings.now both e.head)
            × (self.new ≡ with_last self.old e)) }
        ensures err { OnErr result (self.new ≡ self.old) }
        ensures memory { IfErr result (λ error. error ≡ no_memory) }
    {
        self.entries.reserve(1)?;
        self.entries
            .push_reserved(Entry::new_kept(alloc, self.holding, settings, both));
        Ok(())
    }

    /// The exchange that goes on is dropped, as if it had not begun.
    #[cold]
    #[inline(never)]
    fn drop_last(&mut self)
        requires kept { self.old.holding.history ≡ Kept }
        requires last { IsSome self.old.last }
        ensures { self.new ≡ record self.old { last = None } }
    {
        self.entries.truncate(self.ended);
    }

    /// Whether an exchange goes on.
    pub fn goes_on(&self) -> bool
        ensures { result ≡ is_some self.now.last }
    {
        self.entries.get(self.ended).is_some()
    }

    /// The exchange that goes on.
    #[inline(always)]
    pub fn last_entry(&mut self) -> &mut Entry
        requires { IsSome self.old.last }
        ensures* lends { sem 𝓛 (LendsLast self.entry result) }
        ensures value { self.old.last ≡ Some result.now }
    {
        &mut self.entries[self.ended]
    }

    /// The exchange that goes on joins those that ended.
    #[inline(always)]
    pub fn end_last(&mut self)
        requires { IsSome self.old.last }
        ensures holding { self.new.holding ≡ self.old.holding }
        ensures done { self.new.done ≡ self.old.done ++ option_to_list self.old.last }
        ensures last { self.new.last ≡ None }
    {
        match self.holding.history {
            History::Kept => self.end_kept(),
            History::Forgotten => self.end_forgotten(),
        }
    }

    #[inline(always)]
    fn end_kept(&mut self)
        requires kept { self.old.holding.history ≡ Kept }
        requires last { IsSome self.old.last }
        ensures holding { self.new.holding ≡ self.old.holding }
        ensures done { self.new.done ≡ self.old.done ++ option_to_list self.old.last }
        ensures last { self.new.last ≡ None }
    {
        let read = self.entries[self.ended].body_len();
        self.payload = self.payload.saturating_add(read);
        self.ended += 1;
    }

    /// It is noted in contracts alone, and its memory is given back.
    #[inline(always)]
    fn end_forgotten(&mut self)
        requires forgotten { self.old.holding.history ≡ Forgotten }
        requires last { IsSome self.old.last }
        ensures holding { self.new.holding ≡ self.old.holding }
        ensures done { self.new.done ≡ self.old.done ++ option_to_list self.old.last }
        ensures last { self.new.last ≡ None }
    {
        let read = self.entries[self.ended].body_len();
        self.payload = self.payload.saturating_add(read);
        self.past = self.past.and(&self.entries[self.ended], &());
        self.forgotten = self.forgotten.saturating_add(1);
        self.entries[self.ended].release();
        self.ended = 1;
    }

    /// Whether exchanges are kept.
    pub fn history(&self) -> History
        ensures { result ≡ self.now.holding.history }
    {
        self.holding.history
    }

    /// How many exchanges there are, those that were forgotten among them, up to the last number of
    /// 64 bits.
    pub fn len(&self) -> usize
        ensures { result ≡ min (length (transcript_entries self.now)) (2 ^ 64 - 1) }
    {
        let kept = match self.holding.history {
            History::Kept => self.entries.len(),
            History::Forgotten => self.entries.len() - self.ended,
        };
        self.forgotten.saturating_add(kept)
    }

    /// How many bytes of payload were read, up to the last number of 64 bits.
    pub fn payload_len(&self) -> u64
        ensures { result ≡ min (length (bodies (transcript_entries self.now))) (2 ^ 64 - 1) }
    {
        match self.last() {
            Some(entry) => self.payload.saturating_add(entry.body_len()),
            None => self.payload,
        }
    }

    /// The exchange with this index, counted from 0, where exchanges are kept.
    pub fn get(&self, i: usize) -> Option<&Entry>
        ensures { option_copied result
            ≡ kept_in self.now.holding.history (slice_get (transcript_entries self.now) i) }
    {
        match self.holding.history {
            History::Kept => self.entries.get(i),
            History::Forgotten => None,
        }
    }

    /// All exchanges, where they are kept.
    pub fn all(&self) -> Option<&[Entry]>
        ensures { option_copied result
            ≡ kept_in self.now.holding.history (Some (transcript_entries self.now)) }
    {
        match self.holding.history {
            History::Kept => Some(self.entries.as_slice()),
            History::Forgotten => None,
        }
    }

    /// The exchange that goes on, where one does.
    pub fn last(&self) -> Option<&Entry>
        ensures { option_copied result ≡ self.now.last }
    {
        self.entries.get(self.ended)
    }
}
