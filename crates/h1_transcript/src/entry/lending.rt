//! The payload of an exchange is lent to the session while more of the body may be read.
ghost use Rattle.std.specs.Prelude.{◌≡◌, ◌≤◌, [], length, IfSome, None, Some};
ghost use Rattle.h1_transfer.specs.Decoding.{noted_of};
ghost use Rattle.h1_transcript.specs.Entry.{gathering_of, payload_in};

use crate::Entry;
use h1_link::Link;
use h1_server::HttpSession;

impl Entry {
    /// Lends the session the payload that was read. Most exchanges have none yet, and then nothing
    /// is moved.
    #[inline(always)]
    pub fn lend_payload<L: Link + Drop, C: Drop>(&mut self, session: &mut HttpSession<L, C>)
        ensures session { session.new ≡ record session.old
            { body = record session.old.body { kept = Some (payload_in self.old) } } }
        ensures entry { self.new ≡ record self.old { body = [] } }
    {
        if self.payload.is_fresh() {
            session.begin_payload(self.holding.gathering());
        } else {
            session.lend_payload(&mut self.payload);
        }
    }

    /// Takes the payload back, with what was read meanwhile.
    #[inline(always)]
    pub fn take_payload_back<L: Link + Drop, C: Drop>(&mut self, session: &mut HttpSession<L, C>)
        requires holding { IfSome session.old.body.kept
            (λ kept. kept.gathering ≡ gathering_of self.old.holding) }
        requires body { self.old.body ≡ [] }
        ensures session { session.new
            ≡ record session.old { body = record session.old.body { kept = None } } }
        ensures entry { self.new ≡ record self.old { body = noted_of session.old.body.kept } }
        ensures within { length self.new.body ≤ self.old.holding.limit }
    {
        if session.payload_len() == 0 {
            session.drop_payload();
        } else {
            session.give_payload_back(&mut self.payload);
        }
    }
}
