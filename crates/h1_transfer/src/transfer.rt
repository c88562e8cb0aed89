//! The bytes of one message each way over a link: a session's link with what is received, the body
//! that is read and the message that is written.
ghost use Rattle.std.specs.Prelude.{◌≡◌, ◌≤◌, ℕ, List, [], length, drop, IfSome, IsSome, Some, None, false};
ghost use Rattle.std.specs.Option.{option_copied};
ghost use Rattle.std.specs.Fn.{FnOnceTakesAtMut, FnOnceReturnsAtMut};
ghost use Rattle.h1_link.specs.Steps.{after_shutdown};
ghost use Rattle.h1_link.specs.Later.{KeepsBytes};

use crate::{BodyState, Memory, Outgoing};
use bytes::BytesMut;
use h1_body::{BodyReader, Framing, Gathering, Payload};
use h1_head::Room;
use h1_link::Link;
use std::alloc::Global;
use std::marker::Model;
use std::mem;

mod reading;
mod writing;

/// A link with what moves over it, each way, for one message at a time.
#[derive(Drop)]
pub struct Transfer<L: Link + Drop> {
    alloc: Global,
    link: L,
    received: BytesMut,
    body: BodyState,
    outgoing: Outgoing,
    budget: Option<u32>,
    /// Memory for small pieces of bytes, which no contract sees.
    room: Room,
    /// How many bytes the last read of the body gave, which no contract sees.
    came: usize,
}

impl<L: Link + Drop> Model for Transfer<L> {
    ghost use Rattle.h1_transfer.specs.TransferView.{TransferView, Settled};

    ghost Value = { TransferView L };

    ghost view = { λ t. record {
      link = t.link;
      received = t.received.items;
      body = t.body;
      outgoing = t.outgoing;
      budget = t.budget;
    } };

    ghost invariant = { λ t. Settled t.outgoing };
}

impl<L: Link + Drop> Transfer<L> {
    ghost use Rattle.h1_body.specs.Reader.{body, reads};
    ghost use Rattle.h1_body.specs.Payload.{no_payload};
    ghost use Rattle.h1_transfer.specs.Decoding.{held_of, noted_of};
    ghost use Rattle.h1_transfer.specs.TransferView.{IsNewTransfer, StartsOver};
    ghost use Rattle.h1_transfer.specs.declared.outgoing.Step.TheVariants.{Free};

    /// A transfer over a link, before the first message.
    pub fn new(alloc: Global, link: L) -> Self
        ensures { IsNewTransfer link result }
    {
        Transfer {
            alloc,
            link,
            received: BytesMut::new(alloc),
            body: BodyState::new(alloc),
            outgoing: Outgoing::new(alloc),
            budget: None,
            room: Room::new(alloc),
            came: 0,
        }
    }

    /// Begins with the next message each way on the same link. What is received and not used stays.
    pub fn start_over(&mut self)
        ensures { StartsOver self.old self.new }
    {
        self.body.start_over();
        self.outgoing.start_over();
    }

    /// Lends the room for small pieces of bytes, with nothing in it. Until it is given back another
    /// stands in.
    pub fn take_room(&mut self) -> Room
        ensures empty { result ≡ [] }
        ensures same { self.new ≡ self.old }
    {
        let mut room = mem::replace(&mut self.room, Room::new(self.alloc));
        room.clear();
        room
    }

    /// Gives the room back.
    pub fn put_room(&mut self, room: Room)
        ensures { self.new ≡ self.old }
    {
        self.room = room;
    }

    /// Changes the memory of the transfer for this, between two messages.
    #[inline(always)]
    pub fn swap_memory(&mut self, memory: &mut Memory)
        requires received { self.old.received ≡ [] }
        requires free { self.old.outgoing.step ≡ Free }
        requires unrefused { self.old.outgoing.refused ≡ None }
        ensures { self.new ≡ self.old }
    {
        self.received.clear();
        mem::swap(&mut self.received, &mut memory.received);
        mem::swap(&mut self.room, &mut memory.room);
        self.outgoing.owed.swap_buffer(&mut memory.head);
    }

    /// The bytes that are received and not used.
    pub fn received(&self) -> &[u8]
        ensures { result.now ≡ self.now.received }
    {
        self.received.as_slice()
    }

    /// The body that is read.
    pub fn body(&self) -> &BodyState
        ensures { result.now ≡ self.now.body }
    {
        &self.body
    }

    /// The message that is written.
    pub fn outgoing(&self) -> &Outgoing
        ensures { result.now ≡ self.now.outgoing }
    {
        &self.outgoing
    }

    /// How many link calls that move bytes all calls together may make from here on; with None each
    /// call has a budget of its own.
    pub fn budget(&self) -> Option<u32>
        ensures { result ≡ self.now.budget }
    {
        self.budget
    }

    pub fn set_budget(&mut self, budget: Option<u32>)
        ensures { self.new ≡ record self.old { budget = budget } }
    {
        self.budget = budget;
    }

    /// Puts bytes in place of those that are received.
    pub fn set_received(&mut self, received: BytesMut)
        ensures { self.new ≡ record self.old { received = received.items } }
    {
        self.received = received;
    }

    /// Passes over received bytes, from the front.
    pub fn skip(&mut self, used: usize)
        requires { used ≤ length self.old.received }
        ensures { self.new ≡ record self.old { received = drop used self.old.received } }
    {
        self.received.advance(used);
    }

    /// Begins to read a body of this framing. What is kept of payload, and whether a read was
    /// pending, stays.
    pub fn begin_body(&mut self, framing: Framing)
        ensures begins { (rest : List ℕ) → reads self.new.body.reader rest ≡ body framing rest }
        ensures rest { self.new
            ≡ record self.old
            { body = record self.old.body { reader = self.new.body.reader; refused = None } } }
    {
        self.body.reader = BodyReader::new(framing);
        self.body.refused = None;
        self.came = 0;
    }

    /// From here on all payload that is read is noted in this, which is lent until it is given back,
    /// and a body whose reading was out of memory, or that goes on past its limit, has failed.
    #[inline(always)]
    pub fn lend_payload(&mut self, payload: &mut Payload)
        ensures kept { self.new
            ≡ record self.old { body = record self.old.body { kept = Some payload.old } } }
        ensures left { payload.new ≡ no_payload payload.old.gathering }
    {
        self.body.kept.lend(self.alloc, payload);
    }

    /// The same with payload of which nothing was read yet.
    #[inline(always)]
    pub fn begin_payload(&mut self, gathering: Gathering)
        ensures { self.new
            ≡ record self.old
            { body = record self.old.body { kept = Some (no_payload gathering) } } }
    {
        self.body.kept.begin(self.alloc, gathering);
    }

    /// Notes no payload from here on, and drops what was noted.
    #[inline(always)]
    pub fn drop_payload(&mut self)
        ensures { self.new ≡ record self.old { body = record self.old.body { kept = None } } }
    {
        self.body.kept.stop();
    }

    /// The payload that was noted, where it is held.
    #[inline(always)]
    pub fn held_payload(&self) -> Option<&[u8]>
        ensures { option_copied result ≡ held_of self.now.body.kept }
    {
        match self.body.kept.get() {
            Some(kept) => kept.held(),
            None => None,
        }
    }

    /// How many bytes of payload were noted: never more than its limit.
    #[inline(always)]
    pub fn payload_len(&self) -> u64
        ensures value { result ≡ length (noted_of self.now.body.kept) }
        ensures within { IfSome self.now.body.kept
            (λ kept. length kept.bytes ≤ kept.gathering.limit) }
    {
        match self.body.kept.get() {
            Some(kept) => kept.len(),
            None => 0,
        }
    }

    /// Gives the payload that was noted back to its place, and notes none from here on.
    #[inline(always)]
    pub fn give_payload_back(&mut self, payload: &mut Payload)
        requires { IsSome self.old.body.kept }
        ensures given { Some payload.new ≡ self.old.body.kept }
        ensures rest { self.new ≡ record self.old { body = record self.old.body { kept = None } } }
    {
        self.body.kept.give_back(payload);
    }

    /// Whether a read of the body was pending since this was last asked.
    pub fn take_waits(&mut self) -> bool
        ensures asked { result ≡ self.old.body.waits }
        ensures rest { self.new
            ≡ record self.old { body = record self.old.body { waits = false } } }
    {
        mem::replace(&mut self.body.waits, false)
    }

    /// Closes the link for both sides.
    pub fn shutdown(&mut self)
        ensures state { L.state self.new.link ≡ after_shutdown (L.state self.old.link) }
        ensures rest { self.new ≡ record self.old { link = self.new.link } }
        ensures plan { L.same_plan self.old.link self.new.link }
    {
        self.link.shutdown();
    }

    pub fn link(&self) -> &L
        ensures { result.now ≡ self.now.link }
    {
        &self.link
    }

    /// Calls a function on the link, which may move none of its bytes.
    pub fn with_link<T, F: FnOnce(&mut L) -> T>(&mut self, f: F) -> T
        requires may { FnOnceTakesAtMut F.FnOnce f self.old.link }
        requires keeps { (answer : T) (link : L)
            → FnOnceReturnsAtMut F.FnOnce f self.old.link answer link
            → KeepsBytes (L.state self.old.link) (L.state link) }
        ensures called { FnOnceReturnsAtMut F.FnOnce f self.old.link result self.new.link }
        ensures rest { self.new ≡ record self.old { link = self.new.link } }
        ensures keeps { KeepsBytes (L.state self.old.link) (L.state self.new.link) }
    {
        call_on(&mut self.link, f)
    }

    pub fn into_link(self) -> L
        ensures { result ≡ self.link }
    {
        self.link
    }

    /// The link, and the bytes that are received and not used.
    pub fn into_parts(self) -> (L, BytesMut)
        ensures { (result.0 ≡ self.link) × (result.1.items ≡ self.received) }
    {
        (self.link, self.received)
    }
}

fn call_on<L, T, F: FnOnce(&mut L) -> T>(link: &mut L, f: F) -> T
    requires { FnOnceTakesAtMut F.FnOnce f link.old }
    ensures { FnOnceReturnsAtMut F.FnOnce f link.old result link.new }
{
    f(link)
}
