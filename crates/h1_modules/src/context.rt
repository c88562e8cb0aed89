//! The modules of an exchange.
ghost use Rattle.std.specs.Prelude.{◌≡◌, ◌≢◌, ℕ, [], None, Ok, IfOk, IfErr, OnOk};
ghost use Rattle.std.specs.Bool.{MatchBool};
ghost use Rattle.std.specs.Option.{option_copied, option_copied_mut};
ghost use Rattle.h1_modules.specs.Outcome.{Piece, ErrsBy, refused_by, trailer_error};
ghost use Rattle.h1_modules.specs.Filters.{run, StoppedAt, keeping_buffer, keeping_last};
ghost use Rattle.h1_modules.specs.Context.{module_of, place_of};

use crate::HttpModule;
use crate::filters::{
    filter_request_body, filter_request_header, filter_response_body, filter_response_done,
    filter_response_header, filter_response_trailer,
};
use bytes::Bytes;
use h1_error::Error;
use h1_head::{Fields, RequestHeader, ResponseHeader};
use std::alloc::Global;
use std::marker::Model;

/// The modules of one exchange, in the order in which they run. A contract sees the list of their
/// keys, and the list of the modules.
///
/// A filter runs those of the modules in order, each on what the one before it left, and stops at
/// the first error: the modules before that one have run then, and no other. No filter changes a
/// key or the order.
#[derive(Drop)]
pub struct HttpModuleCtx<M: Drop> {
    keys: Vec<u32>,
    modules: Vec<M>,
}

impl<M: Drop> Model for HttpModuleCtx<M> {
    ghost use Rattle.h1_modules.specs.Context.{ContextView};

    ghost Value = { ContextView M };

    ghost view = { λ c. record { keys = c.keys.items; modules = c.modules.items } };
}

impl<M: Drop> HttpModuleCtx<M> {
    /// No modules. Takes no memory.
    #[inline(always)]
    pub fn empty(alloc: Global) -> Self
        ensures { result ≡ record { keys = []; modules = [] } }
    {
        HttpModuleCtx {
            keys: Vec::new(alloc),
            modules: Vec::new(alloc),
        }
    }

    /// These modules, each with the key at its place.
    pub(crate) fn of(keys: Vec<u32>, modules: Vec<M>) -> Self
        ensures { result ≡ record { keys = keys.items; modules = modules.items } }
    {
        HttpModuleCtx { keys, modules }
    }

    /// Whether there are no modules.
    #[inline(always)]
    pub fn is_empty(&self) -> bool
        ensures { MatchBool result (self.now.modules ≡ []) (self.now.modules ≢ []) }
    {
        self.modules.is_empty()
    }

    /// The module of the key.
    pub fn get(&self, key: u32) -> Option<&M>
        ensures { option_copied result ≡ module_of key self.now }
    {
        match place_of(&self.keys, key) {
            Some(place) => self.modules.get(place),
            None => None,
        }
    }

    ghost use Rattle.std.specs.Borrow.{sem};
    ghost use Rattle.h1_modules.specs.Lends.{lends_module};

    /// The module of the key, to write. No other module changes.
    pub fn get_mut(&mut self, key: u32) -> Option<&mut M>
        ensures* writes_back { sem 𝓛 (lends_module M.row self.entry key result) }
        ensures value { option_copied_mut result ≡ module_of key self.old }
    {
        match place_of(&self.keys, key) {
            Some(place) => self.modules.get_mut(place),
            None => None,
        }
    }
}

impl<M: HttpModule + Drop> HttpModuleCtx<M> {
    /// Filters the head of a request.
    #[inline]
    pub fn request_header_filter(
        &mut self,
        alloc: Global,
        req: &mut RequestHeader,
    ) -> Result<(), Error>
        ensures ok { OnOk result (run M.request_header self.old.modules req.old
            ≡ Ok (self.new.modules, req.new)) }
        ensures err { IfErr result (ErrsBy refused_by
            (run M.request_header self.old.modules req.old)) }
        ensures part { IfErr result (λ error. (count : ℕ)
            × StoppedAt M.request_header refused_by count
            self.old.modules self.new.modules req.old req.new error) }
        ensures keys { self.new.keys ≡ self.old.keys }
    {
        filter_request_header(&mut self.modules, alloc, req)
    }

    /// Filters a piece of a request's body, which may be the last.
    #[inline]
    pub fn request_body_filter(
        &mut self,
        alloc: Global,
        body: &mut Option<Bytes>,
        end: bool,
    ) -> Result<(), Error>
        ensures ok { OnOk result (run (M.request_body end) self.old.modules body.old
            ≡ Ok (self.new.modules, body.new)) }
        ensures err { IfErr result (ErrsBy refused_by
            (run (M.request_body end) self.old.modules body.old)) }
        ensures part { IfErr result (λ error. (count : ℕ)
            × StoppedAt (M.request_body end) refused_by count
            self.old.modules self.new.modules body.old body.new error) }
        ensures keys { self.new.keys ≡ self.old.keys }
    {
        filter_request_body(&mut self.modules, alloc, body, end)
    }

    /// Filters the head of a response, which may have no body.
    #[inline]
    pub fn response_header_filter(
        &mut self,
        alloc: Global,
        resp: &mut ResponseHeader,
        end: bool,
    ) -> Result<(), Error>
        ensures ok { OnOk result (run (M.response_header end) self.old.modules resp.old
            ≡ Ok (self.new.modules, resp.new)) }
        ensures err { IfErr result (ErrsBy refused_by
            (run (M.response_header end) self.old.modules resp.old)) }
        ensures part { IfErr result (λ error. (count : ℕ)
            × StoppedAt (M.response_header end) refused_by count
            self.old.modules self.new.modules resp.old resp.new error) }
        ensures keys { self.new.keys ≡ self.old.keys }
    {
        filter_response_header(&mut self.modules, alloc, resp, end)
    }

    /// Filters a piece of a response's body, which may be the last.
    #[inline]
    pub fn response_body_filter(
        &mut self,
        alloc: Global,
        body: &mut Option<Bytes>,
        end: bool,
    ) -> Result<(), Error>
        ensures ok { OnOk result (run (M.response_body end) self.old.modules body.old
            ≡ Ok (self.new.modules, body.new)) }
        ensures err { IfErr result (ErrsBy refused_by
            (run (M.response_body end) self.old.modules body.old)) }
        ensures part { IfErr result (λ error. (count : ℕ)
            × StoppedAt (M.response_body end) refused_by count
            self.old.modules self.new.modules body.old body.new error) }
        ensures keys { self.new.keys ≡ self.old.keys }
    {
        filter_response_body(&mut self.modules, alloc, body, end)
    }

    /// Filters the trailers of a response. Of several buffers it gives the last, and drops the
    /// others.
    pub fn response_trailer_filter(
        &mut self,
        alloc: Global,
        trailers: &mut Option<Fields>,
    ) -> Result<Option<Bytes>, Error>
        ensures ok { IfOk result (λ buffer.
            run (keeping_buffer M.response_trailer) self.old.modules (trailers.old, None)
            ≡ Ok (self.new.modules, (trailers.new, buffer))) }
        ensures err { IfErr result (ErrsBy trailer_error
            (run (keeping_buffer M.response_trailer) self.old.modules (trailers.old, None))) }
        ensures part { IfErr result (λ error. (count : ℕ) × (buffer : Piece)
            × StoppedAt (keeping_buffer M.response_trailer) trailer_error count
            self.old.modules self.new.modules (trailers.old, None) (trailers.new, buffer) error) }
        ensures keys { self.new.keys ≡ self.old.keys }
    {
        filter_response_trailer(&mut self.modules, alloc, trailers)
    }

    /// Tells the modules that the response is done. Of several buffers it gives the last, and drops
    /// the others.
    pub fn response_done_filter(&mut self, alloc: Global) -> Result<Option<Bytes>, Error>
        ensures ok { IfOk result (λ buffer.
            run (keeping_last M.response_done) self.old.modules None
            ≡ Ok (self.new.modules, buffer)) }
        ensures err { IfErr result (ErrsBy refused_by
            (run (keeping_last M.response_done) self.old.modules None)) }
        ensures part { IfErr result (λ error. (count : ℕ) × (buffer : Piece)
            × StoppedAt (keeping_last M.response_done) refused_by count
            self.old.modules self.new.modules None buffer error) }
        ensures keys { self.new.keys ≡ self.old.keys }
    {
        filter_response_done(&mut self.modules, alloc)
    }
}

/// Where the key stands.
fn place_of(keys: &[u32], key: u32) -> Option<usize>
    ensures { result ≡ place_of key keys.now }
{
    keys.iter().position(|k| *k == key)
}
