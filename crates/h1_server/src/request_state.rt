//! Where the reading of a request stands.
ghost use Rattle.std.specs.Prelude.{◌≡◌, ℕ, List, MatchOption, None, Some, false};
ghost use Rattle.h1_cut.specs.Search.{HasLooked};
ghost use Rattle.h1_server.specs.SessionView.{request_in};

use crate::Request;
use crate::request_place::RequestPlace;
use h1_error::Error;
use h1_head::HeadSearch;
use std::alloc::Global;

/// Where the reading of a request stands.
#[derive(Drop)]
pub(crate) struct RequestState {
    /// The search for the end of the head among the received bytes, until a head is read.
    pub search: HeadSearch,
    /// The place of the request. What stands in it has a meaning once its head was read.
    pub place: RequestPlace,
    /// Whether the head of the request was read.
    pub is_read: bool,
    /// The refusal that each later read of a head answers.
    pub refused: Option<Error>,
}

impl RequestState {
    /// Before the first byte of a request.
    pub fn new(alloc: Global) -> Self
        ensures none { (result.is_read ≡ false) × (result.refused ≡ None) }
        ensures looked { (limit : ℕ) (bytes : List ℕ) → HasLooked limit result.search bytes }
    {
        RequestState {
            search: HeadSearch::new(),
            place: RequestPlace::new(alloc),
            is_read: false,
            refused: None,
        }
    }

    /// Before the first byte of the next request.
    #[inline(always)]
    pub fn start_over(&mut self)
        ensures none { (self.new.is_read ≡ false) × (self.new.refused ≡ None) }
        ensures looked { (limit : ℕ) (bytes : List ℕ) → HasLooked limit self.new.search bytes }
    {
        self.search = HeadSearch::new();
        self.is_read = false;
        self.refused = None;
    }

    /// The request, once its head was read.
    #[inline(always)]
    pub fn get(&self) -> Option<&Request>
        ensures { MatchOption result (request_in self.now ≡ None)
            (λ request. request_in self.now ≡ Some request.now) }
    {
        if self.is_read {
            Some(&self.place.request)
        } else {
            None
        }
    }
}
