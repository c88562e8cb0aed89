//! The place that requests are read into, one after the other.
use crate::Request;
use h1_head::FEW_HEADERS;
use httparse::spans::{EMPTY_HEADER_SPAN, HeaderSpan};
use std::alloc::Global;

/// The place of a request, where the next one is read into.
#[derive(Drop)]
pub(crate) struct RequestPlace {
    pub request: Request,
    /// Where the parser puts the places of the lines. They stay from one request to the next, so
    /// that they aren't cleared for each.
    pub spans: [HeaderSpan; FEW_HEADERS],
}

impl RequestPlace {
    /// A place with no request in it. Takes no memory. It promises nothing of what stands in it,
    /// which has no meaning until a head is read into it.
    #[inline(always)]
    pub fn new(alloc: Global) -> Self {
        RequestPlace {
            request: Request::new(alloc),
            spans: [EMPTY_HEADER_SPAN; FEW_HEADERS],
        }
    }
}
