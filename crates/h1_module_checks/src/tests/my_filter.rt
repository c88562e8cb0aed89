//! A filter for tests, which sets a field by what stands there.
ghost use Rattle.std.specs.Prelude.{◌&&◌, Ok, if◌then◌else◌, codes};
ghost use Rattle.h1_fields.specs.Lines.{has_line, with_line};

use h1_error::Error;
use h1_head::{RequestHeader, ResponseHeader};
use h1_modules::HeadFilter;
use std::alloc::Global;

/// Sets `my-filter` to 1, or to 2 where it counts and the field is there.
#[derive(Clone, Copy)]
pub(crate) struct SetsMyFilter {
    pub(crate) counts: bool,
}

impl HeadFilter for SetsMyFilter {
    ghost request = { λ filter req. Ok (record req {
      fields = with_line (codes "my-filter") (if filter.counts && has_line (codes "my-filter") req.fields
          then codes "2" else codes "1") req.fields;
    }) };

    #[tactic(auto, unfolding(httparse::specs::Grammar::is_token_byte))]
    fn filter_request(&self, _: Global, req: &mut RequestHeader) -> Result<(), Error> {
        let value = if self.counts && req.fields().contains(b"my-filter") {
            b"2"
        } else {
            b"1"
        };
        req.insert_header(b"my-filter", value)
    }

    fn filter_response(&self, _: Global, _: &mut ResponseHeader) -> Result<(), Error> {
        Ok(())
    }
}
