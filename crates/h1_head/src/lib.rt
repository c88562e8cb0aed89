//! The heads of requests and responses: their parts, their bytes and their dates, and the reading
//! of a head; replies as tasks, replies that tell an error, and whether one needs no sending since
//! the client holds it (RFC 9110, section 13).
#![tactic(auto)]

mod boxed;
mod conditional_filter;
mod date;
mod error_resp;
mod etag;
mod head_buffer;
mod http_date;
mod interim;
mod laws;
mod limits;
mod line;
mod normal;
mod parts;
mod reading_laws;
mod request;
mod request_checks;
mod request_grammar;
mod request_head;
mod response;
mod response_grammar;
mod response_head;
mod response_laws;
mod room;
mod syntax;
mod task;
mod upgrade;
mod version;
mod wire;

pub use conditional_filter::{not_modified_filter, to_304};
pub use date::{CacheableDate, get_cached_date};
pub use error_resp::{SERVER_NAME, gen_error_response, http_400_response, http_502_response};
pub use etag::weak_validate_etag;
pub use h1_authority::{
    RawTargetAuthority, has_ambiguous_port_suffix, is_http_family_scheme, raw_target_authority,
};
pub use h1_cut::{HeadSearch, LookedAt, Steps};
pub use h1_fields::{ContentLength, Fields, FieldsIter, ValuesIter};
pub use head_buffer::HeadBuffer;
pub use http_date::{req_header_as_http_date, resp_header_as_http_date};
pub use interim::is_interim;
pub use laws::{dates_are_unique, replies_keep_their_framing};
pub use limits::{MAX_HEADER_SIZE, MAX_HEADERS};
pub use reading_laws::{
    request_heads_are_stable, request_heads_are_unique, request_heads_end_with_their_grammar,
    request_heads_have_no_front,
};
pub use request::RequestHeader;
pub use request_checks::{validate_request, validate_request_authority};
pub use request_grammar::FEW_HEADERS;
pub use request_head::{
    HeadEnd, HeadStep, RequestHead, Verdict, find_head_end, judge_front, judge_head,
    read_request_head, search_request_head,
};
pub use response::ResponseHeader;
pub use response_head::{
    ResponseFound, ResponseHead, ResponseStep, read_response_head, search_response_head,
};
pub use response_laws::{
    heads_of_the_grammar_are_normal, response_heads_are_stable, response_heads_are_unique,
};
pub use room::Room;
pub use task::HttpTask;
pub use upgrade::{is_upgrade_req, is_upgrade_resp};
pub use version::is_http_1;
pub use wire::{
    http_req_header_to_wire, print_reply_head, push_request_head, push_response_head,
    request_target_has_forbidden_byte,
};
