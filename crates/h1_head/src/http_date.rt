//! Values that are dates (RFC 9110, section 5.6.7).
ghost use Rattle.std.specs.Prelude.{MatchOption};
ghost use Rattle.std.specs.Option.{option_copied};
ghost use Rattle.h1_fields.specs.Lines.{first_value};
ghost use Rattle.httpdate.specs.declared.date.HttpDate.{HttpDate as Date};
ghost use Rattle.h1_head.specs.ValueDates.{IsDate, IsDateOf};

use crate::{RequestHeader, ResponseHeader};
use h1_error::{Error, ErrorType, HeadFault};
use httpdate::HttpDate;

/// The date that the first line of this name states, or none where there is no such line. A value
/// that is no date is refused.
pub fn req_header_as_http_date(req: &RequestHeader, name: &[u8]) -> Result<Option<HttpDate>, Error>
    ensures { IsDateOf (first_value name.now req.now.fields) result }
{
    date_of(req.get(name))
}

/// The same of a response.
pub fn resp_header_as_http_date(
    resp: &ResponseHeader,
    name: &[u8],
) -> Result<Option<HttpDate>, Error>
    ensures { IsDateOf (first_value name.now resp.now.fields) result }
{
    date_of(resp.get(name))
}

/// The date of a value, where there is one.
fn date_of(value: Option<&[u8]>) -> Result<Option<HttpDate>, Error>
    ensures { IsDateOf (option_copied value.entry) result }
{
    let Some(value) = value else {
        return Ok(None);
    };
    match read_date(value) {
        Some(date) => Ok(Some(date)),
        None => Err(Error::from(ErrorType::InvalidHTTPHeader(HeadFault::BadDate))),
    }
}

/// The date that a value states, if it is one.
pub(crate) fn read_date(value: &[u8]) -> Option<HttpDate>
    ensures { MatchOption result ((date : Date) → ¬ (IsDate value.now date))
        (IsDate value.now) }
{
    let Ok(text) = str::from_utf8(value) else {
        return None;
    };
    match text.parse::<HttpDate>() {
        Ok(date) => Some(date),
        Err(_) => None,
    }
}
