//! A module for tests, which leaves its name in each value.
ghost use Rattle.std.specs.Prelude.{◌≡◌, ◌==◌, ◌++◌, ◌∷◌, [], true, Ok, Err, None, Some, IfOk, IsOkUnless, unwrap_or, option_map, codes, if◌then◌else◌};
ghost use Rattle.h1_error.specs.Memory.{no_memory};
ghost use Rattle.h1_modules.specs.Outcome.{by_number, refused_by};

use bytes::Bytes;
use h1_error::{Error, ErrorType};
use h1_head::{Fields, RequestHeader, ResponseHeader};
use h1_modules::{HttpModule, HttpModuleBuilder};
use std::alloc::Global;

/// The filters, in the order of the trait.
pub(crate) const REQUEST_HEADER: u8 = 0;

pub(crate) const REQUEST_BODY: u8 = 1;

pub(crate) const RESPONSE_HEADER: u8 = 2;

pub(crate) const RESPONSE_BODY: u8 = 3;

pub(crate) const RESPONSE_TRAILER: u8 = 4;

pub(crate) const RESPONSE_DONE: u8 = 5;

pub(crate) const FILTERS: [u8; 6] = [
    REQUEST_HEADER,
    REQUEST_BODY,
    RESPONSE_HEADER,
    RESPONSE_BODY,
    RESPONSE_TRAILER,
    RESPONSE_DONE,
];

/// No filter.
pub(crate) const NEVER: u8 = 6;

/// Adds its name to what it is given, and refuses with it in one filter.
#[derive(Clone, Copy)]
pub(crate) struct Note {
    pub(crate) name: u8,
    pub(crate) refuses_at: u8,
    /// Whether it gives a buffer behind the body, with its name.
    pub(crate) gives: bool,
    /// Whether it was told that the response is done.
    pub(crate) told: bool,
}

/// Makes notes. The name is the key too.
#[derive(Clone, Copy)]
pub(crate) struct Noting {
    pub(crate) order: i16,
    pub(crate) note: Note,
}

impl Noting {
    pub(crate) fn new(order: i16, name: u8, refuses_at: u8) -> Self {
        let note = Note {
            name,
            refuses_at,
            gives: true,
            told: false,
        };
        Noting { order, note }
    }

    /// The same, but that it gives no buffer.
    pub(crate) fn without_buffer(self) -> Self {
        let note = Note {
            gives: false,
            ..self.note
        };
        Noting { note, ..self }
    }
}

impl Note {
    fn refuse(&self) -> Error
        ensures { result ≡ refused_by self.now.name }
    {
        Error::from(ErrorType::ModuleFailed(u32::from(self.name)))
    }

    fn write_after(&self, alloc: Global, body: &Option<Bytes>) -> Result<Bytes, Error>
        ensures ok { IfOk result (λ made. made ≡ unwrap_or body.now [] ++ self.now.name ∷ []) }
        ensures err { IsOkUnless result no_memory }
    {
        let mut bytes = Vec::new(alloc);
        if let Some(body) = body {
            bytes.extend_from_slice(body.as_slice())?;
        }
        bytes.push(self.name)?;
        let made = Bytes::from_vec(bytes)?;
        Ok(made)
    }

    fn buffer(&self, alloc: Global) -> Result<Option<Bytes>, Error>
        ensures ok { IfOk result (λ buffer.
            buffer ≡ (if self.now.gives then Some (self.now.name ∷ []) else None)) }
        ensures err { IsOkUnless result no_memory }
    {
        if self.gives {
            let made = Bytes::copy_from_slice(alloc, &[self.name])?;
            Ok(Some(made))
        } else {
            Ok(None)
        }
    }
}

impl HttpModule for Note {
    ghost request_header = { λ note req. if note.refuses_at == 0 then Err note.name else Ok
        (note, record req { fields = req.fields ++ (codes "note", note.name ∷ []) ∷ [] }) };

    ghost request_body = { λ end note body. if note.refuses_at == 1 then Err note.name
        else Ok (note, Some (unwrap_or body [] ++ note.name ∷ [])) };

    ghost response_header = { λ end note resp. if note.refuses_at == 2 then Err note.name else Ok
        (note, record resp { fields = resp.fields ++ (codes "note", note.name ∷ []) ∷ [] }) };

    ghost response_body = { λ end note body. if note.refuses_at == 3 then Err note.name
        else Ok (note, Some (unwrap_or body [] ++ note.name ∷ [])) };

    ghost response_trailer = { λ note trailers. if note.refuses_at == 4 then Err (by_number note.name)
        else Ok (
          note,
          (
            option_map (λ lines. lines ++ (codes "note", note.name ∷ []) ∷ []) trailers,
            if note.gives then Some (note.name ∷ []) else None,
          ),
        ) };

    ghost response_done = { λ note. if note.refuses_at == 5 then Err note.name
        else Ok (record note { told = true }, if note.gives then Some (note.name ∷ []) else None) };

    fn request_header_filter(&mut self, _: Global, req: &mut RequestHeader) -> Result<(), Error> {
        if self.refuses_at == REQUEST_HEADER {
            return Err(self.refuse());
        }
        match req.append_header(b"note", &[self.name]) {
            Ok(()) => Ok(()),
            Err(_) => Err(Error::from(ErrorType::NoMemory)),
        }
    }

    fn request_body_filter(
        &mut self,
        alloc: Global,
        body: &mut Option<Bytes>,
        _: bool,
    ) -> Result<(), Error> {
        if self.refuses_at == REQUEST_BODY {
            return Err(self.refuse());
        }
        *body = Some(self.write_after(alloc, body)?);
        Ok(())
    }

    fn response_header_filter(
        &mut self,
        _: Global,
        resp: &mut ResponseHeader,
        _: bool,
    ) -> Result<(), Error> {
        if self.refuses_at == RESPONSE_HEADER {
            return Err(self.refuse());
        }
        match resp.append_header(b"note", &[self.name]) {
            Ok(()) => Ok(()),
            Err(_) => Err(Error::from(ErrorType::NoMemory)),
        }
    }

    fn response_body_filter(
        &mut self,
        alloc: Global,
        body: &mut Option<Bytes>,
        _: bool,
    ) -> Result<(), Error> {
        if self.refuses_at == RESPONSE_BODY {
            return Err(self.refuse());
        }
        *body = Some(self.write_after(alloc, body)?);
        Ok(())
    }

    fn response_trailer_filter(
        &mut self,
        alloc: Global,
        trailers: &mut Option<Fields>,
    ) -> Result<Option<Bytes>, Error> {
        if self.refuses_at == RESPONSE_TRAILER {
            return Err(self.refuse());
        }
        let buffer = self.buffer(alloc)?;
        if let Some(lines) = trailers {
            lines.append(b"note", &[self.name])?;
        }
        Ok(buffer)
    }

    fn response_done_filter(&mut self, alloc: Global) -> Result<Option<Bytes>, Error> {
        if self.refuses_at == RESPONSE_DONE {
            return Err(self.refuse());
        }
        let buffer = self.buffer(alloc)?;
        self.told = true;
        Ok(buffer)
    }
}

impl HttpModuleBuilder for Noting {
    type Module = Note;

    ghost order = { λ noting. noting.order };

    ghost key = { λ noting. noting.note.name };

    ghost begins = { λ noting. noting.note };

    fn order(&self) -> i16 {
        self.order
    }

    fn init(&self, _: Global) -> Result<Note, Error> {
        Ok(self.note)
    }

    fn key(&self) -> u32 {
        u32::from(self.note.name)
    }
}
