//! What one thread served.
ghost use Rattle.std.specs.Prelude.{◌≡◌, ◌<◌, ◌++◌, ◌∷◌, ◌^◌, ◌-◌, [], length};

use h1_error::{Error, Progress};
use http_server::Log;
use std::marker::Model;

/// The connections that one thread served. Contracts see the answer of each, in order: that of the
/// call that served it, or an error where there was no memory to serve it. Memory holds their count
/// alone, so a thread may serve without end.
#[derive(Drop)]
pub struct Served {
    connections: u64,
    answers: Log<Result<Progress, Error>, ()>,
}

impl Model for Served {
    ghost use Rattle.std.specs.Prelude.{◌≡◌, List, Result, map, length};
    ghost use Rattle.h1_error.specs.declared.error.Error.{Error};
    ghost use Rattle.h1_error.specs.declared.progress.Progress.{Progress};

    ghost Value = { List (Result Progress Error) };

    ghost view = { λ served. map (λ p. p.0) served.answers.items };

    ghost invariant = { λ served. served.connections
        ≡ length (map (λ p. p.0) served.answers.items) };
}

impl Served {
    /// No connection was served yet.
    pub(crate) fn new() -> Self
        ensures { result ≡ [] }
    {
        Served {
            connections: 0,
            answers: Log::new(),
        }
    }

    /// How many connections were served.
    pub fn connections(&self) -> u64
        ensures { result ≡ length self.now }
    {
        self.connections
    }

    /// One connection more was served, and this is its answer.
    pub(crate) fn tell(&mut self, answer: &Result<Progress, Error>)
        requires { length self.old < 2 ^ 64 - 1 }
        ensures { self.new ≡ self.old ++ answer.now ∷ [] }
    {
        self.connections += 1;
        self.answers = self.answers.and(answer, &());
    }
}
