//! What is set on a server.
use h1_transcript::History;

/// What a server sets on each of its connections.
#[derive(Clone, Debug, Drop)]
pub struct HttpServerOptions {
    /// How many requests more than the first a connection may serve; None is no limit.
    pub keepalive_request_limit: Option<u32>,
    /// Whether each connection keeps its exchanges in memory, to be read from its transcript.
    pub history: History,
    /// The most bytes of one request's body that are gathered for an application that uses the
    /// whole of it; None is no limit. A longer body is refused with `ContentTooLarge` (RFC 9110,
    /// section 15.5.14).
    pub gather_limit: Option<u64>,
    /// Kept for its owner: nothing here reads it, and a CONNECT is asked of the application as each
    /// other request is.
    pub allow_connect_method_proxying: bool,
}

impl Default for HttpServerOptions {
    ghost use Rattle.std.specs.Prelude.{◌≡◌, None, false};
    ghost use Rattle.h1_transcript.specs.declared.history.History.TheVariants.{Kept};

    ghost is_default = { λ options. (options.keepalive_request_limit ≡ None)
        × (options.history ≡ Kept) × (options.gather_limit ≡ None)
        × (options.allow_connect_method_proxying ≡ false) };

    /// No limits, exchanges are kept, and no proxying.
    fn default() -> Self {
        HttpServerOptions {
            keepalive_request_limit: None,
            history: History::Kept,
            gather_limit: None,
            allow_connect_method_proxying: false,
        }
    }
}
