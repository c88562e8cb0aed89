//! What goes from one request to the next on a link: the settings, the caller's context and the
//! bytes that were received after the request.
ghost use Rattle.std.specs.Prelude.{◌≡◌, [], None, Some, option_map, is_some};
ghost use Rattle.h1_server.specs.Keepalive.{keepalive_timeout};
ghost use Rattle.h1_app.specs.Persistent.{applied, with_prefix};

use bytes::BytesMut;
use h1_link::Link;
use h1_server::{HttpSession, ReusableHttpStream, one_less};

/// What was set on a session, for the next one on its link.
#[derive(Debug, Drop)]
pub struct HttpPersistentSettings<C: Drop> {
    keepalive_timeout: Option<u64>,
    keepalive_reuses_remaining: Option<u32>,
    user_context: Option<C>,
    pipelined_prefix: Option<BytesMut>,
    pipelining_enabled: bool,
}

impl<C: Drop> HttpPersistentSettings<C> {
    /// The keep-alive, the requests left and the pipelining of a session; no context and no
    /// prefix.
    pub fn for_session<L: Link + Drop>(session: &HttpSession<L, C>) -> Self
        ensures keepalive { result.keepalive_timeout ≡ keepalive_timeout session.now.settings }
        ensures reuses { result.keepalive_reuses_remaining ≡ session.now.settings.reuses }
        ensures pipelining { result.pipelining_enabled ≡ session.now.settings.pipelining }
        ensures nothing { (result.user_context ≡ None) × (result.pipelined_prefix ≡ None) }
    {
        HttpPersistentSettings {
            keepalive_timeout: session.get_keepalive_timeout(),
            keepalive_reuses_remaining: session.get_keepalive_reuses_remaining(),
            user_context: None,
            pipelined_prefix: None,
            pipelining_enabled: session.pipelining_enabled(),
        }
    }

    /// Keeps a value of the caller's for the next request.
    pub fn set_user_context(&mut self, context: C)
        ensures { self.new ≡ record self.old { user_context = Some context } }
    {
        self.user_context = Some(context);
    }

    /// Hands out the caller's value.
    pub fn take_user_context(&mut self) -> Option<C>
        ensures taken { result ≡ self.old.user_context }
        ensures rest { self.new ≡ record self.old { user_context = None } }
    {
        self.user_context.take()
    }

    /// Puts bytes before what the next session reads.
    pub fn set_pipelined_prefix(&mut self, prefix: BytesMut)
        ensures { self.new ≡ record self.old { pipelined_prefix = Some prefix } }
    {
        self.pipelined_prefix = Some(prefix);
    }

    /// Sets a new session so. One request fewer may follow, where there is a limit.
    pub fn apply_to_session<L: Link + Drop>(self, session: &mut HttpSession<L, C>)
        requires { (session.old.request ≡ None) × (session.old.received ≡ []) }
        ensures { session.new ≡ applied self session.old }
    {
        let HttpPersistentSettings {
            keepalive_timeout,
            keepalive_reuses_remaining,
            user_context,
            pipelined_prefix,
            pipelining_enabled,
        } = self;
        session.set_server_keepalive(keepalive_timeout);
        session.set_keepalive_reuses_remaining(one_less(keepalive_reuses_remaining));
        session.set_connection_user_context(user_context);
        session.set_pipelining_enabled(pipelining_enabled);
        if let Some(prefix) = pipelined_prefix {
            session.set_pipelined_prefix(prefix);
        }
    }
}

/// A link that was used, with what is set for the next session on it.
#[derive(Debug, Drop)]
pub struct ReusedHttpStream<L: Link + Drop, C: Drop> {
    stream: L,
    persistent_settings: Option<HttpPersistentSettings<C>>,
}

impl<L: Link + Drop, C: Drop> ReusedHttpStream<L, C> {
    pub fn new(stream: L, persistent_settings: Option<HttpPersistentSettings<C>>) -> Self
        ensures { (result.stream ≡ stream) × (result.persistent_settings ≡ persistent_settings) }
    {
        ReusedHttpStream {
            stream,
            persistent_settings,
        }
    }

    /// The link of a session that is over. What was received after its request joins the settings.
    pub fn from_reusable_stream(
        reusable: ReusableHttpStream<L>,
        persistent_settings: HttpPersistentSettings<C>,
    ) -> Self
        ensures stream { result.stream ≡ reusable.stream }
        ensures settings { result.persistent_settings
            ≡ Some (with_prefix persistent_settings reusable.prefix) }
    {
        let (stream, prefix) = reusable.into_parts();
        let mut settings = persistent_settings;
        if let Some(prefix) = prefix {
            settings.set_pipelined_prefix(prefix);
        }
        ReusedHttpStream::new(stream, Some(settings))
    }

    /// The link, and what is set for the next session on it.
    pub fn consume(self) -> (L, Option<HttpPersistentSettings<C>>)
        ensures { (result.0 ≡ self.stream) × (result.1 ≡ self.persistent_settings) }
    {
        (self.stream, self.persistent_settings)
    }
}
