//! The server: an application with its modules.
ghost use Rattle.std.specs.Prelude.{◌≡◌, [], Err, IsOkUnless, None, OnErr, OnOk};
ghost use Rattle.std.specs.Bool.{MatchBool};
ghost use Rattle.h1_error.specs.Memory.{no_memory};
ghost use Rattle.h1_modules.specs.Builders.{has_key, placed};
ghost use Rattle.h1_modules.specs.Outcome.{duplicate};
ghost use Rattle.std.specs.Option.{option_copied};
ghost use Rattle.h1_app.specs.View.{holding_of, limit_of};

use crate::{HttpServerOptions, ServeHttp};
use h1_error::Error;
use h1_link::Link;
use h1_modules::{HttpModuleBuilder, HttpModules, NoModules};
use h1_transcript::{History, Holding};
use std::alloc::Global;

/// An application with its modules.
#[derive(Drop)]
pub struct HttpServer<SV: Drop, B: HttpModuleBuilder + Drop> {
    pub(crate) app: SV,
    pub(crate) modules: HttpModules<B>,
    pub server_options: Option<HttpServerOptions>,
}

impl<SV: Drop, B: HttpModuleBuilder + Drop> HttpServer<SV, B> {
    /// A server of this application, with no module and nothing set. Takes no memory.
    pub fn new_app(alloc: Global, app: SV) -> Self
        ensures app { result.app ≡ app }
        ensures modules { result.modules ≡ [] }
        ensures options { result.server_options ≡ None }
    {
        HttpServer {
            app,
            modules: HttpModules::new(alloc),
            server_options: None,
        }
    }

    /// Adds a module for the exchanges of this server. A second one of its key is refused with
    /// `Duplicate`, and dropped; an error leaves the server as it was.
    pub fn add_module(&mut self, builder: B) -> Result<(), Error>
        ensures ok { OnOk result (self.new
            ≡ record self.old { modules = placed B.order builder self.old.modules }) }
        ensures refused { MatchBool (has_key B.key (B.key builder) self.old.modules)
            (result ≡ Err duplicate) (IsOkUnless result no_memory) }
        ensures same { OnErr result (self.new ≡ self.old) }
    {
        self.modules.add_module(builder)
    }

    /// What a connection holds of its exchanges, where the application gathers whole bodies or not.
    pub(crate) fn holding(&self, gathers: bool) -> Holding
        ensures { result ≡ holding_of self.now.server_options gathers }
    {
        let (history, gather_limit) = match &self.server_options {
            Some(options) => (options.history, options.gather_limit),
            None => (History::Kept, None),
        };
        let limit = match gather_limit {
            Some(limit) if gathers => limit,
            _ => u64::MAX,
        };
        Holding {
            history,
            gathers,
            limit,
        }
    }

    /// How many requests more than the first a connection may serve; None is no limit.
    pub(crate) fn request_limit(&self) -> Option<u32>
        ensures { result ≡ limit_of self.now.server_options }
    {
        match &self.server_options {
            Some(options) => options.keepalive_request_limit,
            None => None,
        }
    }
}

/// What serves connections: an application with its modules, and what is set.
pub trait HttpServerApp<L: Link + Drop, C: Drop> {
    type App: ServeHttp<L, C> + Drop;

    type Builder: HttpModuleBuilder + Drop;

    ghost use Rattle.h1_app.specs.declared.server.HttpServer.{HttpServer};

    /// The server behind this value.
    ghost served: { Self → HttpServer Self.App Self.Builder Self.Builder.Module };

    fn server(&self) -> &HttpServer<Self::App, Self::Builder>
        ensures { result.now ≡ served self.now };

    fn server_options(&self) -> Option<&HttpServerOptions>
        ensures { option_copied result ≡ (served self.now).server_options };

    /// What is to be done after a connection. Whoever serves connections calls it.
    fn http_cleanup(&self) {}
}

impl<L, C, SV, B> HttpServerApp<L, C> for HttpServer<SV, B>
where
    L: Link + Drop,
    C: Drop,
    SV: ServeHttp<L, C> + Drop,
    B: HttpModuleBuilder + Drop,
{
    type App = SV;

    type Builder = B;

    ghost served = { λ server. server };

    fn server(&self) -> &HttpServer<SV, B> {
        self
    }

    fn server_options(&self) -> Option<&HttpServerOptions> {
        self.server_options.as_ref()
    }
}

/// An application without modules.
#[derive(Drop)]
pub struct Plain<SV: Drop> {
    server: HttpServer<SV, NoModules>,
}

impl<SV: Drop> Plain<SV> {
    pub fn new(alloc: Global, app: SV) -> Self
        ensures app { result.server.app ≡ app }
        ensures modules { result.server.modules ≡ [] }
        ensures options { result.server.server_options ≡ None }
    {
        Plain {
            server: HttpServer::new_app(alloc, app),
        }
    }

    pub fn into_server(self) -> HttpServer<SV, NoModules>
        ensures { result ≡ self.server }
    {
        self.server
    }
}

impl<L: Link + Drop, C: Drop, SV: ServeHttp<L, C> + Drop> HttpServerApp<L, C> for Plain<SV> {
    type App = SV;

    type Builder = NoModules;

    ghost served = { λ plain. plain.server };

    fn server(&self) -> &HttpServer<SV, NoModules> {
        &self.server
    }

    fn server_options(&self) -> Option<&HttpServerOptions> {
        self.server.server_options.as_ref()
    }
}
