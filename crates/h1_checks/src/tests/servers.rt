//! What is set on a server.
use h1_app::{HttpServer, HttpServerApp, HttpServerOptions, NoModules, Plain};
use h1_echo::EchoApp;
use h1_link::MemLink;

/// Whether anything is set on a server, and how many requests more than one it may serve then.
fn told(server: &HttpServer<EchoApp, NoModules>) -> Option<Option<u32>> {
    match HttpServerApp::<MemLink, ()>::server_options(server) {
        Some(set) => Some(set.keepalive_request_limit),
        None => None,
    }
}

fn has_nothing_set(plain: &Plain<EchoApp>) -> bool {
    HttpServerApp::<MemLink, ()>::server_options(plain).is_none()
}

#[test]
fn a_plain_server_has_nothing_set(rt: HostRuntime) {
    let plain = Plain::new(rt.alloc(), EchoApp);
    assert!(rt; has_nothing_set(&plain));
    let mut server = plain.into_server();
    server.server_options = Some(HttpServerOptions {
        keepalive_request_limit: Some(2),
        ..HttpServerOptions::default()
    });
    assert_eq!(rt; told(&server), Some(Some(2)));
}
