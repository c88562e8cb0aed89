//! What is set on a session.
use super::Timed;

/// What a session is told to do.
#[derive(Clone, Copy)]
pub enum Setting {
    /// How many seconds a head is awaited.
    Keepalive(Option<u64>),
    ReadTimeout(Option<u64>),
    DrainTimeout(Option<u64>),
    WriteTimeout(Option<u64>),
    /// How many bytes of a piece are written a second at least.
    Rate(Option<usize>),
    /// How many link calls may move bytes from here on.
    Budget(Option<u32>),
    /// Whether a reply before the end of the request's body closes the connection.
    Closing(bool),
    /// Whether bytes after the request begin the next one.
    Pipelining(bool),
    /// How many requests more may follow.
    Reuses(Option<u32>),
    /// What is kept with the connection.
    Context(Option<u32>),
}

/// Sets this.
pub(crate) fn set(timed: &mut Timed, setting: Setting) {
    let session = &mut timed.session;
    match setting {
        Setting::Keepalive(seconds) => session.set_server_keepalive(seconds),
        Setting::ReadTimeout(timeout) => session.set_read_timeout(timeout),
        Setting::DrainTimeout(timeout) => session.set_total_drain_timeout(timeout),
        Setting::WriteTimeout(timeout) => session.set_write_timeout(timeout),
        Setting::Rate(rate) => session.set_min_send_rate(rate),
        Setting::Budget(budget) => session.set_poll_budget(budget),
        Setting::Closing(closing) => {
            session.set_close_on_response_before_downstream_finish(closing);
        }
        Setting::Pipelining(pipelining) => session.set_pipelining_enabled(pipelining),
        Setting::Reuses(reuses) => session.set_keepalive_reuses_remaining(reuses),
        Setting::Context(context) => session.set_connection_user_context(context),
    }
}
