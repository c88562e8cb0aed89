//! When a subrequest goes on with another protocol (RFC 9110, section 7.8).
ghost use Rattle.std.specs.Prelude.{◌≡◌};
ghost use Rattle.h1_subrequest.specs.Upgrade.{completes, is_answer, is_last, is_upgrade};

use h1_head::{
    HttpTask, RequestHeader, ResponseHeader, is_interim, is_upgrade_req, is_upgrade_resp,
};

/// Whether the response changes to the protocol that its request asks for.
pub fn completes(request: &RequestHeader, header: &ResponseHeader) -> bool
    ensures { result ≡ completes request.now header.now }
{
    is_upgrade_req(request) && is_upgrade_resp(header)
}

/// Whether no header follows this task.
pub fn is_answer(task: &HttpTask) -> bool
    ensures { result ≡ is_answer task.now }
{
    match task {
        HttpTask::Header(header, _) => !is_interim(header.status()),
        _ => false,
    }
}

/// Whether this task changes the protocol.
pub fn is_upgrade(request: &RequestHeader, task: &HttpTask) -> bool
    ensures { result ≡ is_upgrade request.now task.now }
{
    match task {
        HttpTask::Header(header, _) => completes(request, header),
        _ => false,
    }
}
