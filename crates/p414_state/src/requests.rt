// What a control asks for.
ghost use Rattle.std.specs.Prelude.{◌≡◌};
ghost use Rattle.p414_state.specs.internal.Parts.{request_in, with_request_in};

use fabric::RequestKind;
use p414_sem::Request14;

/// The last request of each kind.
#[derive(Clone, Copy, Drop)]
pub struct Requests {
    pub clone_i2e: Option<Request14>,
    pub clone_e2e: Option<Request14>,
    pub resubmit: Option<Request14>,
    pub recirculate: Option<Request14>,
}

/// The last request of a kind.
pub fn get(requests: Requests, kind: RequestKind) -> Option<Request14>
    ensures { result ≡ request_in requests kind }
{
    match kind {
        RequestKind::CloneI2E => requests.clone_i2e,
        RequestKind::CloneE2E => requests.clone_e2e,
        RequestKind::Resubmit => requests.resubmit,
        RequestKind::Recirculate => requests.recirculate,
    }
}

/// The requests with another one of a kind.
pub fn with(requests: Requests, kind: RequestKind, request: Option<Request14>) -> Requests
    ensures { result ≡ with_request_in requests kind request }
{
    match kind {
        RequestKind::CloneI2E => Requests {
            clone_i2e: request,
            ..requests
        },
        RequestKind::CloneE2E => Requests {
            clone_e2e: request,
            ..requests
        },
        RequestKind::Resubmit => Requests {
            resubmit: request,
            ..requests
        },
        RequestKind::Recirculate => Requests {
            recirculate: request,
            ..requests
        },
    }
}
