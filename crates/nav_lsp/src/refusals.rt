//! Why a request isn't carried out.
ghost use Rattle.std.specs.Prelude.{◌≡◌};
ghost use Rattle.nav_lsp.specs.Replies.{early_refusal, open_refusal, params_refusal, refusal_of};

use crate::phase::Phase;
use lsp_wire::{Asks, Method, Refusal};

/// Why a request isn't carried out in a session that is so far, or None where it is.
pub(crate) fn refusal_of(phase: Phase, asks: &Asks) -> Option<Refusal>
    ensures { result ≡ refusal_of phase asks.now }
{
    match phase {
        Phase::Before => early_refusal(asks),
        Phase::Open => open_refusal(asks),
        Phase::Shut => Some(Refusal::InvalidRequest),
    }
}

/// The same before `initialize` was answered: nothing else is carried out.
fn early_refusal(asks: &Asks) -> Option<Refusal>
    ensures { result ≡ early_refusal asks.now }
{
    match asks {
        Asks::Initialize { .. } => None,
        _ => Some(Refusal::NotInitialized),
    }
}

/// The same in a session that is open.
fn open_refusal(asks: &Asks) -> Option<Refusal>
    ensures { result ≡ open_refusal asks.now }
{
    match asks {
        Asks::Shutdown | Asks::Definition { .. } | Asks::References { .. } => None,
        Asks::Initialize { .. } => Some(Refusal::InvalidRequest),
        Asks::WrongParams(method) => Some(params_refusal(*method)),
        _ => Some(Refusal::MethodNotFound),
    }
}

/// Why a request with this method isn't carried out that lacks parameters.
fn params_refusal(method: Method) -> Refusal
    ensures { result ≡ params_refusal method }
{
    match method {
        Method::Initialize => Refusal::InvalidRequest,
        Method::Shutdown | Method::Definition | Method::References => Refusal::InvalidParams,
        _ => Refusal::MethodNotFound,
    }
}
