// Who looks on while a client is served.
ghost use Rattle.std.specs.Prelude.{Bool};
ghost use Rattle.md_nbd.specs.declared.server.refusal.RefusedRequest.{RefusedRequest as Told};

use crate::server::refusal::RefusedRequest;

/// Is told of each request that is answered with an error, before the answer, and has the time.
pub trait ClientWatch {
    /// It was told of this one. Only `refuses` says it, so that a call of which a contract says it has told the watch.
    ghost has_refused: { Self → Told → Type 0 };

    /// This request is answered with an error.
    fn refuses(&self, refused: RefusedRequest)
        ensures { has_refused self.now refused };

    /// It was asked whether the client was silent, and this was its answer. Only `has_rested` says it, so that a call of which a contract
    /// says it has asked the watch.
    ghost says_rested: { Self → Bool → Type 0 };

    /// A request has come: whether the client was silent before it for so long that the store may rest. No contract says when, as
    /// any answer is sound.
    fn has_rested(&self) -> bool
        ensures { says_rested self.now result };
}
