//! Who posts.
ghost use Rattle.std.specs.Prelude.{◌≡◌};

use crate::outgoing::Outgoing;
use retry_table::PostResult;

/// Posts requests to subscribers. It names what it may answer to a request.
pub trait Poster {
    ghost use Rattle.retry_table.specs.declared.post.PostResult.{PostResult};
    ghost use Rattle.webhook_request.specs.Requests.{Request};

    ghost may_answer: { Self → Request → PostResult → Type 0 };

    /// Posts the request once, and tells how it went.
    fn post(&self, request: &Outgoing) -> PostResult
        ensures { may_answer self.now request.now result };
}
