//! An attempt that may begin.
ghost use Rattle.std.specs.Prelude.{◌≡◌};
ghost use Rattle.desk.specs.Claims.{post_in};

use permits::Permit;
use relay_types::{Body, Moment, MsgId, Name, Secrets, Target};
use std::marker::Model;
use std::sync::ledger::Ledger;

/// What is posted at an attempt, and where to. `Desk::claim` alone makes it.
#[derive(Drop)]
pub struct Post {
    pub(crate) endpoint: Name,
    pub(crate) delivery: u64,
    pub(crate) id: MsgId,
    pub(crate) attempt: u64,
    pub(crate) at: Moment,
    pub(crate) target: Target,
    pub(crate) secrets: Secrets,
    pub(crate) body: Body,
}

impl Model for Post {
    ghost use Rattle.desk.specs.Claims.{PostValue};

    ghost Value = { PostValue };

    ghost view = { λ p. record {
      endpoint = p.endpoint;
      delivery = p.delivery;
      id = p.id;
      attempt = p.attempt;
      at = p.at;
      target = p.target;
      secrets = p.secrets;
      body = p.body;
    } };
}

impl Post {
    /// The endpoint to post to.
    pub fn endpoint(&self) -> Name
        ensures { result ≡ self.now.endpoint }
    {
        self.endpoint
    }

    /// The sequence number of the event's Accept record.
    pub fn delivery(&self) -> u64
        ensures { result ≡ self.now.delivery }
    {
        self.delivery
    }

    /// The id under which the event is posted at each attempt.
    pub fn id(&self) -> MsgId
        ensures { result ≡ self.now.id }
    {
        self.id
    }

    /// The number of the attempt, from 1.
    pub fn attempt(&self) -> u64
        ensures { result ≡ self.now.attempt }
    {
        self.attempt
    }

    /// When the attempt was claimed.
    pub fn moment(&self) -> Moment
        ensures { result ≡ self.now.at }
    {
        self.at
    }

    /// Where the endpoint listens.
    pub fn target(&self) -> &Target
        ensures { result.now ≡ self.now.target }
    {
        &self.target
    }

    /// The endpoint's secrets, the newest first.
    pub fn secrets(&self) -> Secrets
        ensures { result ≡ self.now.secrets }
    {
        self.secrets
    }

    /// The event's bytes.
    pub fn body(&self) -> &Body
        ensures { result.now ≡ self.now.body }
    {
        &self.body
    }
}

/// An attempt at a delivery. It holds the permit of the attempt, so it has to be taken apart.
pub struct Job<L: Ledger> {
    pub(crate) permit: Permit<L>,
    pub(crate) post: Post,
}

impl<L: Ledger> Model for Job<L> {
    ghost use Rattle.desk.specs.Claims.{JobValue};

    ghost Value = { JobValue };

    ghost view = { λ j. record {
      row = j.permit;
      id = j.post.id;
      attempt = j.post.attempt;
      at = j.post.at;
      target = j.post.target;
      secrets = j.post.secrets;
      body = j.post.body;
    } };

    ghost use Rattle.std.specs.Prelude.{◌≡◌};

    ghost invariant = { λ j. record {
      endpoint : j.post.endpoint ≡ j.permit.endpoint;
      delivery : j.post.delivery ≡ j.permit.delivery;
    } };
}

impl<L: Ledger> Job<L> {
    /// The endpoint to post to.
    pub fn endpoint(&self) -> Name
        ensures { result ≡ self.now.row.endpoint }
    {
        self.post.endpoint
    }

    /// The id under which the event is posted at each attempt.
    pub fn id(&self) -> MsgId
        ensures { result ≡ self.now.id }
    {
        self.post.id
    }

    /// The number of the attempt, from 1.
    pub fn attempt(&self) -> u64
        ensures { result ≡ self.now.attempt }
    {
        self.post.attempt
    }

    /// When the attempt was claimed.
    pub fn moment(&self) -> Moment
        ensures { result ≡ self.now.at }
    {
        self.post.at
    }

    /// Where the endpoint listens.
    pub fn target(&self) -> &Target
        ensures { result.now ≡ self.now.target }
    {
        &self.post.target
    }

    /// The endpoint's secrets, the newest first.
    pub fn secrets(&self) -> Secrets
        ensures { result ≡ self.now.secrets }
    {
        self.post.secrets
    }

    /// The event's bytes.
    pub fn body(&self) -> &Body
        ensures { result.now ≡ self.now.body }
    {
        &self.post.body
    }

    /// The permit of the attempt, which names its delivery.
    pub fn permit(&self) -> &Permit<L>
        ensures { result.now ≡ self.now.row }
    {
        &self.permit
    }

    /// What is posted.
    pub fn post(&self) -> &Post
        ensures { result.now ≡ post_in self.now }
    {
        &self.post
    }

    /// The permit, to be spent, and what is posted.
    pub fn into_parts(self) -> (Permit<L>, Post)
        ensures permit { result.0 ≡ self.row }
        ensures post { result.1 ≡ post_in self }
    {
        let Job { permit, post } = self;
        (permit, post)
    }

    /// The permit, to be spent. The rest of the job is let go.
    pub fn into_permit(self) -> Permit<L>
        ensures { result ≡ self.row }
    {
        let Job { permit, post: _ } = self;
        permit
    }
}
