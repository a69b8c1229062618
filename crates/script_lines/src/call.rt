//! The calls of the core, and the line that isn't a call.
ghost use Rattle.std.specs.Prelude.{◌≡◌, IfOk, IsErr};
ghost use Rattle.script_lines.specs.Script.{HasShared};

use relay_types::{Body, MaxLimit, Moment, MsgId, Name, Secrets, Target};
use retry_table::PostResult;
use std::alloc::AllocError;

/// One call of the core.
#[derive(Drop)]
pub enum Call {
    /// An event for an endpoint.
    Submit {
        now: Moment,
        name: Name,
        id: MsgId,
        body: Body,
    },
    /// An event for the subscribers of a topic.
    Publish {
        now: Moment,
        topic: Name,
        id: MsgId,
        body: Body,
    },
    /// A new endpoint.
    Put {
        name: Name,
        target: Target,
        max: MaxLimit,
        secrets: Secrets,
    },
    /// Other secrets of an endpoint.
    Secrets {
        name: Name,
        secrets: Secrets,
    },
    /// Whether an endpoint is posted to.
    Enabled {
        name: Name,
        flag: bool,
    },
    /// Whether an endpoint is subscribed to a topic.
    Subscribed {
        topic: Name,
        name: Name,
        flag: bool,
    },
    /// Events that are done with, the last attempt at each before this moment, are removed.
    Purge {
        before: Moment,
    },
    /// What is known of the ticket of this number.
    Told {
        seq: u64,
    },
    /// Puts what waits into a batch.
    Seal,
    /// Commits the batch.
    Commit,
    /// Settles the receipt.
    Settle,
    /// Takes the batch back.
    Unseal,
    /// Halts the desk, and takes what is out, or nothing, from its committer.
    Halt,
    /// The next attempt that may begin.
    Claim {
        now: Moment,
    },
    /// The result of the post of the delivery's attempt.
    Spend {
        delivery: u64,
        now: Moment,
        post: PostResult,
    },
    /// How many attempts of an endpoint may be under way, and how many are.
    Limits {
        name: Name,
    },
    /// What the settled records say of an endpoint.
    ShowEndpoint {
        name: Name,
    },
    /// What the settled records say of an event.
    Show {
        name: Name,
        id: MsgId,
    },
}

/// One line of a script.
#[derive(Drop)]
pub enum Line {
    /// A call of the core.
    Call(Call),
    /// The desk is closed with all that is out, and its store is opened again.
    Stop,
}

impl Call {
    /// The same call for another holder. It copies no text and no body.
    pub fn share(&self) -> Result<Call, AllocError>
        ensures same { IfOk result (λ same. same ≡ self.now) }
        ensures lacked { IsErr result → HasShared self.now }
    {
        match self {
            Call::Submit {
                now,
                name,
                id,
                body,
            } => Ok(Call::Submit {
                now: *now,
                name: *name,
                id: *id,
                body: body.share()?,
            }),
            Call::Publish {
                now,
                topic,
                id,
                body,
            } => Ok(Call::Publish {
                now: *now,
                topic: *topic,
                id: *id,
                body: body.share()?,
            }),
            Call::Put {
                name,
                target,
                max,
                secrets,
            } => Ok(Call::Put {
                name: *name,
                target: target.share()?,
                max: *max,
                secrets: *secrets,
            }),
            Call::Secrets { name, secrets } => Ok(Call::Secrets {
                name: *name,
                secrets: *secrets,
            }),
            Call::Enabled { name, flag } => Ok(Call::Enabled {
                name: *name,
                flag: *flag,
            }),
            Call::Subscribed { topic, name, flag } => Ok(Call::Subscribed {
                topic: *topic,
                name: *name,
                flag: *flag,
            }),
            Call::Purge { before } => Ok(Call::Purge { before: *before }),
            Call::Told { seq } => Ok(Call::Told { seq: *seq }),
            Call::Seal => Ok(Call::Seal),
            Call::Commit => Ok(Call::Commit),
            Call::Settle => Ok(Call::Settle),
            Call::Unseal => Ok(Call::Unseal),
            Call::Halt => Ok(Call::Halt),
            Call::Claim { now } => Ok(Call::Claim { now: *now }),
            Call::Spend {
                delivery,
                now,
                post,
            } => Ok(Call::Spend {
                delivery: *delivery,
                now: *now,
                post: *post,
            }),
            Call::Limits { name } => Ok(Call::Limits { name: *name }),
            Call::ShowEndpoint { name } => Ok(Call::ShowEndpoint { name: *name }),
            Call::Show { name, id } => Ok(Call::Show {
                name: *name,
                id: *id,
            }),
        }
    }
}
