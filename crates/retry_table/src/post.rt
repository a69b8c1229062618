//! What came of a post, what its permit is spent as, and the status to record.
ghost use Rattle.std.specs.Prelude.{◌≡◌, IsTrue, IfSome};
ghost use Rattle.relay_types.specs.Legal.{is_status};
ghost use Rattle.retry_table.specs.Judging.{spend_of, spend_of_status, recorded_status, round_trip_of, measure_of};

use crate::status::Status;

/// What came of a post. A round trip `rtt` is in microseconds.
#[derive(Clone, Copy, PartialEq, Eq, Debug)]
pub enum PostResult {
    /// A status came.
    Answered { status: Status, rtt: u64 },
    /// The time for the post ran out before a status came.
    TimedOut { rtt: u64 },
    /// There was no connection, or it ended or failed before a status came.
    Unreached,
    /// The post was refused on this side, for example because memory ran out, and nothing was sent.
    Unsent,
}

/// What a permit is spent as.
#[derive(Clone, Copy, PartialEq, Eq, Debug)]
pub enum Spend {
    /// A sample of an endpoint that kept up.
    Success,
    /// A sample of an endpoint that is overloaded.
    Dropped,
    /// No sample: nothing was learnt of the endpoint's speed.
    Ignored,
}

/// What a post tells of its endpoint's speed.
#[derive(Clone, Copy, PartialEq, Eq, Debug)]
pub struct Measured {
    /// The round trip in microseconds.
    pub rtt: u64,
    /// Whether the endpoint dropped the post.
    pub dropped: bool,
}

/// What the permit of a post is spent as, and the status of the outcome to record: 0 where none
/// came, and no outcome at all for a post that was not sent. Overload is 429 Too Many Requests (RFC
/// 6585, section 4), 502 Bad Gateway, 503 Service Unavailable and 504 Gateway Timeout (RFC 9110,
/// section 15.6).
pub fn judge(post: &PostResult) -> (Spend, Option<u16>)
    ensures spend { result.0 ≡ spend_of post.now }
    ensures status { result.1 ≡ recorded_status post.now }
    ensures legal { IfSome result.1 (λ status. IsTrue (is_status status)) }
{
    match post {
        PostResult::Answered { status, .. } => {
            let number = status.get();
            (spend_of_status(number), Some(number))
        }
        PostResult::TimedOut { .. } => (Spend::Dropped, Some(0)),
        PostResult::Unreached => (Spend::Ignored, Some(0)),
        PostResult::Unsent => (Spend::Ignored, None),
    }
}

// What the permit of a post is spent as where this status came.
fn spend_of_status(status: u16) -> Spend
    ensures { result ≡ spend_of_status status }
{
    match status {
        429 | 502 | 503 | 504 => Spend::Dropped,
        _ => Spend::Success,
    }
}

// The round trip of a post in microseconds, 0 where nothing was measured.
fn round_trip(post: &PostResult) -> u64
    ensures { result ≡ round_trip_of post.now }
{
    match post {
        PostResult::Answered { rtt, .. } | PostResult::TimedOut { rtt } => *rtt,
        PostResult::Unreached | PostResult::Unsent => 0,
    }
}

/// What the estimator of the endpoint is told of a post: nothing where its permit is spent as `Ignored`.
pub fn measure(post: &PostResult) -> Option<Measured>
    ensures { result ≡ measure_of post.now }
{
    let dropped = match judge(post).0 {
        Spend::Success => false,
        Spend::Dropped => true,
        Spend::Ignored => return None,
    };
    Some(Measured {
        rtt: round_trip(post),
        dropped,
    })
}
