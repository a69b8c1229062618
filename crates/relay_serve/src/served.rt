//! What the end of a relay shows.
ghost use Rattle.std.specs.Prelude.{◌≡◌};
ghost use Rattle.delivery.specs.declared.committer.CommitterEnd.TheVariants.{Finished};

use delivery::Ended;
use recovery::Audited;

/// Shows that a relay ended as it was asked to: nothing waited, and an audit found its rows and its desk to agree.
#[derive(Drop)]
pub struct Served {
    ended: Ended,
    audited: Audited,
    ghost finished: { ended ≡ Finished },
}

impl Served {
    pub(crate) fn of(ended: Ended, audited: Audited) -> Served
        requires { ended ≡ Finished }
    {
        Served { ended, audited }
    }
}
