//! The subscribers of a topic, one after another.
ghost use Rattle.std.specs.Prelude.{◌≡◌, [], ◌∷◌, filter, MatchOption};
ghost use Rattle.std.specs.Iterator.{YieldsFirst, item_count};
ghost use Rattle.endpoint_book.specs.Topics.{is_on};
ghost use Rattle.endpoint_book.specs.Subscribers.{still_subscribed};

use crate::topics::Topics;
use relay_types::Name;

/// The endpoints that are subscribed to a topic, in the order of their Puts.
#[derive(Clone, Copy)]
pub struct Subscribers<'a> {
    pub(crate) topics: &'a Topics,
    pub(crate) topic: Name,
    pub(crate) names: &'a [Name],
}

impl<'a> Iterator for Subscribers<'a> {
    type Item = Name;

    ghost next_gives = { YieldsFirst still_subscribed };

    ghost remaining = { item_count still_subscribed };

    fn next(&mut self) -> Option<Name> {
        match first_on(self.topics, self.topic, self.names) {
            Some((name, others)) => {
                self.names = others;
                Some(name)
            }
            None => None,
        }
    }
}

// The first of these endpoints that is subscribed to the topic, and those after it.
fn first_on<'a>(topics: &Topics, topic: Name, names: &'a [Name]) -> Option<(Name, &'a [Name])>
    ensures { MatchOption result (filter (is_on topics.now topic) names.now ≡ [])
        (λ found. filter (is_on topics.now topic) names.now
        ≡ found.0 ∷ filter (is_on topics.now topic) found.1.now) }
{
    let mut rest = names;
    while let Some((name, others)) = rest.split_first() {
        if topics.is_on(topic, *name) {
            return Some((*name, others));
        }
        rest = others;
    }
    None
}
