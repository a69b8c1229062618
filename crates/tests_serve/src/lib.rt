//! The tests of a relay over loopback, in one process: what it answers and posts, and subscribers that misbehave.
#![tactic(auto)]

#[cfg(test)]
mod audits;
#[cfg(test)]
mod confirmed;
#[cfg(test)]
mod given;
#[cfg(test)]
mod hosts;
#[cfg(test)]
mod names;
#[cfg(test)]
mod outgoing;
#[cfg(test)]
mod places;
#[cfg(test)]
mod posts;
#[cfg(test)]
mod requests;
#[cfg(test)]
mod wires;
