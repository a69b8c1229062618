//! The tests of `group_commit`, `desk` and `delivery`, as tables of steps. Nothing stands on this crate, and its tests
//! call public items only.
#![tactic(auto)]

#[cfg(test)]
mod calls;
#[cfg(test)]
mod claims;
#[cfg(test)]
mod events;
#[cfg(test)]
mod given;
#[cfg(test)]
mod kept;
#[cfg(test)]
mod looks;
#[cfg(test)]
mod numbers;
#[cfg(test)]
mod posts;
#[cfg(test)]
mod purges;
#[cfg(test)]
mod requests;
#[cfg(test)]
mod steps;
#[cfg(test)]
mod topics;
#[cfg(test)]
mod turns;
#[cfg(test)]
mod waits;
#[cfg(test)]
mod walk;
