//! The tests of `intake_shed` and `status`, as tables of requests, pages and replies. Nothing stands on this crate, and
//! its tests call public items only.
#![tactic(auto)]

#[cfg(test)]
mod asks;
#[cfg(test)]
mod bodies;
#[cfg(test)]
mod pages;
#[cfg(test)]
mod paths;
#[cfg(test)]
mod refusals;
#[cfg(test)]
mod texts;
