//! The tests of `drill::run`, and of an audit between its calls: runs over new stores and over stores
//! that stop taking writes, and what a run leaves, opened again. Nothing stands on this crate, and
//! its tests call public items only.
#![tactic(auto)]

#[cfg(test)]
mod audits;
#[cfg(test)]
mod calls;
#[cfg(test)]
mod doubts;
#[cfg(test)]
mod files;
#[cfg(test)]
mod migrations;
#[cfg(test)]
mod paths;
#[cfg(test)]
mod restarts;
#[cfg(test)]
mod runs;
#[cfg(test)]
mod stops;
