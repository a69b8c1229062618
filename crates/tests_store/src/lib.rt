//! The tests of the store: `spool_sql` and `spool`. Nothing stands on this crate, and its tests call
//! public items only.
#![tactic(auto)]

#[cfg(test)]
mod database;
#[cfg(test)]
mod draws;
#[cfg(test)]
mod entries;
#[cfg(test)]
mod histories;
#[cfg(test)]
mod loads;
#[cfg(test)]
mod purges;
#[cfg(test)]
mod same;
#[cfg(test)]
mod staged;
#[cfg(test)]
mod statements;
#[cfg(test)]
mod stories;
#[cfg(test)]
mod tables;
#[cfg(test)]
mod vaults;
