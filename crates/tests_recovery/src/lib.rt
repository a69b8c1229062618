//! The tests of `recovery`: stores that anyone may have written, and random histories, opened again
//! and with one cell changed. Nothing stands on this crate, and its tests call public items only.
#![tactic(auto)]

#[cfg(test)]
mod attempts;
#[cfg(test)]
mod cells;
#[cfg(test)]
mod conditions;
#[cfg(test)]
mod draws;
#[cfg(test)]
mod files;
#[cfg(test)]
mod given;
#[cfg(test)]
mod histories;
#[cfg(test)]
mod migrations;
#[cfg(test)]
mod openings;
#[cfg(test)]
mod pages;
#[cfg(test)]
mod refusals;
#[cfg(test)]
mod sound;
#[cfg(test)]
mod stores;
#[cfg(test)]
mod topics;
