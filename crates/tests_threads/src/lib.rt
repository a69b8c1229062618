//! The tests of threads that share a desk, with stand-ins for subscribers, clocks and keepers. Each ends by a
//! limit of turns.
#![tactic(auto)]

#[cfg(test)]
mod answers;
#[cfg(test)]
mod asked;
#[cfg(test)]
mod cases;
#[cfg(test)]
mod courses;
#[cfg(test)]
mod crowd;
#[cfg(test)]
mod given;
#[cfg(test)]
mod seen;
#[cfg(test)]
mod stand_ins;
#[cfg(test)]
mod steps;
#[cfg(test)]
mod wakes;
