//! The tests of `text_lines` and `command_interface`, and the limits that code and definitions share.
//! Nothing stands on this crate, and its tests call public items only.
#![tactic(auto)]

#[cfg(test)]
mod ends;
#[cfg(test)]
mod limits;
#[cfg(test)]
mod streams;
#[cfg(test)]
mod words;
