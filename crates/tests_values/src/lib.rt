//! The tests of the crates of values: `relay_types`, `retry_table`, `vegas`, `hmac_signer`, `permits`, `delivery_book`,
//! `endpoint_book`, `claim_queue` and `sound_rows`. Nothing stands on this crate, and its tests call public items only.
#![tactic(auto)]

#[cfg(test)]
mod cases;
#[cfg(test)]
mod deliveries;
#[cfg(test)]
mod delivery_tables;
#[cfg(test)]
mod endpoint_tables;
#[cfg(test)]
mod endpoints;
#[cfg(test)]
mod estimator;
#[cfg(test)]
mod laws;
#[cfg(test)]
mod pool;
#[cfg(test)]
mod purges;
#[cfg(test)]
mod queue;
#[cfg(test)]
mod queue_tables;
#[cfg(test)]
mod readers;
#[cfg(test)]
mod records;
#[cfg(test)]
mod retries;
#[cfg(test)]
mod rows;
#[cfg(test)]
mod shared_pool;
#[cfg(test)]
mod signer;
#[cfg(test)]
mod targets;
