//! The relay's tables: the statements that make, write and look up their rows, each a typed function inside a
//! transaction, and what a connection tells of its store between transactions.
#![tactic(auto)]

mod cause;
mod change;
mod create;
mod delivery;
mod find;
mod from_row;
mod migrate;
mod opened;
mod page;
mod purge;
mod query;
mod read;
mod row;
mod seq;
mod value;
mod write;

pub use crate::cause::{Cause, cause_of};
pub use crate::change::{delete_secrets, delete_topic, update_enabled, update_secrets_by};
pub use crate::create::create_tables;
pub use crate::delivery::{select_endpoint, select_statuses};
pub use crate::find::{count_endpoints, count_topics, has_topic, select_put};
pub use crate::migrate::{create_topics, update_version};
pub use crate::opened::{is_empty, prepare_probe, probe};
pub use crate::page::{error_of, next_page};
pub use crate::purge::{delete_attempts, delete_delivery, select_events, select_tries};
pub use crate::read::{
    select_attempts, select_deliveries, select_endpoints, select_records, select_secrets,
    select_topics,
};
pub use crate::row::{AttemptRow, DeliveryRow, EndpointRow, RowFault, TopicRow, Tried};
pub use crate::seq::Seq;
pub use crate::write::{
    insert_attempt, insert_delivery, insert_endpoint, insert_secret, insert_topic, update_records,
};
