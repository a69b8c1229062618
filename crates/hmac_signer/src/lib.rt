//! The signer of posts: HMAC-SHA256 (RFC 2104) and the header `webhook-signature` of Standard Webhooks 1.0.0.
#![tactic(auto)]

mod header;
mod mac;

pub use crate::header::signature_header;
pub use crate::mac::hmac;
