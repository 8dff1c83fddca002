//! What clients ask and are told: requests, replies, and the descriptors that a client has open.
#![tactic(auto)]

mod laws;
mod reply;
mod request;
mod session;
mod vector;

pub use laws::without_faults_replies_are_plain;
pub use reply::{Octets, Reply, push_reply};
pub use request::{Request, RequestRefusal, read_request};
pub use session::{DESCRIPTORS, Session};
pub use vector::VectorBytes;

#[cfg(test)]
mod tests;
