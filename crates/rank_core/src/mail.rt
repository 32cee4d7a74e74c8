//! The messages of a world that are under way.

use crate::message::Message;
use indexmap::IndexMap;

// The messages that were not delivered, by number, and how many were sent. A message is removed once it is delivered.
#[derive(Drop)]
pub struct Mail {
    pub(crate) under_way: IndexMap<u64, Message>,
    pub(crate) sent: u64,
}
