//! A reply, and whether it has an entry.
use ut_plain::Reply;

/// A reply, and whether the log has to append the store's frame before it is handed out.
#[derive(Drop)]
pub enum Response {
    Answered(Reply),
    Append(Reply),
}
