// Requests, the book that is fed with them, and the law of their lists.
#![tactic(auto)]

mod laws;
mod refusal;
mod request;

pub use laws::{book_stands, lists_upheld};
pub use refusal::Refusal;
pub use request::{Job, Request};
