// Lists of requests on a driver, and the law that they keep.
#![tactic(auto)]

mod serving;

pub use serving::{ask, serve, session};
