//! The base that publishes the copies of a store: what a store asks of it, the one over `left_right`, whose writer
//! waits for looks, and the one over `two_copies`, whose writer does not wait.

pub(crate) mod left_right_seat;
pub(crate) mod left_right_writer;
pub(crate) mod publisher;
pub(crate) mod seat;
pub(crate) mod two_copies_seat;
pub(crate) mod two_copies_writer;
