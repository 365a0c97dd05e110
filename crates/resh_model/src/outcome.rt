use resh_coord::End;
use resh_setup::{Answers, Holdings};

/// What an order comes to: the end, what each client was answered, what each shard then holds, and the page's bytes.
#[derive(Debug, Drop)]
pub struct Replay {
    pub end: End,
    pub answers: Answers,
    pub holdings: Holdings,
    pub page: Vec<u8>,
}

/// The same before the page is written.
#[derive(Debug, Drop)]
pub(crate) struct Served {
    pub(crate) end: End,
    pub(crate) answers: Answers,
    pub(crate) holdings: Holdings,
}
