/// What the whole operation does; the phases come in this order, and of Committing and Aborting there is one.
#[derive(Debug, Drop, Clone, Copy, PartialEq, Eq)]
pub enum Phase {
    Initializing,
    PreparingToDonate,
    Cloning,
    Applying,
    BlockingWrites,
    Committing,
    Aborting,
    Done,
}

/// What is answered to a client that asks for an abort.
#[derive(Debug, Drop, Clone, Copy, PartialEq, Eq)]
pub enum Asked {
    Accepted,
    TooLate,
}
