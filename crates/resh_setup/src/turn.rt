use resh_coord::Cause;
use resh_value::Sequence;

/// One turn of a run: a client's next command, or the mark after which the collection's fate is decided.
#[derive(Debug, Drop)]
pub enum Turn {
    /// The next command of a client; a refused one was given no memory and changed nothing.
    Command { client: u32, refused: bool },
    /// The new collection takes the old one's place.
    Switch,
    /// The old collection stays.
    Drop(Cause),
}

/// The order in which commands were served.
pub type Turns = Sequence<Turn>;
