/// What a message does to a machine.
#[derive(Debug, Drop, Clone, Copy, PartialEq, Eq)]
pub enum Step {
    Moved,
    Same,
}
