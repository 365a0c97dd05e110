/// Where in its turn a job stands when it passes a gate.
#[derive(Debug, Clone, Copy, PartialEq, Eq, Drop)]
pub enum Point {
    BeforeCommand,
    AfterCommand,
    InsideBatch,
    AfterBatch,
}

/// What jobs pass on their way. A test may hold a job there.
pub trait Gate: Sync {
    /// Lets a job, by its number, go on.
    fn pass(&self, job: u32, point: Point);
}

/// Holds no job.
#[derive(Debug, Clone, Copy, Drop)]
pub struct OpenGate;

impl Gate for OpenGate {
    fn pass(&self, _job: u32, _point: Point) {}
}
