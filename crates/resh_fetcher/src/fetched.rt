/// What a fetch of log entries brought.
#[derive(Debug, Drop, Clone, Copy, PartialEq, Eq)]
pub enum Fetched {
    /// So many entries, and whether the last one is the feed's last.
    Got { n: u32, last: bool },
    Nothing,
}
