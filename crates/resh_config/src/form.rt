/// What the names of a command's object say that it asks.
#[derive(Drop)]
pub(crate) enum Form {
    Insert,
    Update,
    Delete,
    Find,
    Count,
    Abort,
}
