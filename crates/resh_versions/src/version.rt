use resh_value::Document;

/// A document, or nothing, from a time on.
#[derive(Debug, Drop)]
pub(crate) struct Version {
    pub(crate) time: u64,
    pub(crate) document: Option<Document>,
}
