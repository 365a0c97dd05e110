use crate::fields::Fields;
use crate::sequence::Sequence;
use crate::words::Words;

/// The number of a shard, from 0.
#[derive(Debug, Drop, Clone, Copy, PartialEq, Eq, PartialOrd, Ord, Hash)]
pub struct ShardId(pub u32);

/// A value of a document, in one of eight kinds.
#[derive(Debug, Drop)]
pub enum Value {
    Null,
    Int(i64),
    Text(Words),
    Doc(Document),
    List(Items),
    Oid([u8; 12]),
    Bool(bool),
    Date(i64),
}

/// A document: values under rising names.
pub type Document = Fields<Value>;
/// A list of documents.
pub type Documents = Sequence<Document>;
/// An array's values.
pub type Items = Sequence<Value>;
/// A list of names.
pub type Names = Sequence<Words>;
