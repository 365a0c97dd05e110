ghost use Rattle.std.specs.Prelude.{◌≡◌};
ghost use Rattle.resh_ops.specs.Reading.{kind_of};

/// Which operator an update names.
#[derive(Debug, Drop, Clone, Copy, PartialEq, Eq)]
pub enum Kind {
    AddToSet,
    Inc,
    Max,
    Min,
    Mul,
    Pop,
    Push,
    Rename,
    Set,
    Unset,
}

impl Kind {
    /// The operator of a name, such as `$set`.
    pub fn of(name: &str) -> Option<Kind>
        ensures { result ≡ kind_of name.now }
    {
        match name {
            "$addToSet" => Some(Kind::AddToSet),
            "$inc" => Some(Kind::Inc),
            "$max" => Some(Kind::Max),
            "$min" => Some(Kind::Min),
            "$mul" => Some(Kind::Mul),
            "$pop" => Some(Kind::Pop),
            "$push" => Some(Kind::Push),
            "$rename" => Some(Kind::Rename),
            "$set" => Some(Kind::Set),
            "$unset" => Some(Kind::Unset),
            _ => None,
        }
    }
}
