ghost use Rattle.std.specs.Prelude.{◌≡◌, None};
ghost use Rattle.resh_rules.specs.Rules.{rule_by};

use resh_value::ShardId;

/// Which rule an entry met, and from whose stash a delete took.
#[derive(Debug, Drop, Clone, Copy, PartialEq, Eq)]
pub struct Rule {
    /// 1 to 4.
    pub number: u8,
    /// The donor whose waiting document came into the output.
    pub took: Option<ShardId>,
}

impl Rule {
    /// A rule by which nothing was taken from a stash.
    pub(crate) fn met(number: u8) -> Rule
        ensures { result ≡ rule_by number None }
    {
        Rule { number, took: None }
    }
}

/// Where an entry's donor finds the `_id`.
#[derive(Debug, Drop, Clone, Copy, PartialEq, Eq)]
pub(crate) enum Found {
    /// In its own stash.
    Waiting,
    /// Neither there nor in the output.
    Nothing,
    /// In the output, and the document is its own.
    Own,
    /// In the output, and the document is another donor's.
    Others,
}
