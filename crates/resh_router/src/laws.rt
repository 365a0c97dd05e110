//! Laws of targets and merging, each a contract of a function that does nothing.

ghost use Rattle.resh_router.specs.Laws.{AnswersAlone, AnswersByTarget, MergesToAnswer};

/// What the shards of a command's target hold is enough for its answer; of an update what the owner of its result holds
/// is wanted too.
pub fn targets_answer()
    ensures together { AnswersByTarget }
    ensures alone { AnswersAlone }
{}

/// The replies of the targets' own parts to a find and to a count merge to the reply of the whole collection.
pub fn finds_and_counts_merge()
    ensures { MergesToAnswer }
{}
