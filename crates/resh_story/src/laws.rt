//! Laws of a shard's story, each a contract of a function that does nothing.

ghost use Rattle.resh_story.specs.Laws.{CommandsAct, FeedsEnd, FeedsGrow, FeedsTell, InstallsLast, JoinsOutputs};
ghost use Rattle.resh_story.specs.Laws.{KeepsFinals, KeepsLog, KeepsNaming, KeepsStory, OpensStory, WritesOnce};

/// A shard that only loaded documents has its story: what it held at a time and its later entries leave what it holds
/// now. Each write keeps it, named or not, and so does all that a shard is told.
pub fn story_laws()
    ensures opens { OpensStory }
    ensures acts { CommandsAct }
    ensures writes { WritesOnce }
    ensures keeps { KeepsStory }
    ensures names { KeepsNaming }
{}

/// A shard's log stays one. Its feed leaves what the shard holds now and comes to the recipient, grows at its end by
/// each write, and ends with a final entry.
pub fn feed_laws()
    ensures logs { KeepsLog }
    ensures finals { KeepsFinals }
    ensures tells { FeedsTell }
    ensures grows { FeedsGrow }
    ensures ends { FeedsEnd }
{}

/// A shard that installs holds exactly what it is given, of several lanes what the lane of an `_id` has.
pub fn install_laws()
    ensures holds { InstallsLast }
    ensures joins { JoinsOutputs }
{}
