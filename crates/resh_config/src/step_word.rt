ghost use Rattle.std.specs.Prelude.{◌≡◌};
ghost use Rattle.resh_config.specs.Steps.{step_word, link_word, link_event};

use crate::names::is_same;
use resh_setup::Event;
use resh_value::ShardId;

/// What the first word of a step says that it is.
#[derive(Drop, Clone, Copy)]
pub(crate) enum StepWord {
    Client,
    Begin,
    Tell,
    Retell,
    Advance,
    Apply,
    Again,
    Report,
    Link(LinkWord),
}

/// A step of a link, by its recipient and its donor alone.
#[derive(Drop, Clone, Copy)]
pub(crate) enum LinkWord {
    Clone,
    Fetch,
    Cut,
    Record,
    Crash,
}

impl LinkWord {
    pub(crate) fn event(self, recipient: ShardId, donor: ShardId) -> Event
        ensures { result ≡ link_event self recipient donor }
    {
        match self {
            LinkWord::Clone => Event::Clone { recipient, donor },
            LinkWord::Fetch => Event::Fetch { recipient, donor },
            LinkWord::Cut => Event::Cut { recipient, donor },
            LinkWord::Record => Event::Record { recipient, donor },
            LinkWord::Crash => Event::Crash { recipient, donor },
        }
    }
}

/// The step that a first word names.
pub(crate) fn step_word(name: &str) -> Option<StepWord>
    ensures { result ≡ step_word name.now }
{
    if is_same(name, "client") {
        return Some(StepWord::Client);
    }
    if is_same(name, "begin") {
        return Some(StepWord::Begin);
    }
    if is_same(name, "tell") {
        return Some(StepWord::Tell);
    }
    if is_same(name, "retell") {
        return Some(StepWord::Retell);
    }
    if is_same(name, "advance") {
        return Some(StepWord::Advance);
    }
    if is_same(name, "apply") {
        return Some(StepWord::Apply);
    }
    if is_same(name, "again") {
        return Some(StepWord::Again);
    }
    if is_same(name, "report") {
        return Some(StepWord::Report);
    }
    match link_word(name) {
        Some(word) => Some(StepWord::Link(word)),
        None => None,
    }
}

fn link_word(name: &str) -> Option<LinkWord>
    ensures { result ≡ link_word name.now }
{
    if is_same(name, "clone") {
        return Some(LinkWord::Clone);
    }
    if is_same(name, "fetch") {
        return Some(LinkWord::Fetch);
    }
    if is_same(name, "cut") {
        return Some(LinkWord::Cut);
    }
    if is_same(name, "record") {
        return Some(LinkWord::Record);
    }
    if is_same(name, "crash") {
        return Some(LinkWord::Crash);
    }
    None
}
