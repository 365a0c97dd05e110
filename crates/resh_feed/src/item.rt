ghost use Rattle.std.specs.Prelude.{◌≡◌};
ghost use Rattle.resh_feed.specs.Items.{past};

use resh_oplog::What;
use resh_stamp::Mark;
use resh_value::Value;

/// Where reading goes on after an item: behind the `_id` of a clone item, or behind the mark of a log entry.
#[derive(Debug, Drop)]
pub enum After {
    ById(Value),
    ByMark(Mark),
}

/// An item of a donor's feed.
#[derive(Debug, Drop)]
pub struct Item {
    pub what: What,
    pub after: After,
}

/// How far a feed was read.
#[derive(Debug, Drop)]
pub struct Reading {
    /// The `_id` of the last clone item; `None` where it is the kept record's.
    pub last_id: Option<Value>,
    /// The mark of the last log entry.
    pub mark: Option<Mark>,
    /// Whether the last item was the feed's last.
    pub finished: bool,
}

impl Reading {
    /// How far the feed was read with one more item.
    pub fn past(self, item: Item) -> Reading
        ensures { result ≡ past self item }
    {
        let Reading { last_id, mark, .. } = self;
        let Item { what, after } = item;
        let finished = matches!(what, What::Final);
        match after {
            After::ById(id) => Reading {
                last_id: Some(id),
                mark,
                finished,
            },
            After::ByMark(mark) => Reading {
                last_id,
                mark: Some(mark),
                finished,
            },
        }
    }
}
