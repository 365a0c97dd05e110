//! What is read of a link.

ghost use Rattle.std.specs.Prelude.{◌≡◌, true, length, slice_get};
ghost use Rattle.std.specs.Option.{option_copied, option_map};
ghost use Rattle.resh_fetcher.specs.Conditions.{may_clone, may_cut, may_fetch};
ghost use Rattle.resh_fetcher.specs.Links.{ends, is_cloned, last_id, IsLink};

use crate::link::Link;
use resh_oplog::What;
use resh_progress::{Counts, Kept};
use resh_value::{ShardId, Value};

impl Link {
    pub fn recipient(&self) -> ShardId
        ensures { result ≡ self.now.recipient }
    {
        self.state.recipient
    }

    pub fn donor(&self) -> ShardId
        ensures { result ≡ self.now.donor }
    {
        self.state.donor
    }

    /// How many lanes the recipient has.
    pub fn lanes(&self) -> u32
        ensures lanes { result ≡ self.now.lanes }
        ensures link { IsLink self.now }
    {
        self.state.lanes
    }

    /// How many items are read at a time.
    pub fn batch(&self) -> u32
        ensures { result ≡ self.now.batch }
    {
        self.state.batch
    }

    pub fn is_started(&self) -> bool
        ensures { result ≡ self.now.started }
    {
        self.state.started
    }

    pub fn fetch_time(&self) -> u64
        requires { self.now.started ≡ true }
        ensures { result ≡ self.now.fetch_time }
    {
        self.state.fetch_time
    }

    pub fn is_open(&self) -> bool
        ensures { result ≡ self.now.is_open }
    {
        self.state.is_open
    }

    pub fn has_failed(&self) -> bool
        ensures { result ≡ self.now.failed }
    {
        self.state.failed
    }

    /// Whether clone items may be got: it is open and not read out.
    pub fn may_clone(&self) -> bool
        ensures { result ≡ may_clone self.now }
    {
        self.state.is_open && !self.state.read_out
    }

    /// Whether log entries may be got: it is open and read out, and hasn't got the feed's last entry.
    pub fn may_fetch(&self) -> bool
        ensures { result ≡ may_fetch self.now }
    {
        self.state.is_open && self.state.read_out && !self.state.reading.finished
    }

    /// Whether a batch may be cut: none is out, and the buffer isn't empty.
    pub fn may_cut(&self) -> bool
        ensures { result ≡ may_cut self.now }
    {
        self.state.out.is_none() && self.state.buffer.len() > 0
    }

    /// The record to which it goes back.
    pub fn kept(&self) -> &Kept
        ensures kept { result.now ≡ self.now.kept }
        ensures lanes { length result.now.lanes ≡ self.now.lanes }
        ensures link { IsLink self.now }
    {
        &self.state.kept
    }

    /// Whether the feed's last entry is kept.
    pub fn finished(&self) -> bool
        ensures { result ≡ self.now.kept.finished }
    {
        self.state.kept.finished
    }

    /// The place behind the batch that is out; `None` exactly where none is.
    pub fn batch_end(&self) -> Option<u64>
        ensures { result ≡ option_map (λ out. out.place) self.now.out }
    {
        match &self.state.out {
            Some(out) => Some(out.place),
            None => None,
        }
    }

    /// Each lane's position at the end of the batch that is out, and the kept one where none is.
    pub fn ends(&self) -> &Counts
        ensures ends { result.now ≡ ends self.now }
        ensures lanes { length result.now ≡ self.now.lanes }
    {
        match &self.state.out {
            Some(out) => &out.lanes,
            None => &self.state.kept.lanes,
        }
    }

    /// How many items were got and aren't in a batch.
    pub fn buffered(&self) -> u64
        ensures { result ≡ length self.now.buffer }
    {
        self.state.buffer.len()
    }

    /// The buffer's item at a place, counted from 0.
    pub fn item(&self, n: u64) -> Option<&What>
        ensures { option_copied result ≡ option_map (λ item. item.what) (slice_get self.now.buffer n) }
    {
        match self.state.buffer.get(n) {
            Some(item) => Some(&item.what),
            None => None,
        }
    }

    /// The `_id` of the last clone item that was got.
    pub fn last_id(&self) -> Option<&Value>
        ensures { option_copied result ≡ last_id self.now }
    {
        match &self.state.reading.last_id {
            Some(id) => Some(id),
            None => self.state.kept.last_id.as_ref(),
        }
    }

    /// Whether the clone part was read to its end.
    pub fn read_out(&self) -> bool
        ensures { result ≡ self.now.read_out }
    {
        self.state.read_out
    }

    /// Whether no clone item is left: none comes, none is in the buffer or in a batch that is out.
    pub fn cloned(&self) -> bool
        ensures { result ≡ is_cloned self.now }
    {
        self.state.read_out && self.state.clones <= self.state.kept.place
    }

    /// Whether the last fetch brought fewer entries than it might.
    pub fn near(&self) -> bool
        ensures { result ≡ self.now.near }
    {
        self.state.near
    }

    /// Whether the feed's last entry was got.
    pub fn ended(&self) -> bool
        ensures { result ≡ self.now.reading.finished }
    {
        self.state.reading.finished
    }

    /// How often it went back; it stays at the greatest number.
    pub fn crashes(&self) -> u32
        ensures { result ≡ self.now.crashes }
    {
        self.state.crashes
    }
}
