ghost use Rattle.std.specs.Prelude.{◌≡◌, ◌+◌, ◌<◌, ◌≤◌, true, false, is_ok, nat_lt, length, IfOk, OnOk, OnErr};
ghost use Rattle.std.specs.List.{All};
ghost use Rattle.resh_value.specs.Limits.{end_of_places};
ghost use Rattle.resh_value.specs.Whole as value;
ghost use Rattle.resh_oplog.specs.Logs.{is_whole, AreWhole};
ghost use Rattle.resh_feed.specs.Items as feed;
ghost use Rattle.resh_feed.specs.Items.{up_to_final};
ghost use Rattle.resh_fetcher.specs.Conditions.{may_clone, may_cut, may_fetch, may_keep};
ghost use Rattle.resh_fetcher.specs.Links.{batch_kept, closed, cut, failed, fresh, gone_back, mark_read, next_entries, out_end, sent_out, started, told_of, with_cloned, with_fetched, with_items};

use crate::batch::Batch;
use crate::fetched::Fetched;
use crate::items::{
    cloned_items, cut_behind_final, fetched_items, first_whats, has_final, last_id_of,
    last_mark_of, take_first,
};
use crate::state::{LinkState, Out};
use resh_feed::{Item, Reading};
use resh_oplog::{Cloned, Entries, Log};
use resh_progress::{Counts, Progress};
use resh_stamp::{Mark, Stamp};
use resh_value::{END_OF_PLACES, NoMemory, Sequence, ShardId};
use std::alloc::Global;
use std::marker::Model;
use std::mem;

/// A recipient's link to a donor.
#[derive(Debug, Drop)]
pub struct Link {
    alloc: Global,
    pub(crate) state: LinkState,
}

impl Model for Link {
    ghost use Rattle.resh_fetcher.specs.contracts.state.LinkState as link;
    ghost use Rattle.resh_fetcher.specs.Links.{LinkOf, IsLink};

    ghost Value = { LinkOf };

    ghost coded = { link.the_row.coded };

    ghost view = { λ l. l.state };

    ghost invariant = { λ l. IsLink l.state };
}

impl Link {
    /// A link that isn't started, to a donor of whose feed nothing is kept.
    pub fn new(
        alloc: Global,
        recipient: ShardId,
        donor: ShardId,
        lanes: u32,
        batch: u32,
    ) -> Result<Link, NoMemory>
        requires lanes { 0 < lanes }
        requires batch { 0 < batch }
        ensures { IfOk result (λ link. link ≡ fresh recipient donor lanes batch) }
    {
        let progress = Progress::new(alloc, lanes)?;
        let state = LinkState {
            recipient,
            donor,
            lanes,
            batch,
            started: false,
            fetch_time: 0,
            is_open: false,
            failed: false,
            kept: progress.resume().copy(alloc)?,
            out: None,
            buffer: Sequence::new(alloc),
            clones: 0,
            reading: Reading {
                last_id: None,
                mark: None,
                finished: false,
            },
            read_out: false,
            near: false,
            crashes: 0,
        };
        Ok(Link { alloc, state })
    }

    /// Starts it: reading begins at the fetch time.
    pub fn start(&mut self, fetch_time: u64)
        requires { self.old.started ≡ false }
        ensures { self.new ≡ started self.old fetch_time }
    {
        self.state.started = true;
        self.state.fetch_time = fetch_time;
        self.state.is_open = true;
    }

    pub fn close(&mut self)
        ensures { self.new ≡ closed self.old }
    {
        self.state.is_open = false;
    }

    pub fn fail(&mut self)
        ensures { self.new ≡ failed self.old }
    {
        self.state.is_open = false;
        self.state.failed = true;
    }

    /// Puts documents that stood at the fetch time into the buffer, as inserts, and gives their number. Want of memory
    /// leaves all as it was.
    pub fn take_cloned(&mut self, cloned: Cloned) -> Result<u32, NoMemory>
        requires may { may_clone self.old ≡ true }
        requires most { length cloned.documents ≤ self.old.batch }
        requires whole { All (λ document. value.is_whole document ≡ true) cloned.documents }
        ensures ok { OnOk result (self.new ≡ with_cloned self.old cloned.documents cloned.end) }
        ensures count { IfOk result (λ n. n ≡ length cloned.documents) }
        ensures unchanged { OnErr result (self.new ≡ self.old) }
    {
        let Cloned { documents, end } = cloned;
        let count = count_within(documents.len(), self.state.batch);
        let clones = sum(self.state.clones, count as u64)?;
        let last_id = last_id_of(self.alloc, documents.as_slice())?;
        let items = cloned_items(self.alloc, documents)?;
        self.put(items)?;
        self.state.clones = clones;
        self.state.read_out = end;
        if last_id.is_some() {
            self.state.reading.last_id = last_id;
        }
        Ok(count)
    }

    /// The log's entries that come next, up to a final one.
    pub fn fetch(&self, log: &Log) -> Result<Entries, NoMemory>
        requires may { may_fetch self.now ≡ true }
        ensures next { IfOk result (λ entries. entries ≡ next_entries self.now log.now.entries) }
        ensures most { IfOk result (λ entries. length entries ≤ self.now.batch) }
        ensures whole { IfOk result (λ entries. AreWhole entries) }
        ensures last { IfOk result (λ entries. up_to_final entries ≡ entries) }
    {
        let entries = log.after(
            Some(self.mark_read()),
            self.state.recipient,
            self.state.batch,
        )?;
        Ok(cut_behind_final(entries))
    }

    /// Puts log entries into the buffer. Want of memory leaves all as it was.
    pub fn take_fetched(&mut self, entries: Entries) -> Result<Fetched, NoMemory>
        requires may { may_fetch self.old ≡ true }
        requires most { length entries ≤ self.old.batch }
        requires whole { AreWhole entries }
        requires last { up_to_final entries ≡ entries }
        ensures ok { OnOk result (self.new ≡ with_fetched self.old entries) }
        ensures told { IfOk result (λ fetched. fetched ≡ told_of entries) }
        ensures unchanged { OnErr result (self.new ≡ self.old) }
    {
        let n = count_within(entries.len(), self.state.batch);
        let mark = last_mark_of(entries.as_slice());
        let last = has_final(entries.as_slice());
        let items = fetched_items(self.alloc, entries)?;
        self.put(items)?;
        self.state.near = n < self.state.batch;
        self.state.reading.finished = last;
        if mark.is_some() {
            self.state.reading.mark = mark;
        }
        if n == 0 {
            return Ok(Fetched::Nothing);
        }
        Ok(Fetched::Got { n, last })
    }

    /// Copies of the first `most` items of the buffer, as the batch that is sent next.
    pub fn batch_of(&self, alloc: Global, most: u32, time: u64) -> Result<Batch, NoMemory>
        requires may { may_cut self.now ≡ true }
        requires most { 0 < most }
        ensures cut { IfOk result (λ batch. batch ≡ cut self.now most time) }
        ensures lanes { IfOk result (λ batch. length batch.starts ≡ self.now.lanes) }
        ensures whole { IfOk result (λ batch. All (λ what. is_whole what ≡ true) batch.items) }
        ensures within { IfOk result (λ batch. batch.place + length batch.items < end_of_places) }
    {
        let starts = self.state.kept.lanes.copy()?;
        Ok(Batch {
            donor: self.state.donor,
            place: self.state.kept.place,
            time,
            starts,
            items: first_whats(alloc, self.state.buffer.as_slice(), most)?,
        })
    }

    /// The first `most` items of the buffer are the batch that is out, with each lane's position at its end.
    pub fn send_out(&mut self, most: u32, ends: Counts)
        requires may { may_cut self.old ≡ true }
        requires most { 0 < most }
        requires ends { length ends ≡ self.old.lanes }
        ensures { self.new ≡ sent_out self.old most ends }
    {
        let start = Reading {
            last_id: None,
            mark: self.state.kept.mark,
            finished: false,
        };
        let count = self.state.buffer.len().min(most as u64);
        let buffer = mem::replace(&mut self.state.buffer, Sequence::new(self.alloc));
        let (reading, rest) = take_first(buffer, count, start);
        self.state.buffer = rest;
        self.state.out = Some(Out {
            place: self.state.kept.place + count,
            lanes: ends,
            reading,
        });
    }

    /// The end of the batch that is out becomes the kept record.
    pub fn keep_batch(&mut self)
        requires may { may_keep self.old ≡ true }
        ensures kept { self.new ≡ batch_kept self.old }
        ensures onward { self.old.kept.place ≤ self.new.kept.place }
    {
        if let Some(out) = self.state.out.take() {
            let Out {
                place,
                lanes,
                reading,
            } = out;
            let Reading {
                last_id,
                mark,
                finished,
            } = reading;
            if last_id.is_some() {
                self.state.kept.last_id = last_id;
            }
            self.state.kept.place = place;
            self.state.kept.lanes = lanes;
            self.state.kept.mark = mark;
            self.state.kept.read_out = self.state.read_out && self.state.clones <= place;
            self.state.kept.finished = finished;
        }
    }

    /// Goes back to the kept record: the buffer and the batch that is out are gone.
    pub fn back(&mut self)
        ensures { self.new ≡ gone_back self.old }
    {
        self.state.out = None;
        self.state.buffer = Sequence::new(self.alloc);
        if !self.state.kept.read_out {
            self.state.clones = self.state.kept.place;
        }
        self.state.reading = Reading {
            last_id: None,
            mark: self.state.kept.mark,
            finished: self.state.kept.finished,
        };
        self.state.read_out = self.state.kept.read_out;
        self.state.near = false;
        self.state.crashes = self.state.crashes.saturating_add(1);
    }

    /// Puts items at the buffer's end. Want of memory leaves all as it was.
    fn put(&mut self, items: Vec<Item>) -> Result<(), NoMemory>
        requires { feed.AreWhole items.items }
        ensures ok { OnOk result (self.new ≡ with_items self.old items.items) }
        ensures unchanged { OnErr result (self.new ≡ self.old) }
    {
        let mut items = items;
        let place = match &self.state.out {
            Some(out) => out.place,
            None => self.state.kept.place,
        };
        sum(place + self.state.buffer.len(), items.len() as u64)?;
        let buffer = mem::replace(&mut self.state.buffer, Sequence::new(self.alloc));
        let mut buffer = buffer.into_vec();
        let put = buffer.append(&mut items);
        self.state.buffer = Sequence::from_vec(buffer);
        put?;
        Ok(())
    }

    /// The mark past which the log is read.
    fn mark_read(&self) -> Mark
        ensures { result ≡ mark_read self.now }
    {
        match self.state.reading.mark {
            Some(mark) => mark,
            None => Mark {
                stamp: Stamp {
                    time: self.state.fetch_time,
                    node: u32::MAX,
                },
                part: u32::MAX,
            },
        }
    }
}

/// The sum of two numbers; want of memory exactly where it passes the last place.
fn sum(a: u64, b: u64) -> Result<u64, NoMemory>
    ensures sum { IfOk result (λ n. n ≡ a + b) }
    ensures within { IfOk result (λ n. n < end_of_places) }
    ensures exactly { is_ok result ≡ nat_lt (a + b) end_of_places }
{
    match a.checked_add(b) {
        Some(n) => {
            if n < END_OF_PLACES {
                return Ok(n);
            }
            Err(NoMemory)
        }
        None => Err(NoMemory),
    }
}

/// A number of items that is at most a batch's.
fn count_within(count: u64, batch: u32) -> u32
    requires { count ≤ batch }
    ensures { result ≡ count }
{
    count as u32
}
