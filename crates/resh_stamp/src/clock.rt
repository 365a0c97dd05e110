ghost use Rattle.std.specs.Prelude.{◌≡◌, ◌<◌, ◌≤◌, ◌+◌, true};
ghost use Rattle.std.specs.List.{All};
ghost use Rattle.resh_stamp.specs.Times.{end_of_time, has_next, latest, next_time};

use std::marker::Model;

/// Times stay below this.
pub const END_OF_TIME: u64 = 1 << 62;

/// The time of a cell: that of the last event that held it.
#[derive(Debug, Drop)]
pub struct Clock {
    time: u64,
}

impl Model for Clock {
    ghost use Rattle.std.specs.Prelude.{ℕ};

    ghost Value = { ℕ };

    ghost view = { λ c. c.time };
}

impl Clock {
    /// A clock at time 0.
    pub fn new() -> Clock
        ensures { result ≡ 0 }
    {
        Clock { time: 0 }
    }

    pub fn now(&self) -> u64
        ensures { result ≡ self.now }
    {
        self.time
    }

    /// Sets the clock to a time that isn't earlier.
    pub fn set(&mut self, time: u64)
        requires { self.old ≤ time }
        ensures { self.new ≡ time }
    {
        self.time = time;
    }

    /// Whether an event on this clock and on others has a time.
    pub fn has_next(&self, others: &[u64]) -> bool
        ensures { result ≡ has_next self.now others.now }
    {
        latest_of(self.time, others) < END_OF_TIME - 1
    }

    /// The time of an event on this clock and on others: one more than the latest of them.
    pub fn next(&self, others: &[u64]) -> u64
        requires { has_next self.now others.now ≡ true }
        ensures next { result ≡ next_time self.now others.now }
        ensures later { self.now < result }
        ensures later_than_all { All (λ time. time < result) others.now }
        ensures within { result < end_of_time }
    {
        latest_of(self.time, others) + 1
    }
}

fn latest_of(now: u64, others: &[u64]) -> u64
    ensures latest { result ≡ latest now others.now }
    ensures not_earlier { now ≤ result }
    ensures not_earlier_than_all { All (λ time. time ≤ result) others.now }
{
    match others {
        [] => now,
        [first, rest @ ..] => latest_of(now.max(*first), rest),
    }
}
