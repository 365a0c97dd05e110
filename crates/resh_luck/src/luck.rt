ghost use Rattle.std.specs.Prelude.{◌≡◌, ℕ};
ghost use Rattle.resh_luck.specs.Fates.{Told, Counts, next_fate, next_delivery, after_commit, after_delivery};
ghost use Rattle.resh_luck.specs.Fates.{DeliveryRose, FateRose, HasRisen};

use crate::fate::{Delivery, Fate};

/// What the steps of one activity meet.
pub trait Luck {
    // its rows and the numbers of its calls
    ghost told: { Self → Told };

    // how often it crashed, failed and lost
    ghost counts: { Self → Counts };

    /// What the next step that is kept durably meets.
    fn commit(&mut self) -> Fate
        ensures fate { result ≡ next_fate (told self.old) }
        ensures told { told self.new ≡ after_commit (told self.old) }
        ensures counts { HasRisen (counts self.old) (counts self.new) }
        ensures rose { FateRose result (counts self.old) (counts self.new) };

    /// What the next message or answer that is handed over meets.
    fn deliver(&mut self) -> Delivery
        ensures delivery { result ≡ next_delivery (told self.old) }
        ensures told { told self.new ≡ after_delivery (told self.old) }
        ensures counts { HasRisen (counts self.old) (counts self.new) }
        ensures rose { DeliveryRose result (counts self.old) (counts self.new) };

    /// How many commits were asked for; 2^64 - 1 stands for more.
    fn commits(&self) -> u64
        ensures { result ≡ (told self.now).commits };

    /// How many deliveries were asked for; 2^64 - 1 stands for more.
    fn deliveries(&self) -> u64
        ensures { result ≡ (told self.now).deliveries };

    fn losses(&self) -> u64
        ensures { result ≡ (counts self.now).losses };

    fn crashes(&self) -> u64
        ensures { result ≡ (counts self.now).crashes };

    fn failures(&self) -> u64
        ensures { result ≡ (counts self.now).failures };
}
