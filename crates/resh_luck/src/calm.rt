ghost use Rattle.std.specs.Prelude.{◌≡◌, []};
ghost use Rattle.resh_luck.specs.Fates.{no_calls, no_counts};

use crate::fate::{Delivery, Fate};
use crate::luck::Luck;

/// Keeps every step, and hands everything over once.
#[derive(Debug, Drop)]
pub struct CalmLuck {
    commits: u64,
    deliveries: u64,
}

impl CalmLuck {
    /// A luck without rows, of which no call was made.
    pub fn new() -> CalmLuck
        ensures told { ⟦<CalmLuck as Luck>⟧.told result ≡ no_calls [] }
        ensures counts { ⟦<CalmLuck as Luck>⟧.counts result ≡ no_counts }
    {
        CalmLuck {
            commits: 0,
            deliveries: 0,
        }
    }
}

impl Luck for CalmLuck {
    ghost told = { λ s. record { rows = []; commits = s.commits; deliveries = s.deliveries } };

    ghost counts = { λ s. no_counts };

    #[tactic(auto, unfolding(crate::specs::Fates::met))]
    fn commit(&mut self) -> Fate {
        self.commits = self.commits.saturating_add(1);
        Fate::Kept
    }

    #[tactic(auto, unfolding(crate::specs::Fates::met))]
    fn deliver(&mut self) -> Delivery {
        self.deliveries = self.deliveries.saturating_add(1);
        Delivery::Once
    }

    fn commits(&self) -> u64 {
        self.commits
    }

    fn deliveries(&self) -> u64 {
        self.deliveries
    }

    fn losses(&self) -> u64 {
        0
    }

    fn crashes(&self) -> u64 {
        0
    }

    fn failures(&self) -> u64 {
        0
    }
}
