ghost use Rattle.std.specs.Prelude.{◌≡◌, ◌<◌, ◌≤◌, ◌+◌, ◌^◌, ℕ, true, false};
ghost use Rattle.resh_luck.specs.Fates.{has_call, no_calls, no_counts};
ghost use Rattle.resh_luck.specs.Spans.{IsSpan, next_met};

use crate::fate::{Delivery, Fate};
use crate::luck::Luck;
use crate::row::{Kind, PlanFate, PlanRow};
use std::marker::Model;

/// What the next calls of one kind meet, up to the first that may meet another.
#[derive(Debug, Drop, Clone, Copy)]
struct Span {
    fate: Option<PlanFate>,
    until: u64,
}

/// Answers by the first row that has the call. The rows are looked at again only where one begins or has ended.
#[derive(Debug, Drop)]
pub struct PlannedLuck {
    rows: Vec<PlanRow>,
    commits: u64,
    deliveries: u64,
    next_commits: Span,
    next_deliveries: Span,
    losses: u64,
    crashes: u64,
    failures: u64,
}

impl Model for PlannedLuck {
    ghost use Rattle.resh_luck.specs.Spans.{ArePlanned, LuckOf, told_of};

    ghost Value = { LuckOf };

    ghost view = { λ s. record {
      told = told_of s.rows.items s.commits s.deliveries;
      counts = record { losses = s.losses; crashes = s.crashes; failures = s.failures };
    } };

    ghost invariant = { λ s.
        ArePlanned (told_of s.rows.items s.commits s.deliveries) s.next_commits s.next_deliveries };
}

impl PlannedLuck {
    /// A luck of these rows, of which no call was made.
    pub fn new(rows: Vec<PlanRow>) -> PlannedLuck
        ensures told { ⟦<PlannedLuck as Luck>⟧.told result ≡ no_calls rows.items }
        ensures counts { ⟦<PlannedLuck as Luck>⟧.counts result ≡ no_counts }
    {
        let unknown = Span {
            fate: None,
            until: 0,
        };
        PlannedLuck {
            rows,
            commits: 0,
            deliveries: 0,
            next_commits: unknown,
            next_deliveries: unknown,
            losses: 0,
            crashes: 0,
            failures: 0,
        }
    }
}

fn has(row: &PlanRow, kind: Kind, call: u64) -> bool
    ensures { result ≡ has_call kind call row.now }
{
    row.kind == kind && u64::from(row.first) <= call && call <= u64::from(row.last)
}

/// The first call behind one that the row hasn't, from which on it may have one.
fn begins(row: &PlanRow, kind: Kind, call: u64) -> u64
    requires hasnt { has_call kind call row.now ≡ false }
    requires early { call ≤ 2 ^ 32 }
    ensures later { call < result }
    ensures before { (k : ℕ) → call ≤ k → k < result → has_call kind k row.now ≡ false }
{
    if row.kind == kind && call < u64::from(row.first) {
        u64::from(row.first)
    } else {
        u64::MAX
    }
}

/// What a call and those behind it meet.
fn span_from(rows: &[PlanRow], kind: Kind, call: u64) -> Span
    requires { call ≤ 2 ^ 32 }
    ensures later { call < result.until }
    ensures span { IsSpan rows.now kind call result }
{
    let mut until = u64::MAX;
    for row in rows {
        if has(row, kind, call) {
            return Span {
                fate: Some(row.fate),
                until: until.min(u64::from(row.last) + 1),
            };
        }
        until = until.min(begins(row, kind, call));
    }
    Span { fate: None, until }
}

/// What the next call meets after so many; the span is that of the rows again where it ended.
fn next_met(rows: &[PlanRow], kind: Kind, found: u64, span: &mut Span) -> Option<PlanFate>
    requires { IsSpan rows.now kind (found + 1) span.old }
    ensures met { result ≡ next_met rows.now kind found }
    ensures span { IsSpan rows.now kind (found + 1) span.new }
{
    if found >= 1 << 32 {
        return None;
    }
    if span.until <= found + 1 {
        *span = span_from(rows, kind, found + 1);
    }
    span.fate
}

impl Luck for PlannedLuck {
    ghost told = { λ s. s.told };

    ghost counts = { λ s. s.counts };

    fn commit(&mut self) -> Fate {
        let met = next_met(
            self.rows.as_slice(),
            Kind::Commit,
            self.commits,
            &mut self.next_commits,
        );
        self.commits = self.commits.saturating_add(1);
        match met {
            Some(PlanFate::CrashedBefore) => {
                self.crashes = self.crashes.saturating_add(1);
                return Fate::CrashedBefore;
            }
            Some(PlanFate::CrashedAfter) => {
                self.crashes = self.crashes.saturating_add(1);
                return Fate::CrashedAfter;
            }
            Some(PlanFate::Failed) => {
                self.failures = self.failures.saturating_add(1);
                return Fate::Failed;
            }
            _ => return Fate::Kept,
        }
    }

    fn deliver(&mut self) -> Delivery {
        let met = next_met(
            self.rows.as_slice(),
            Kind::Deliver,
            self.deliveries,
            &mut self.next_deliveries,
        );
        self.deliveries = self.deliveries.saturating_add(1);
        match met {
            Some(PlanFate::Lost) => {
                self.losses = self.losses.saturating_add(1);
                return Delivery::Lost;
            }
            Some(PlanFate::Twice) => return Delivery::Twice,
            _ => return Delivery::Once,
        }
    }

    fn commits(&self) -> u64 {
        self.commits
    }

    fn deliveries(&self) -> u64 {
        self.deliveries
    }

    fn losses(&self) -> u64 {
        self.losses
    }

    fn crashes(&self) -> u64 {
        self.crashes
    }

    fn failures(&self) -> u64 {
        self.failures
    }
}
