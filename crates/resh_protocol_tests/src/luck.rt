//! What calls meet by a plan, and without one.

use resh_luck::{CalmLuck, Delivery, Fate, Kind, Luck, PlanFate, PlanRow, PlannedLuck, delivered};
use resh_value::{Copied, NoMemory};
use std::alloc::Global;
use std::test::Fail;

const fn row(kind: Kind, first: u32, last: u32, fate: PlanFate) -> PlanRow {
    PlanRow {
        kind,
        first,
        last,
        fate,
    }
}

fn planned(alloc: Global, rows: &[PlanRow]) -> Result<PlannedLuck, NoMemory> {
    Ok(PlannedLuck::new(Vec::from_slice(alloc, rows)?))
}

#[test]
fn rows_are_copied(rt: HostRuntime) -> Result<(), Fail> {
    let lost = row(Kind::Deliver, 2, 65, PlanFate::Lost);
    assert_eq!(rt; lost.copied(rt.alloc())?, lost);
    Ok(())
}

fn rows() -> [PlanRow; 6] {
    [
        row(Kind::Commit, 3, 4, PlanFate::Failed),
        row(Kind::Deliver, 1, 9, PlanFate::Twice),
        row(Kind::Commit, 2, 6, PlanFate::CrashedBefore),
        row(Kind::Commit, 6, 7, PlanFate::CrashedAfter),
        row(Kind::Commit, 4, 5, PlanFate::Failed),
        row(Kind::Commit, 9, 9, PlanFate::Lost),
    ]
}

/// What commits meet by these rows, in turn.
const FATES: [Fate; 9] = [
    Fate::Kept,
    Fate::CrashedBefore,
    Fate::Failed,
    Fate::Failed,
    Fate::CrashedBefore,
    Fate::CrashedBefore,
    Fate::CrashedAfter,
    Fate::Kept,
    Fate::Kept,
];

/// The first place at which a commit meets something else.
fn wrong_commit<L: Luck>(luck: &mut L, fates: &[Fate]) -> Option<usize> {
    for (place, fate) in fates.iter().enumerate() {
        if luck.commit() != *fate {
            return Some(place);
        }
    }
    None
}

/// The commits and deliveries, the losses, crashes and failures.
fn counts<L: Luck>(luck: &L) -> [u64; 5] {
    [
        luck.commits(),
        luck.deliveries(),
        luck.losses(),
        luck.crashes(),
        luck.failures(),
    ]
}

/// The first wrong commit, the counts after all, and what a delivery meets then.
fn met(alloc: Global) -> Result<(Option<usize>, [u64; 5], Delivery), NoMemory> {
    let mut luck = planned(alloc, &rows())?;
    let wrong = wrong_commit(&mut luck, &FATES);
    let counts = counts(&luck);
    Ok((wrong, counts, luck.deliver()))
}

#[test]
fn the_first_row_that_has_a_call_answers_it(rt: HostRuntime) -> Result<(), Fail> {
    assert_eq!(rt; met(rt.alloc())?, (None, [9, 0, 0, 4, 2], Delivery::Twice));
    Ok(())
}

/// Whether a delivery comes where so many are lost from the first on, and how many were asked for.
fn tried(alloc: Global, last: u32) -> Result<(bool, u64), NoMemory> {
    let mut luck = planned(alloc, &[row(Kind::Deliver, 1, last, PlanFate::Lost)])?;
    let comes = delivered(&mut luck);
    Ok((comes, luck.deliveries()))
}

#[test]
fn a_delivery_is_tried_64_times(rt: HostRuntime) -> Result<(), Fail> {
    for (last, wanted) in [
        (1, (true, 2)),
        (63, (true, 64)),
        (64, (false, 64)),
        (65, (false, 64)),
    ] {
        assert_eq!(rt; tried(rt.alloc(), last)?, wanted, "{last} lost");
    }
    Ok(())
}

/// Whether a commit is kept and a delivery comes, and the counts after both.
fn calmly() -> (bool, [u64; 5]) {
    let mut calm = CalmLuck::new();
    let kept = calm.commit() == Fate::Kept;
    let comes = delivered(&mut calm);
    (kept && comes, counts(&calm))
}

#[test]
fn nothing_is_met_without_a_plan(rt: HostRuntime) -> Result<(), Fail> {
    assert_eq!(rt; calmly(), (true, [1, 1, 0, 0, 0]));
    Ok(())
}
