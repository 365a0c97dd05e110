use resh_progress::{Message, Step};
use resh_recip::{Recipient, RecipientPhase, recipient_laws};
use std::test::Fail;

/// The phases before the last one.
const PHASES: [RecipientPhase; 4] = [
    RecipientPhase::AwaitingFetchTime,
    RecipientPhase::Cloning,
    RecipientPhase::Applying,
    RecipientPhase::StrictConsistency,
];

fn tell(recipient: &mut Recipient, message: &Message) -> Option<Step> {
    if recipient.may(message) {
        Some(recipient.on(message))
    } else {
        None
    }
}

// The move of an undisturbed run that leaves the phase of this place, where it may be made.
fn make(recipient: &mut Recipient, place: usize) -> Option<Step> {
    match place {
        0 => tell(recipient, &Message::Donate { fetch_time: 9 }),
        1 => match recipient.phase() {
            RecipientPhase::AwaitingFetchTime => None,
            _ => Some(recipient.cloned()),
        },
        2 => match recipient.phase() {
            RecipientPhase::AwaitingFetchTime | RecipientPhase::Cloning => None,
            _ => Some(recipient.consistent()),
        },
        _ => tell(recipient, &Message::Install),
    }
}

/// What each of the four moves is answered, in turn.
fn moves(recipient: &mut Recipient) -> [Option<Step>; 4] {
    let first = make(recipient, 0);
    let second = make(recipient, 1);
    let third = make(recipient, 2);
    [first, second, third, make(recipient, 3)]
}

/// Whether the moves behind the next one may not be made yet.
fn waits(recipient: &mut Recipient, place: usize) -> bool {
    for later in place.saturating_add(2)..4 {
        if make(recipient, later).is_some() {
            return false;
        }
    }
    true
}

/// Whether the moves up to this place change nothing more.
fn repeats(recipient: &mut Recipient, place: usize) -> bool {
    for earlier in 0..=place {
        if make(recipient, earlier) != Some(Step::Same) {
            return false;
        }
    }
    true
}

/// Whether it was told what only donors are told, or may be.
fn hears_donors(recipient: &Recipient) -> bool {
    for message in [Message::Prepare, Message::Block] {
        if recipient.may(&message) || recipient.was_told(&message) {
            return true;
        }
    }
    false
}

/// The first place at which a recipient doesn't do what it should; none where it ends as it should.
fn wrong_place() -> Option<usize> {
    recipient_laws();
    let mut recipient = Recipient::new();
    for (place, phase) in PHASES.iter().enumerate() {
        let begins = recipient.phase() == *phase;
        let moves = make(&mut recipient, place) == Some(Step::Moved);
        let repeats = repeats(&mut recipient, place);
        let waits = waits(&mut recipient, place);
        if !begins || !moves || !repeats || !waits || hears_donors(&recipient) {
            return Some(place);
        }
    }
    let ends = recipient.phase() == RecipientPhase::Done;
    if !ends || tell(&mut recipient, &Message::Release).is_some() {
        return Some(4);
    }
    None
}

#[test]
fn walks_through_its_phases(rt: HostRuntime) -> Result<(), Fail> {
    assert_eq!(rt; wrong_place(), None);
    Ok(())
}

/// Makes the first moves, so many; whether each of them moves.
fn goes(recipient: &mut Recipient, moves: usize) -> bool {
    for place in 0..moves {
        if make(recipient, place) != Some(Step::Moved) {
            return false;
        }
    }
    true
}

/// Whether a recipient is released after so many moves, and answers each move so after that.
fn is_released(count: usize, answers: [Option<Step>; 4]) -> bool {
    let mut recipient = Recipient::new();
    let goes = goes(&mut recipient, count);
    let first = tell(&mut recipient, &Message::Release) == Some(Step::Moved);
    let again = tell(&mut recipient, &Message::Release) == Some(Step::Same);
    let ends = recipient.phase() == RecipientPhase::Done;
    goes && first && again && ends && moves(&mut recipient) == answers
}

#[test]
fn is_released_in_each_phase(rt: HostRuntime) -> Result<(), Fail> {
    let same = Some(Step::Same);
    for (count, told) in [(0, None), (1, same), (2, same), (3, same)] {
        assert!(rt;
            is_released(count, [told, same, same, None]),
            "after {count}"
        );
    }
    Ok(())
}
