use resh_donor::{Donor, DonorPhase, donor_laws};
use resh_progress::{Message, Step};
use std::test::Fail;

/// The phases of an undisturbed run, each with the message that ends it.
const ORDER: [(DonorPhase, Message); 4] = [
    (DonorPhase::Unused, Message::Prepare),
    (
        DonorPhase::PreparingToDonate,
        Message::Donate { fetch_time: 9 },
    ),
    (DonorPhase::Donating, Message::Block),
    (DonorPhase::BlockingWrites, Message::Install),
];

/// Whether a message may come twice, and moves the donor once.
fn takes(donor: &mut Donor, message: &Message) -> bool {
    for step in [Step::Moved, Step::Same] {
        if !donor.may(message) {
            return false;
        }
        if donor.on(message) != step {
            return false;
        }
    }
    true
}

/// Whether just the first messages of the order were told, so many, and so many may be.
fn is_told(donor: &Donor, told: usize, may: usize) -> bool {
    for (place, (_, message)) in ORDER.iter().enumerate() {
        if donor.was_told(message) != (place < told) {
            return false;
        }
        if donor.may(message) != (place < may) {
            return false;
        }
    }
    true
}

/// The first place of the order at which a donor doesn't do what it should; none where it ends as it should.
fn wrong_place() -> Option<usize> {
    donor_laws();
    let mut donor = Donor::new();
    for (place, (phase, message)) in ORDER.iter().enumerate() {
        let begins = donor.phase() == *phase;
        let takes = takes(&mut donor, message);
        if !begins || !takes || !is_told(&donor, place + 1, place + 2) {
            return Some(place);
        }
    }
    if donor.phase() != DonorPhase::Done || donor.may(&Message::Release) {
        return Some(4);
    }
    None
}

#[test]
fn walks_through_its_phases(rt: HostRuntime) -> Result<(), Fail> {
    assert_eq!(rt; wrong_place(), None);
    Ok(())
}

/// Tells the first messages of the order, so many.
fn tell(donor: &mut Donor, told: usize) {
    for (_, message) in ORDER.iter().take(told) {
        if donor.may(message) {
            donor.on(message);
        }
    }
}

/// Whether a donor that was told so many messages is in this phase, and is released.
fn is_released(told: usize, phase: DonorPhase) -> bool {
    let mut donor = Donor::new();
    tell(&mut donor, told);
    let begins = donor.phase() == phase;
    let takes = takes(&mut donor, &Message::Release);
    begins && takes && donor.phase() == DonorPhase::Done && is_told(&donor, told, told)
}

#[test]
fn is_released_in_each_phase(rt: HostRuntime) -> Result<(), Fail> {
    for (told, (phase, _)) in ORDER.iter().enumerate() {
        assert!(rt; is_released(told, *phase), "after {told}");
    }
    Ok(())
}
