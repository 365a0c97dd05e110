//! The rule that a mailbox keeps, and what each of its steps tells.

ghost use Rattle.std.specs.Prelude.{◌≡◌, true, false, [], ◌∷◌, ◌++◌};
ghost use Rattle.resh_mail.specs.Rule.{AlongOneList, IsFront, Kept, known};

use crossbeam_queue::protocol::{Join, Lesson, Outcome, Protocol, Split};
use resh_oplog::Piece;
use std::collections::LinkedList;

/// What a pass may do, and what it knows was sent and was received. No value of it is made.
pub struct Known {
    pub sends: bool,
    pub receives: bool,
    pub sent: LinkedList<Piece>,
    pub received: LinkedList<Piece>,
}

pub struct InOrder;

impl Protocol<Piece, Known> for InOrder {
    ghost use Rattle.std.specs.Prelude.{true, []};
    ghost use Rattle.resh_mail.specs.Rule.{Kept, known};

    ghost holds = { Kept };

    ghost first = { known true true [] [] };
}

/// One pass is cut into one that sends and one that receives; both keep what was known.
pub struct Roles;

impl Split<Known> for Roles {
    ghost use Rattle.std.specs.Prelude.{true, false};
    ghost use Rattle.resh_mail.specs.Rule.{known};

    ghost left = { λ v. known true false v.sent v.received };

    ghost right = { λ v. known false true v.sent v.received };
}

impl Join<Known> for Roles {
    ghost use Rattle.std.specs.Prelude.{true, false, []};
    ghost use Rattle.resh_mail.specs.Rule.{known};

    ghost both = { λ v w. known true true v.sent w.received };

    ghost spent = { known false false [] [] };
}

pub struct SendStep;

impl Outcome<Piece, Known> for SendStep {
    ghost then = { λ v x w. w ≡ known v.sends v.receives (v.sent ++ x ∷ []) v.received };
}

impl Lesson<Piece, Known> for SendStep {
    ghost fact = { λ v items. (received : _) × IsFront v.received received × (v.sent ≡ received ++ items) };
}

pub struct ReceiveStep;

impl Outcome<Piece, Known> for ReceiveStep {
    ghost then = { λ v x w. (w ≡ known v.sends v.receives v.sent (v.received ++ x ∷ []))
        × AlongOneList v.sent (v.received ++ x ∷ []) };
}

impl Lesson<Piece, Known> for ReceiveStep {
    ghost fact = { λ v items. IsFront v.sent (v.received ++ items) };
}

/// What both passes know together.
pub struct Total;

impl Lesson<Piece, Known> for Total {
    ghost fact = { λ v items. v.sent ≡ v.received ++ items };
}
