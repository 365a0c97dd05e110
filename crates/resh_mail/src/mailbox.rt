//! The mailbox, its two passes and its calls.

ghost use Rattle.std.specs.Prelude.{◌≡◌, ◌+◌, ◌<◌, ◌≤◌, length, IfOk};
ghost use Rattle.resh_mail.specs.Mail.{IsFront, Receives, Sends, unused};

use crate::rule::{InOrder, Known, ReceiveStep, Roles, SendStep, Total};
use crossbeam_queue::{Pass, RuledArrayQueue};
use resh_oplog::Piece;
use resh_value::NoMemory;
use std::alloc::Global;
use std::marker::Model;
use std::sync::Wait;

/// A mailbox of a fixed capacity, which contracts see as which one it is and its capacity.
#[derive(Drop)]
pub struct Mailbox {
    queue: RuledArrayQueue<Piece, Known, InOrder>,
}

impl Model for Mailbox {
    ghost use Rattle.crossbeam_queue.specs.Passes.{ruled_capacity};
    ghost use Rattle.resh_mail.specs.Mail.{MailboxOf, mailbox_code};

    ghost Value = { MailboxOf };

    ghost coded = { mailbox_code };

    ghost view = { λ m. record { name = m.queue.table.shared.table_id; capacity = ruled_capacity m.queue } };
}

/// The right to send to one mailbox. Contracts see what it has sent, and what it knows was received.
#[derive(Drop)]
pub struct SendPass {
    pass: Pass<Piece, Known>,
}

impl Model for SendPass {
    ghost use Rattle.resh_mail.specs.Mail.{MaySend, Seen, seen_code, seen};

    ghost Value = { Seen };

    ghost coded = { seen_code };

    ghost view = { λ p. seen p.pass };

    ghost invariant = { λ p. MaySend p.pass };
}

/// The right to receive from one mailbox. Contracts see what it has received, and what it knows was sent.
#[derive(Drop)]
pub struct ReceivePass {
    pass: Pass<Piece, Known>,
}

impl Model for ReceivePass {
    ghost use Rattle.resh_mail.specs.Mail.{MayReceive, Seen, seen_code, seen};

    ghost Value = { Seen };

    ghost coded = { seen_code };

    ghost view = { λ p. seen p.pass };

    ghost invariant = { λ p. MayReceive p.pass };
}

/// What came of sending: the piece is in the mailbox, or the mailbox was full and the piece is back.
#[derive(Debug, Drop)]
pub enum Sending {
    Sent,
    Full(Piece),
}

impl Mailbox {
    /// An empty mailbox and its two passes, or want of memory.
    pub fn make(alloc: Global, capacity: u32) -> Result<(Mailbox, SendPass, ReceivePass), NoMemory>
        requires { 0 < capacity }
        ensures capacity { IfOk result (λ made. made.0.capacity ≡ capacity) }
        ensures send { IfOk result (λ made. made.1 ≡ unused made.0.name) }
        ensures receive { IfOk result (λ made. made.2 ≡ unused made.0.name) }
    {
        let (queue, mut pass) = RuledArrayQueue::ruled(alloc, capacity as usize)?;
        let other = queue.another::<Roles>(&mut pass);
        Ok((
            Mailbox { queue },
            SendPass { pass },
            ReceivePass { pass: other },
        ))
    }

    /// Puts a piece behind the others. It comes back only if the mailbox was full at a moment of the call.
    pub fn send<R: Wait>(&self, rt: &R, pass: &mut SendPass, piece: Piece) -> Sending
        requires { pass.old.mailbox ≡ self.now.name }
        ensures answer { Sends self.now.capacity pass.old piece result pass.new }
        ensures mailbox { pass.new.mailbox ≡ pass.old.mailbox }
    {
        let Err(back) = self.queue.push_as::<SendStep, R>(rt, &mut pass.pass, piece) else {
            return Sending::Sent;
        };
        Sending::Full(back)
    }

    /// Takes the oldest piece. There is none only if the mailbox was empty at a moment of the call.
    pub fn receive<R: Wait>(&self, rt: &R, pass: &mut ReceivePass) -> Option<Piece>
        requires { pass.old.mailbox ≡ self.now.name }
        ensures answer { Receives pass.old result pass.new }
        ensures mailbox { pass.new.mailbox ≡ pass.old.mailbox }
    {
        self.queue.pop_as::<ReceiveStep, R>(rt, &mut pass.pass)
    }

    /// Where both passes are in one hand, each learns all that the other knows.
    pub fn meet(&self, send: SendPass, receive: ReceivePass) -> (SendPass, ReceivePass)
        requires send { send.mailbox ≡ self.now.name }
        requires receive { receive.mailbox ≡ self.now.name }
        ensures send { result.0 ≡ record send { received = receive.received } }
        ensures receive { result.1 ≡ record receive { sent = send.sent } }
    {
        let mut pass = send.pass;
        self.queue.absorb::<Roles>(&mut pass, receive.pass);
        let other = self.queue.another::<Roles>(&mut pass);
        (SendPass { pass }, ReceivePass { pass: other })
    }

    /// Ends the mailbox, with the pieces that are left in it, and says how many these are. What was received is the
    /// first of what was sent.
    pub fn close<R: Wait>(self, rt: &R, send: SendPass, receive: ReceivePass) -> u64
        requires send { send.mailbox ≡ self.name }
        requires receive { receive.mailbox ≡ self.name }
        ensures prefix { IsFront receive.received send.sent }
        ensures left { length send.sent ≡ length receive.received + result }
        ensures room { result ≤ self.capacity }
    {
        let mut pass = send.pass;
        self.queue.absorb::<Roles>(&mut pass, receive.pass);
        self.queue.len_as::<Total, R>(rt, &mut pass) as u64
    }
}
