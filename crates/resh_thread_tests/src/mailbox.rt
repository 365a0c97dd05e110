//! Mailboxes of room for two pieces.

ghost use Rattle.std.specs.Prelude.{◌≡◌};

use resh_mail::{Mailbox, ReceivePass, SendPass, Sending};
use resh_oplog::{Piece, What};
use resh_value::{NoMemory, ShardId, Value};
use std::alloc::Global;
use std::sync::Wait;
use std::test::Fail;
use std::thread;
use std::thread::Threads;

/// How often a thread looks at a mailbox at most.
const LOOKS: u64 = 100_000_000;

fn piece(place: u64) -> Piece {
    Piece {
        donor: ShardId(0),
        place,
        position: place,
        time: 1,
        id: Value::Null,
        what: What::Final,
    }
}

/// The place of a piece that came back; none where it was sent.
fn back(sending: Sending) -> Option<u64> {
    match sending {
        Sending::Sent => None,
        Sending::Full(piece) => Some(piece.place),
    }
}

/// Whether the mailbox answers what a word says: `+N` sends piece N, `!N` finds no room for it, `-N` receives it, and
/// `-` finds none.
fn is_so<R: Wait>(
    rt: &R,
    mailbox: &Mailbox,
    send: &mut SendPass,
    receive: &mut ReceivePass,
    word: &str,
) -> bool
    requires { (send.old.mailbox ≡ mailbox.now.name) × (receive.old.mailbox ≡ mailbox.now.name) }
    ensures { (send.new.mailbox ≡ mailbox.now.name) × (receive.new.mailbox ≡ mailbox.now.name) }
{
    match word.as_bytes() {
        [b'+', place] => back(mailbox.send(rt, send, piece(u64::from(*place)))).is_none(),
        [b'!', place] => {
            back(mailbox.send(rt, send, piece(u64::from(*place)))) == Some(u64::from(*place))
        }
        [b'-', place] => {
            mailbox.receive(rt, receive).map(|piece| piece.place) == Some(u64::from(*place))
        }
        [b'-'] => mailbox.receive(rt, receive).is_none(),
        _ => word.is_empty(),
    }
}

/// Whether the mailbox answers what each word of a row says, in turn.
fn all_so<R: Wait>(
    rt: &R,
    mailbox: &Mailbox,
    send: &mut SendPass,
    receive: &mut ReceivePass,
    row: &str,
) -> bool
    requires { (send.old.mailbox ≡ mailbox.now.name) × (receive.old.mailbox ≡ mailbox.now.name) }
    ensures { (send.new.mailbox ≡ mailbox.now.name) × (receive.new.mailbox ≡ mailbox.now.name) }
{
    for word in row.split(' ') {
        if !is_so(rt, mailbox, send, receive, word) {
            return false;
        }
    }
    true
}

/// How many pieces a new mailbox ends with after a row, a meeting of its passes and a second row; none where it answers
/// otherwise.
fn left<R: Wait>(rt: &R, alloc: Global, row: &str, behind: &str) -> Result<Option<u64>, NoMemory> {
    let (mailbox, mut send, mut receive) = Mailbox::make(alloc, 2)?;
    let so = all_so(rt, &mailbox, &mut send, &mut receive, row);
    let (mut send, mut receive) = mailbox.meet(send, receive);
    let still_so = all_so(rt, &mailbox, &mut send, &mut receive, behind);
    let left = mailbox.close(rt, send, receive);
    Ok(if so && still_so { Some(left) } else { None })
}

/// Rows before and behind a meeting, and how many pieces are left.
const ROWS: [(&str, &str, u64); 6] = [
    ("-", "-", 0),
    ("+1 +2 !3 -1 -2 -", "", 0),
    ("+1 +2", "-1 +3 !4", 2),
    ("+1 +2 !3", "!3 -1 +3 !4 -2 -3 -", 0),
    ("+1 -1 +2 -2 +3 -3 -", "+4 +5 !6 -4", 1),
    ("", "+1 +2 !3", 2),
];

#[test]
fn pieces_come_in_order(rt: HostRuntime) -> Result<(), Fail> {
    for (row, behind, wanted) in ROWS {
        assert_eq!(rt;
            left(&rt, rt.alloc(), row, behind)?,
            Some(wanted),
            "{row} & {behind}"
        );
    }
    Ok(())
}

/// Sends pieces of the places from 0 on, and says how many it sent.
fn sent_all<R: Wait>(rt: &R, mailbox: &Mailbox, mut pass: SendPass, pieces: u64) -> (SendPass, u64)
    requires { pass.mailbox ≡ mailbox.now.name }
    ensures { result.0.mailbox ≡ mailbox.now.name }
{
    let mut sent = 0u64;
    let mut looks = LOOKS;
    while looks > 0 && sent < pieces {
        looks -= 1;
        match mailbox.send(rt, &mut pass, piece(sent)) {
            Sending::Sent => sent += 1,
            Sending::Full(_) => thread::yield_now(),
        }
    }
    (pass, sent)
}

/// Receives pieces, and says how many came before one that was out of order.
fn received_all<R: Wait>(
    rt: &R,
    mailbox: &Mailbox,
    mut pass: ReceivePass,
    pieces: u64,
) -> (ReceivePass, u64)
    requires { pass.mailbox ≡ mailbox.now.name }
    ensures { result.0.mailbox ≡ mailbox.now.name }
{
    let mut received = 0u64;
    let mut looks = LOOKS;
    while looks > 0 && received < pieces {
        looks -= 1;
        match mailbox.receive(rt, &mut pass) {
            Some(piece) if piece.place == received => received += 1,
            Some(_) => break,
            None => thread::yield_now(),
        }
    }
    (pass, received)
}

/// So many pieces over a mailbox, sent by one thread and received by another.
fn across<R: Threads + Wait + Sync>(
    rt: &R,
    mailbox: &Mailbox,
    send: SendPass,
    receive: ReceivePass,
    pieces: u64,
) -> ((SendPass, u64), (ReceivePass, u64))
    requires { (send.mailbox ≡ mailbox.now.name) × (receive.mailbox ≡ mailbox.now.name) }
    ensures { (result.0.0.mailbox ≡ mailbox.now.name) × (result.1.0.mailbox ≡ mailbox.now.name) }
{
    thread::join(
        rt,
        || -> (SendPass, u64)
            requires { send.mailbox ≡ mailbox.now.name }
            ensures { result.0.mailbox ≡ mailbox.entry.now.name }
        { sent_all(rt, mailbox, send, pieces) },
        || -> (ReceivePass, u64)
            requires { receive.mailbox ≡ mailbox.now.name }
            ensures { result.0.mailbox ≡ mailbox.entry.now.name }
        { received_all(rt, mailbox, receive, pieces) },
    )
}

/// How many pieces one thread sent, another received in order, and were left.
fn crossed<R: Threads + Wait + Sync>(
    rt: &R,
    alloc: Global,
    pieces: u64,
) -> Result<[u64; 3], NoMemory> {
    let (mailbox, send, receive) = Mailbox::make(alloc, 2)?;
    let ((send, sent), (receive, received)) = across(rt, &mailbox, send, receive, pieces);
    Ok([sent, received, mailbox.close(rt, send, receive)])
}

#[test]
fn pieces_cross_in_order(rt: HostRuntime) -> Result<(), Fail> {
    assert_eq!(rt; crossed(&rt, rt.alloc(), 1000)?, [1000, 1000, 0]);
    Ok(())
}
