//! Orders of turns, given to the plain program: the page of each lawful one, and none of the others.

use crate::cases::{CASES, SHOP, SHOP_PAGE};
use resh_config::read_setup;
use resh_coord::{Cause, Node, Why};
use resh_model::{Replay, replay};
use resh_report::page;
use resh_setup::{Setup, Turn, Turns};
use resh_value::{Copied, NoMemory, ShardId, Value};
use std::alloc::Global;
use std::test::Fail;

const HEAD: &str = r#"{"version":1,"shards":["a","b"],"oldKey":["x"],"newKey":["y"],
    "oldChunks":[{"min":"MinKey","max":[10],"shard":"a"},{"min":[10],"max":"MaxKey","shard":"b"}],
    "newChunks":[{"min":"MinKey","max":[10],"shard":"a"},{"min":[10],"max":"MaxKey","shard":"b"}]"#;

const fn served(client: u32, refused: bool) -> Turn {
    Turn::Command { client, refused }
}

const fn asked(client: u32, number: u32) -> Turn {
    Turn::Drop(Cause::Asked { client, number })
}

const fn failed(node: Node, cause: Why) -> Turn {
    Turn::Drop(Cause::Failed { node, cause })
}

const fn clash(shard: u32, id: i64) -> Turn {
    Turn::Drop(Cause::Clash {
        shard: ShardId(shard),
        id: Value::Int(id),
    })
}

fn turn_of(word: &str) -> Turn {
    match word {
        "c" => served(0, false),
        "d" => served(1, false),
        "shop" => served(0, false),
        "admin" => served(1, false),
        "c!" => served(0, true),
        "switch" => Turn::Switch,
        "asked-c1" => asked(0, 1),
        "asked-c2" => asked(0, 2),
        "asked-d1" => asked(1, 1),
        "clash-a1" => clash(0, 1),
        "clash-b1" => clash(1, 1),
        "clash-b2" => clash(1, 2),
        "failed" => failed(Node::Coordinator, Why::Commit),
        "cut-off" => failed(Node::Shard(ShardId(1)), Why::Link),
        "crashing" => failed(Node::Shard(ShardId(0)), Why::Crashes),
        _ => Turn::Drop(Cause::NoMemory),
    }
}

fn order_of(alloc: Global, words: &str) -> Result<Turns, Fail> {
    let mut turns = Turns::new(alloc);
    for word in words.split_whitespace() {
        turns.push(turn_of(word))?;
    }
    Ok(turns)
}

/// The page of what was served, with copies of the replies.
fn shown(
    alloc: Global,
    setup: &Setup,
    order: &Turns,
    replayed: &Replay,
) -> Result<Vec<u8>, NoMemory> {
    let answers = replayed.answers.copied(alloc)?;
    page(
        alloc,
        setup,
        order,
        &replayed.end,
        &answers,
        &replayed.holdings,
    )
}

/// The page of an order, or `none`.
fn served_page(alloc: Global, setup: &Setup, order: &Turns) -> Result<Vec<u8>, NoMemory> {
    match replay(alloc, setup, order)? {
        Some(replayed) => shown(alloc, setup, order, &replayed),
        None => Ok(b"steps\norder\nnone\n".to_vec(alloc)?),
    }
}

fn page_of(alloc: Global, file: &str, words: &str) -> Result<Vec<u8>, Fail> {
    let order = order_of(alloc, words)?;
    let setup = read_setup(alloc, file.as_bytes()).ok().ok_or("a setup")?;
    Ok(served_page(alloc, &setup, &order)?)
}

/// Whether each of these orders of a file has this page.
fn have_page(alloc: Global, file: &str, orders: &str, want: &str) -> Result<bool, Fail> {
    for words in orders.split('/') {
        if page_of(alloc, file, words)?.as_slice() != want.as_bytes() {
            return Ok(false);
        }
    }
    Ok(true)
}

/// The first line of a text, and what stands behind it.
fn cut(text: &str) -> (&str, &str) {
    text.split_once("\n").unwrap_or((text, ""))
}

fn is_so(alloc: Global, case: &str) -> Result<bool, Fail> {
    let (documents, rest) = cut(case);
    let (c, rest) = cut(rest);
    let (d, rest) = cut(rest);
    let (order, page) = cut(rest);
    let clients = r#"[{"name":"c","commands":"#;
    let other = r#"},{"name":"d","commands":"#;
    let file = format!(in alloc;
        "{HEAD},\"documents\":{documents},\"clients\":{clients}{c}{other}{d}}}]}}"
    )?;
    let want = format!(in alloc; "steps\norder\n{page}\n")?;
    let orders = order.strip_prefix("order ").unwrap_or("");
    have_page(alloc, file.as_str(), orders, want.as_str())
}

#[test]
fn lawful_orders_have_their_page(rt: HostRuntime) -> Result<(), Fail> {
    for case in CASES.split("\n\n") {
        assert!(rt; is_so(rt.alloc(), case)?, "{case}");
    }
    Ok(())
}

#[test]
fn a_shop_writes_on(rt: HostRuntime) -> Result<(), Fail> {
    let order = "shop admin shop admin shop admin shop admin switch shop admin shop admin";
    let page = page_of(rt.alloc(), SHOP, order)?;
    assert_eq!(rt; page.as_slice(), SHOP_PAGE.as_bytes());
    Ok(())
}
