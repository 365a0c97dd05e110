//! Commands given to shards by the router: the page is the one that the plain program has for the same order.

use crate::cases::{HEAD, MANY, ONE, SEQUENCES, SHOP, SHOP_HEAD, TWO};
use crate::cluster::{Cluster, opened};
use resh_command::{Command, Replies};
use resh_config::read_setup;
use resh_coord::End;
use resh_model::replay;
use resh_report::page;
use resh_setup::{Answers, Holdings, Setup, Turn, Turns};
use resh_value::NoMemory;
use std::alloc::Global;
use std::test::Fail;

/// What the shards came to over an order.
#[derive(Drop)]
struct Served {
    order: Turns,
    replies: Replies,
    asked: u64,
    cluster: Cluster,
}

impl Served {
    /// Takes the next turn: `switch`, or else the next command.
    fn take(&mut self, setup: &Setup, word: &str) -> Result<(), Fail> {
        if word == "switch" {
            self.cluster.switch()?;
            return add(&mut self.order, Turn::Switch);
        }
        let number = self.asked;
        self.asked = number.wrapping_add(1);
        self.ask(next_command(setup, number)?)
    }

    fn ask(&mut self, command: &Command) -> Result<(), Fail> {
        let reply = self.cluster.ask(command)?;
        self.replies.push(reply)?;
        add(
            &mut self.order,
            Turn::Command {
                client: 0,
                refused: false,
            },
        )
    }
}

fn add(order: &mut Turns, turn: Turn) -> Result<(), Fail> {
    Ok(order.push(turn)?)
}

fn documents_of(word: &str) -> &str {
    match word {
        "none" => "",
        "one" => ONE,
        "two" => TWO,
        "many" => MANY,
        "shop" => SHOP,
        _ => word,
    }
}

/// Shards, keys and chunks.
fn head_of(word: &str) -> &str {
    if word == "shop" { SHOP_HEAD } else { HEAD }
}

pub(crate) fn setup_of(alloc: Global, word: &str, commands: &str) -> Result<Setup, Fail> {
    let head = head_of(word);
    let documents = documents_of(word);
    let file = format!(in alloc;
        "{head},\"documents\":[{documents}],\"clients\":[{{\"name\":\"c1\",\"commands\":[{commands}]}}]}}"
    )?;
    read_setup(alloc, file.as_bytes())
        .ok()
        .ok_or("a setup")
        .map_err(Fail::from)
}

/// Asks the shards in an order of words.
fn serve(alloc: Global, setup: &Setup, words: &str) -> Result<Served, Fail> {
    let mut served = Served {
        order: Turns::new(alloc),
        replies: Replies::new(alloc),
        asked: 0,
        cluster: opened(alloc, setup)?,
    };
    for word in words.split_whitespace() {
        served.take(setup, word)?;
    }
    Ok(served)
}

pub(crate) fn next_command(setup: &Setup, number: u64) -> Result<&Command, Fail> {
    match setup.clients.get(0) {
        None => Err(Fail::from("no client")),
        Some(client) => match client.commands.get(number) {
            None => Err(Fail::from("no command")),
            Some(command) => Ok(command),
        },
    }
}

fn answers_of(alloc: Global, replies: &Replies) -> Result<Answers, Fail> {
    let mut answers = Answers::new(alloc);
    answers.push(replies.copy()?)?;
    Ok(answers)
}

/// The page of what the shards answered and hold.
fn page_of(alloc: Global, setup: &Setup, served: &Served) -> Result<Vec<u8>, Fail> {
    let holdings = served.cluster.holdings()?;
    shown(alloc, setup, served, &holdings)
}

fn shown(
    alloc: Global,
    setup: &Setup,
    served: &Served,
    holdings: &Holdings,
) -> Result<Vec<u8>, Fail> {
    let answers = answers_of(alloc, &served.replies)?;
    Ok(page(
        alloc,
        setup,
        &served.order,
        &End::Committed,
        &answers,
        holdings,
    )?)
}

/// The page that the plain program has for the same order, or nothing where the order isn't lawful.
fn plain_page(alloc: Global, setup: &Setup, order: &Turns) -> Result<Vec<u8>, NoMemory> {
    match replay(alloc, setup, order)? {
        Some(replayed) => Ok(replayed.page),
        None => Ok(Vec::new(alloc)),
    }
}

fn is_as_plain(alloc: Global, setup: &Setup, served: &Served) -> Result<bool, Fail> {
    let page = page_of(alloc, setup, served)?;
    let want = plain_page(alloc, setup, &served.order)?;
    Ok(page.as_slice() == want.as_slice())
}

fn agrees(alloc: Global, setup: &Setup, words: &str) -> Result<bool, Fail> {
    let served = serve(alloc, setup, words)?;
    is_as_plain(alloc, setup, &served)
}

/// The first line of a text, and what stands behind it.
fn cut(text: &str) -> (&str, &str) {
    text.split_once("\n").unwrap_or((text, ""))
}

fn is_so(alloc: Global, sequence: &str) -> Result<bool, Fail> {
    let (words, rest) = cut(sequence);
    let (documents, commands) = cut(rest);
    let setup = setup_of(alloc, documents, commands)?;
    agrees(alloc, &setup, words)
}

#[test]
fn shards_answer_as_one_collection(rt: HostRuntime) -> Result<(), Fail> {
    for sequence in SEQUENCES.split("\n\n") {
        assert!(rt; is_so(rt.alloc(), sequence)?, "{sequence}");
    }
    Ok(())
}
