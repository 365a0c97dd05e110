//! The top call over memory ends: pages, refusals, and faults of either end.

use resh_io::{MemorySink, MemorySource};
use resh_run::plain_main;
use std::alloc::Global;
use std::test::Fail;

/// A file's first members: the old key is `x` and the new one `y`, and shards have the numbers below 10, from 10 on and
/// from 20 on.
const HEAD: &str = r#"{"version":1,"shards":["a","b","c"],"oldKey":["x"],"newKey":["y"],
    "oldChunks":[{"min":"MinKey","max":[10],"shard":"a"},{"min":[10],"max":[20],"shard":"b"},
        {"min":[20],"max":"MaxKey","shard":"c"}],
    "newChunks":[{"min":"MinKey","max":[10],"shard":"a"},{"min":[10],"max":[20],"shard":"b"},
        {"min":[20],"max":"MaxKey","shard":"c"}]"#;

/// The words, and the other members; then, behind `=`, the status, the one that is meant, and the lines.
const CASES: &str = r#"plain
"documents":[]
= 0 0 steps
order
switch
shard a 0
shard b 0
shard c 0
end committed

plain
"documents":[{"_id":1,"x":1,"y":20}]
= 0 0 steps
order
switch
shard a 0
shard b 0
shard c 1
{"_id":1,"x":1,"y":20}
end committed

plain
"documents":[{"_id":1,"x":9,"y":10},{"_id":2,"x":10,"y":9},{"y":19,"x":20,"_id":3},{"_id":"e","x":1}]
= 0 0 steps
order
switch
shard a 2
{"_id":2,"x":10,"y":9}
{"_id":"e","x":1}
shard b 2
{"_id":1,"x":9,"y":10}
{"_id":3,"x":20,"y":19}
shard c 0
end committed

plain
"documents":[{"_id":2,"x":1,"y":2},{"_id":1,"x":20,"y":20},{"_id":1,"x":1,"y":1}]
= 0 0 steps
order
switch
shard a 2
{"_id":1,"x":1,"y":1}
{"_id":2,"x":1,"y":2}
shard b 0
shard c 1
{"_id":1,"x":20,"y":20}
end committed

plain
"documents":[{"_id":7,"x":15,"y":25},{"_id":7,"x":1,"y":25},{"_id":5,"x":1,"y":15},{"_id":5,"x":25,"y":15}]
= 1 1 steps
order
drop
shard a 2
{"_id":5,"x":1,"y":15}
{"_id":7,"x":1,"y":25}
shard b 1
{"_id":7,"x":15,"y":25}
shard c 1
{"_id":5,"x":25,"y":15}
end aborted: clash b 5

plain
"documents":[{"_id":5,"x":1,"y":15},{"_id":5,"x":25,"y":15},{"_id":4,"x":25,"y":12},{"_id":4,"x":15,"y":15}]
= 1 1 steps
order
drop
shard a 1
{"_id":5,"x":1,"y":15}
shard b 1
{"_id":4,"x":15,"y":15}
shard c 2
{"_id":4,"x":25,"y":12}
{"_id":5,"x":25,"y":15}
end aborted: clash b 4

plain
"documents":[{"_id":"a \"b\"","x":1},{"_id":"a \"b\"","x":20}]
= 1 1 steps
order
drop
shard a 1
{"_id":"a \"b\"","x":1}
shard b 0
shard c 1
{"_id":"a \"b\"","x":20}
end aborted: clash a "a \"b\""

plain
"documents":[{"x":1}]
= 3 3 refused: no id "/documents/0"

plain
"documents":[{"_id":1,"é":[0,1.5]}]
= 3 3 refused: not whole "/documents/0/é/1"

plain
"documents":[],"a/\"b\\\u0007~":1
= 3 3 refused: unknown name "/a~1\"b\\\u0007~0"

plain
"documents":[],"lanes":17
= 3 3 refused: over limit 16 "/lanes"

plain
"documents":[{"_id":1,"x":1},{"_id":1,"x":2}]
= 3 3 refused: same id row 1

plain
"documents":[],"clients":[{"name":"c","commands":[{"update":{},"with":{"$p\"t":{}}}]}]
= 3 3 refused: unknown operator "$p\"t" "/clients/0/commands/0/with"

plain
"documents":[],"clients":[{"name":"c1","commands":[]}]
= 0 0 steps
order
switch
client c1
shard a 0
shard b 0
shard c 0
end committed

plain
"documents":[],"steps":["begin","advance","tell a"]
= 0 0 steps
1 begin: preparing to donate
2 advance: idle
3 tell a: prepared
order
switch
shard a 0
shard b 0
shard c 0
end committed

plain
"documents":[],"steps":["begin","begin"],"plan":[{"who":"coordinator","commit":1,"fate":"failed"}]
= 1 1 steps
1 begin: failed
1 fail coordinator commit
2 begin: idle
order
drop
shard a 0
shard b 0
shard c 0
end aborted: failed coordinator commit

plain
"documents":[{"_id":1,"x":1,"y":20}],"lanes":1,"plan":[{"who":"c a 0","commit":1,"fate":"failed"}]
= 1 1 steps
order
drop
shard a 1
{"_id":1,"x":1,"y":20}
shard b 0
shard c 0
end aborted: failed c commit

plain
"documents":[{"_id":1,"x":1,"y":1}],"clients":[
{"name":"c1","commands":[{"update":{"_id":1,"x":1},"with":{"$set":{"y":20}}},{"count":{}}]},
{"name":"c2","commands":[{"find":{"y":20}}]}],"steps":["client c1"]
= 0 0 steps
1 client c1: command 1
order
c1 1
c1 2
c2 1
switch
client c1
1 matched 1 changed 1
2 count 1
client c2
1 found 1
  {"_id":1,"x":1,"y":20}
shard a 0
shard b 0
shard c 1
{"_id":1,"x":1,"y":20}
end committed

plain
"documents":[
= 3 3 refused: not JSON

check
"documents":[{"_id":1,"x":1,"y":20}]
= 0 0 checked: 3 shards, 1 documents, 0 clients, 0 commands, 0 steps, 0 plan rows

check
"documents":[],"clients":[{"name":"c","commands":[{"find":{}},{"abort":true}]},{"name":"d","commands":[{"count":{}}]}],
"steps":["begin","advance"],"plan":[{"who":"coordinator","commit":1,"fate":"failed"}]
= 0 0 checked: 3 shards, 0 documents, 2 clients, 3 commands, 2 steps, 1 plan rows

check
"documents":[],"lanes":17
= 3 3 refused: over limit 16 "/lanes"

-- plain
"documents":[]
= 0 0 steps
order
switch
shard a 0
shard b 0
shard c 0
end committed"#;

/// Words that are no form, or `run`, which isn't done here, a line each.
const WRONG_WORDS: &str = "
run
run --workers 0
run --workers 17
run --workers 04
run --workers 4
run 4
plain 3
plain --print
plain --workers 2
plain plain
Plain
check 1
check --print
print
generate
generate --print
generate 4294967296
generate 99999999999999999999
generate 01
generate +1
generate -1
generate x
generate 1 2
generate 1 --workers 2
generate 1 --print --print
generate 1 --print=true
generate 1 --other
--help
plain --help
plain -h
--version
-V
help";

const USAGE: &str = "2 2 usage: reshard plain | check | run --workers N | generate N [--print]\n";

/// What the top call says over ends that take ten bytes at a time; the calls of these numbers fail, and 0 is no call's.
fn said(alloc: Global, words: &str, members: &str, fails: (u64, u64)) -> Result<String, Fail> {
    let mut owned = Vec::new(alloc);
    for word in words.split_whitespace() {
        owned.push(String::from_str(alloc, word)?)?;
    }
    let input = format!(in alloc; "{HEAD},{members}}}")?;
    let (reading, writing) = ([fails.0].to_vec(alloc)?, [fails.1].to_vec(alloc)?);
    let mut source = MemorySource::new(input.into_bytes(), reading, 10);
    let mut sink = MemorySink::new(alloc, writing, 10);
    let outcome = plain_main(alloc, owned.as_slice(), &mut source, &mut sink);
    let text = String::from_utf8_lossy(alloc, sink.bytes())?;
    Ok(format!(in alloc; "{} {} {}", outcome.status, outcome.meant, text.as_str())?)
}

/// What is said of a case, where it isn't what the case has, or nothing.
fn wrong_text(alloc: Global, case: &str) -> Result<String, Fail> {
    let (words, rest) = case.split_once("\n").unwrap_or(("", ""));
    let (members, want) = rest.split_once("\n= ").unwrap_or(("", ""));
    let text = said(alloc, words, members, (0, 0))?;
    if text.as_str().strip_suffix("\n") == Some(want) {
        return Ok(String::new(alloc));
    }
    Ok(text)
}

#[test]
fn files_have_their_pages_and_refusals(rt: HostRuntime) -> Result<(), Fail> {
    for case in CASES.split("\n\n") {
        assert_eq!(rt; wrong_text(rt.alloc(), case)?.as_str(), "");
    }
    Ok(())
}

#[test]
fn other_words_are_no_form(rt: HostRuntime) -> Result<(), Fail> {
    for words in WRONG_WORDS.split("\n") {
        let text = said(rt.alloc(), words, "\"documents\":[]", (1, 0))?;
        assert_eq!(rt; text.as_str(), USAGE, "at {words}");
    }
    Ok(())
}

#[test]
fn ends_may_fail(rt: HostRuntime) -> Result<(), Fail> {
    for (words, fails, want) in [
        ("plain", (1, 0), "4 4 read fault\n"),
        ("check", (1, 0), "4 4 read fault\n"),
        ("plain", (0, 3), "5 0 steps\norder\nswitch\ns"),
    ] {
        let text = said(rt.alloc(), words, "\"documents\":[]", fails)?;
        assert_eq!(rt; text.as_str(), want);
    }
    Ok(())
}
