//! Cluster files as rows of JSON, and last what comes of each: the setup as a text, or its refusal without quotes.

/// A good file up to its last brace: two shards, and three documents at two places of each.
pub(crate) const GOOD: &str = r#"{
    "version": 1, "shards": ["east", "west"], "oldKey": ["k"], "newKey": ["k", "_id"],
    "oldChunks": [{"min": "MinKey", "max": [5], "shard": "east"}, {"min": [5], "max": "MaxKey", "shard": "west"}],
    "newChunks": [{"min": "MinKey", "max": [1, 1], "shard": "west"}, {"max": "MaxKey", "min": [1, 1], "shard": "east"}],
    "documents": [{"_id": 1, "k": 1}, {"_id": 1, "k": 7}, {"_id": "a"}]"#;

/// Other members for two clients and three lanes.
pub(crate) const CLIENTS: &str = r#"
    "documents": [], "lanes": 3, "clients": [{"name": "c", "commands": []}, {"name": "d", "commands": []}]"#;

/// Whole texts, and files as objects.
pub(crate) const TEXTS: &str = r#"[
    ["", "not JSON"], ["{", "not JSON"], ["{} {}", "not JSON"], ["\ufeff{}", "not JSON"],
    ["{\"a\":1e999}", "not JSON"], ["[]", "wrong kind "], ["null", "wrong kind "], [" {} ", "missing /version"],
    ["{\"version\":1.0}", "wrong kind /version"], ["{\"version\":-0}", "wrong kind /version"],
    ["{\"version\":1e0}", "wrong kind /version"], ["{\"version\":2,\"version\":1}", "missing /shards"],
    ["{\"version\":1,\"version\":2}", "over limit 1 /version"], [{"shards": 5}, "missing /version"],
    [{"version": 1, "oldKey": 5}, "missing /shards"],
    [{"version": 1, "shards": ["a"], "newKey": 5}, "missing /oldKey"],
    [{"version": 1, "shards": ["a"], "oldKey": ["k"], "oldChunks": 5}, "missing /newKey"],
    [{"version": 1, "shards": ["a"], "oldKey": ["k"], "newKey": ["k"], "newChunks": 5}, "missing /oldChunks"],
    [{"version": 1, "shards": ["a"], "oldKey": ["k"], "newKey": ["k"], "oldChunks": [{"min": "MinKey",
        "max": "MaxKey", "shard": "a"}], "documents": 5},
        "missing /newChunks"],
    [{"version": 1, "shards": ["a"], "oldKey": ["k"], "newKey": ["k"], "oldChunks": [{"min": "MinKey",
        "max": "MaxKey", "shard": "a"}], "newChunks": [{"min": "MinKey", "max": "MaxKey", "shard": "a"}],
        "clients": 5},
        "missing /documents"]
]"#;

/// Good files, each the members that stand behind those of `GOOD`: the shards, the lanes, the batch, the documents'
/// old and new owners, the clients with how many commands each has, the steps and the plan.
pub(crate) const SETUPS: &str = r#"[
    [{"version": 1}, "east west 4 500 0>0 1>0 0>1"], [{"lanes": 1, "batch": 1, "documents": []}, "east west 1 1"],
    [{"lanes": 16, "batch": 500, "clients": [], "steps": [], "plan": [], "documents": []}, "east west 16 500"],
    [{"shards": ["west"], "oldKey": ["~/\u0000", "b", "c"], "oldChunks": [{"min": "MinKey", "max": "MaxKey",
        "shard": "west"}], "newChunks": [{"min": "MinKey", "max": "MaxKey", "shard": "west"}],
        "documents": [{"_id": 1}, {"_id": 2, "b": []}]},
        "west 4 500 0>0 0>0"],
    [{"shards": ["a", "b", "c", "east", "e", "f", "west", "abyz_0123456789_"], "documents": [{"_id": null,
        "k": [1]}]},
        "a b c east e f west abyz_0123456789_ 4 500 6>3"],
    [{"documents": [], "clients": [{"name": "a", "commands": []}, {"commands": [{"abort": true}], "name": "east"},
        {"name": "coordinator", "commands": [{"count": {}}]}, {"name": "client", "commands": [{"find": {}},
        {"find": {}}]}]},
        "east west 4 500 a:0 east:1 coordinator:1 client:2"]
]"#;

/// Faults of the root, of numbers, names and lists, and their order.
pub(crate) const FAULTS: &str = r#"[
    [{"version": 2, "b": 1, "a/~": 1}, "unknown name /a~1~0"], [{"version": 2, "shards": 5}, "over limit 1 /version"],
    [{"version": 0}, "over limit 1 /version"], [{"version": -1}, "over limit 1 /version"],
    [{"version": "1"}, "wrong kind /version"], [{"version": 9223372036854775807}, "over limit 1 /version"],
    [{"version": 9223372036854775808}, "wrong kind /version"],
    [{"version": -9223372036854775808}, "over limit 1 /version"], [{"version": 1.5}, "wrong kind /version"],
    [{"shards": "east"}, "wrong kind /shards"], [{"shards": [], "oldKey": 5}, "wrong kind /shards"],
    [{"shards": [1, 2, 3, 4, 5, 6, 7, 8, 9]}, "over limit 8 /shards"],
    [{"shards": ["east", 5, ""]}, "wrong kind /shards/1"], [{"shards": [""]}, "wrong kind /shards/0"],
    [{"shards": ["a", "b", "a0123456789_ghijk"]}, "wrong kind /shards/2"],
    [{"shards": ["East"]}, "wrong kind /shards/0"], [{"shards": ["a-b"]}, "wrong kind /shards/0"],
    [{"shards": ["a", "coordinator"]}, "wrong kind /shards/1"], [{"shards": ["a", "b", "a"]}, "wrong kind /shards/2"],
    [{"oldKey": "k"}, "wrong kind /oldKey"], [{"oldKey": []}, "wrong kind /oldKey"],
    [{"oldKey": [1, 2, 3, 4]}, "over limit 3 /oldKey"], [{"oldKey": ["k", 5]}, "wrong kind /oldKey/1"],
    [{"oldKey": [""]}, "wrong kind /oldKey/0"], [{"oldKey": ["a.b"]}, "wrong kind /oldKey/0"],
    [{"oldKey": ["$a"]}, "wrong kind /oldKey/0"], [{"oldKey": ["a", "b", "a"]}, "wrong kind /oldKey/2"],
    [{"newKey": ["k", "k"]}, "wrong kind /newKey/1"], [{"lanes": 0, "batch": 0}, "over limit 16 /lanes"],
    [{"lanes": 17}, "over limit 16 /lanes"], [{"lanes": "4"}, "wrong kind /lanes"],
    [{"batch": 0, "steps": 5}, "over limit 500 /batch"], [{"batch": 501}, "over limit 500 /batch"],
    [{"batch": 4294967297}, "over limit 500 /batch"], [{"batch": []}, "wrong kind /batch"],
    [{"steps": 5, "plan": 5}, "wrong kind /steps"], [{"plan": 5}, "wrong kind /plan"]
]"#;

/// Faults of chunks.
pub(crate) const CHUNK_FAULTS: &str = r#"[
    [{"oldChunks": {}}, "wrong kind /oldChunks"], [{"oldChunks": [], "newChunks": 5}, "first not min /oldChunks"],
    [{"oldChunks": [5]}, "wrong kind /oldChunks/0"],
    [{"oldChunks": [{"max": 5, "a": 1}]}, "unknown name /oldChunks/0/a"],
    [{"oldChunks": [{"max": 5}]}, "missing /oldChunks/0/min"],
    [{"oldChunks": [{"min": 5}]}, "wrong kind /oldChunks/0/min"],
    [{"oldChunks": [{"min": "Min"}]}, "wrong kind /oldChunks/0/min"],
    [{"oldChunks": [{"min": []}]}, "missing /oldChunks/0/max"],
    [{"oldChunks": [{"min": [1, 1.5]}]}, "not whole /oldChunks/0/min/1"],
    [{"oldChunks": [{"min": "MinKey", "max": [{"$x": 1}]}]}, "dollar name /oldChunks/0/max/0"],
    [{"oldChunks": [{"min": "MinKey", "max": [[{"$oid": 1}]]}]}, "bad tag /oldChunks/0/max/0/0"],
    [{"oldChunks": [{"min": "MaxKey", "max": "MinKey"}]}, "missing /oldChunks/0/shard"],
    [{"oldChunks": [{"min": "MaxKey", "max": "MinKey", "shard": 0}]}, "wrong kind /oldChunks/0/shard"],
    [{"oldChunks": [{"min": "MaxKey", "max": "MinKey", "shard": "East"}]}, "wrong kind /oldChunks/0/shard"],
    [{"oldChunks": [{"min": "MaxKey", "max": "MinKey", "shard": "north"}]}, "unknown name /oldChunks/0/shard"],
    [{"oldChunks": [{"min": "MaxKey", "max": "MinKey", "shard": "coordinator"}]}, "unknown name /oldChunks/0/shard"],
    [{"oldChunks": [{"min": "MinKey", "max": "MaxKey", "shard": "east"}, {}]}, "missing /oldChunks/1/min"],
    [{"oldChunks": [{"min": [1], "max": "MaxKey", "shard": "east"}]}, "first not min /oldChunks"],
    [{"oldChunks": [{"min": "MinKey", "max": [1], "shard": "east"}]}, "last not max /oldChunks"],
    [{"oldChunks": [{"min": "MinKey", "max": "MinKey", "shard": "east"}]}, "empty range row 0 /oldChunks"],
    [{"oldChunks": [{"min": "MinKey", "max": [1], "shard": "east"}, {"min": [2], "max": "MaxKey", "shard": "east"}]},
        "gap row 1 /oldChunks"],
    [{"oldChunks": [{"min": "MinKey", "max": [2], "shard": "east"}, {"min": [1], "max": "MaxKey", "shard": "east"}]},
        "overlap row 1 /oldChunks"],
    [{"oldChunks": [{"min": "MinKey", "max": [2, 1], "shard": "east"}]}, "wrong length row 0 /oldChunks"],
    [{"newChunks": [{"min": [], "max": [], "shard": "east"}], "documents": 5}, "wrong length row 0 /newChunks"]
]"#;

/// Faults of documents.
pub(crate) const DOCUMENT_FAULTS: &str = r#"[
    [{"documents": {}}, "wrong kind /documents"], [{"documents": [{"_id": 1}, 5]}, "wrong kind /documents/1"],
    [{"documents": [{"v": {"$x": 1}}]}, "dollar name /documents/0/v"],
    [{"documents": [{"$oid": "00ffa9b01234567890abcdef"}]}, "dollar name /documents/0"],
    [{"documents": [{"a": 1.5}]}, "not whole /documents/0/a"],
    [{"documents": [{"_id": {"$date": 1}}]}, "bad tag /documents/0/_id"],
    [{"documents": [{"a": 1}]}, "no id /documents/0"],
    [{"documents": [{"_id": 1}, {"_id": [1]}]}, "no id /documents/1"],
    [{"documents": [{"_id": 1, "k": 1}, {"_id": 2, "k": 1}, {"_id": {"$numberInt": "1"}, "k": 2}, 5]},
        "wrong kind /documents/3"],
    [{"documents": [{"_id": 1, "k": 1}, {"_id": 2, "k": 1}, {"_id": {"$numberInt": "1"}, "k": 2}, {"_id": 2}],
        "clients": 5},
        "same id row 2"],
    [{"documents": [{"_id": 1}, {"_id": "1"}, {"_id": true}, {"_id": {}}, {"_id": {}, "k": null}]}, "same id row 4"],
    [{"documents": [{"_id": 1, "k": 4}, {"_id": 1, "k": 5}], "clients": 5}, "wrong kind /clients"]
]"#;

/// Faults of clients.
pub(crate) const CLIENT_FAULTS: &str = r#"[
    [{"clients": 5, "lanes": 0}, "wrong kind /clients"], [{"clients": {}}, "wrong kind /clients"],
    [{"clients": [1, 2, 3, 4, 5, 6, 7, 8, 9, 10, 11, 12, 13, 14, 15, 16, 17]}, "over limit 16 /clients"],
    [{"clients": [1, 2, 3, 4, 5, 6, 7, 8, 9, 10, 11, 12, 13, 14, 15, 16]}, "wrong kind /clients/0"],
    [{"clients": [{"commands": 5, "b": 1, "a": 1}], "lanes": 0}, "unknown name /clients/0/a"],
    [{"clients": [{"commands": 5}]}, "missing /clients/0/name"],
    [{"clients": [{"name": 5}]}, "wrong kind /clients/0/name"],
    [{"clients": [{"name": "", "commands": 5}]}, "wrong kind /clients/0/name"],
    [{"clients": [{"name": "A"}]}, "wrong kind /clients/0/name"],
    [{"clients": [{"name": "a0123456789_ghijk"}]}, "wrong kind /clients/0/name"],
    [{"clients": [{"name": "a0123456789_ghij"}]}, "missing /clients/0/commands"],
    [{"clients": [{"name": "a", "commands": []}, {"name": "b", "commands": []}, {"name": "a"}]},
        "wrong kind /clients/2/name"],
    [{"clients": [{"name": "a", "commands": {}}, 5]}, "wrong kind /clients/0/commands"],
    [{"clients": [{"name": "a", "commands": []}], "lanes": 0, "steps": 5}, "over limit 16 /lanes"]
]"#;

/// Commands of a client.
pub(crate) const COMMANDS: &str = r#"[
    [[{"insert": {"k": 1, "_id": {"$numberInt": "7"}}}, {"insert": {"_id": {"$date": {"$numberLong": "1"}}}},
        {"delete": {"_id": 7}}],
        "east west 4 500 0>0 1>0 0>1 a:3"],
    [[{"find": {"k": null, "a": [1, {"b.c": 2}]}}, {"count": {"": "x"}}, {"abort": true}],
        "east west 4 500 0>0 1>0 0>1 a:3"], [[{"abort": true}, 5], "wrong kind /clients/0/commands/1"],
    [[[]], "wrong kind /clients/0/commands/0"], [[null], "wrong kind /clients/0/commands/0"],
    [["abort"], "wrong kind /clients/0/commands/0"], [[{}], "wrong kind /clients/0/commands/0"],
    [[{"abort": false}], "wrong kind /clients/0/commands/0"], [[{"abort": 1}], "wrong kind /clients/0/commands/0"],
    [[{"abort": null}], "wrong kind /clients/0/commands/0"],
    [[{"abort": true, "find": {}}], "wrong kind /clients/0/commands/0"],
    [[{"update": {}}], "wrong kind /clients/0/commands/0"], [[{"with": {}}], "wrong kind /clients/0/commands/0"],
    [[{"update": 5, "with": 5, "a": 1}], "wrong kind /clients/0/commands/0"],
    [[{"delete": {}, "with": {}}], "wrong kind /clients/0/commands/0"],
    [[{"insert": 5, "a": 1}], "wrong kind /clients/0/commands/0"],
    [[{"remove": {}}], "wrong kind /clients/0/commands/0"], [[{"Abort": true}], "wrong kind /clients/0/commands/0"],
    [[{"insert": 5}], "wrong kind /clients/0/commands/0/insert"],
    [[{"insert": {"$oid": "00ffa9b01234567890abcdef"}}], "dollar name /clients/0/commands/0/insert"],
    [[{"insert": {"a": {"b/": 1.5}}}], "not whole /clients/0/commands/0/insert/a/b~1"],
    [[{"abort": true}, {"insert": {"_id": {"$oid": "1"}}}], "bad tag /clients/0/commands/1/insert/_id"],
    [[{"insert": {"a": 1}}], "no id /clients/0/commands/0/insert"],
    [[{"insert": {"_id": []}}, 5], "no id /clients/0/commands/0/insert"],
    [[{"find": 5}], "wrong kind /clients/0/commands/0/find"],
    [[{"find": {"$x": 1}}], "dollar name /clients/0/commands/0/find"],
    [[{"count": {"a": 1.5, "b.c": 1}}], "dotted name /clients/0/commands/0/count/b.c"],
    [[{"delete": {"a": [1.5]}}], "not whole /clients/0/commands/0/delete/a/0"],
    [[{"update": {"a/.b": 1}, "with": 5}], "dotted name /clients/0/commands/0/update/a~1.b"],
    [[{"with": 5, "update": 5}], "wrong kind /clients/0/commands/0/update"]
]"#;

/// Updates.
pub(crate) const UPDATES: &str = r#"[
    [[{"with": {"$set": {"a": 1}}, "update": {"_id": 1}}, {"update": {}, "with": {"$inc": {"a.b": -1},
        "$unset": {"c": 1}}}],
        "east west 4 500 0>0 1>0 0>1 a:2"],
    [[{"update": {}, "with": 5}, 5], "bad operand  /clients/0/commands/0/with"],
    [[{"update": {}, "with": {}}], "bad operand  /clients/0/commands/0/with"],
    [[{"update": {}, "with": {"$inc": {"a": "x"}}}], "bad operand a /clients/0/commands/0/with"],
    [[{"abort": true}, {"update": {}, "with": {"$cut": {}}}], "unknown operator $cut /clients/0/commands/1/with"],
    [[{"update": {}, "with": {"$set": {"_id.a": 1}}}], "id path /clients/0/commands/0/with"],
    [[{"update": {}, "with": {"$set": {"a": 1, "a.b": 1}}}], "conflict a.b /clients/0/commands/0/with"],
    [[{"update": {}, "with": {"$set": {"a": [1.5]}}}], "not whole /clients/0/commands/0/with/$set/a/0"]
]"#;

/// Members at their limits: the name, the first text, a piece and how often it comes, and the last text.
pub(crate) const LIMITS: &str = r#"[
    ["documents", "[{\"b\":\"", "a", 16368, "\",\"_id\":1}]", "east west 4 500 0>1"],
    ["documents", "[{ \"b\":\"", "a", 16369, "\",\"_id\":1}]", "over limit 16384 /documents/0"],
    ["documents", "[0", ",0", 100000, "]", "over limit 100000 /documents"],
    ["oldChunks", "[0", ",0", 64, "]", "over limit 64 /oldChunks"],
    ["oldChunks", "[0", ",0", 63, "]", "wrong kind /oldChunks/0"],
    ["steps", "[0", ",0", 100000, "]", "over limit 100000 /steps"],
    ["plan", "[0", ",0", 1000, "]", "over limit 1000 /plan"],
    ["clients", "[{\"name\":\"a\",\"commands\":[0", ",0", 20000, "]},5]", "over limit 20000 /clients/0/commands"],
    ["clients", "[{\"name\":\"a\",\"commands\":[0", ",0", 19999, "]},5]", "wrong kind /clients/0/commands/0"],
    ["clients", "[{\"name\":\"a\",\"commands\":[{\"abort\":true}", ",{\"abort\":true}", 19998,
        "]},{\"name\":\"c\",\"commands\":[{\"abort\":true}]},5]", "wrong kind /clients/2"],
    ["clients", "[{\"name\":\"a\",\"commands\":[{\"abort\":true}", ",{\"abort\":true}", 19998,
        "]},{\"name\":\"c\",\"commands\":[0,0]},5]", "over limit 20000 /clients/1/commands"],
    ["clients", "[{\"name\":\"a\",\"commands\":[{\"insert\":{\"b\":\"",
        "a", 16368, "\",\"_id\":1}},5]}]", "wrong kind /clients/0/commands/1"],
    ["clients", "[{\"name\":\"a\",\"commands\":[{\"insert\":{\"b\":\"",
        "a", 16369, "\",\"_id\":1}},5]}]", "over limit 16384 /clients/0/commands/0/insert"]
]"#;
