//! Updates and filters as rows of JSON: what is read, and last what comes of it.

/// The document that updates change.
pub(crate) const EXAMPLE: &str = r#"{
    "_id": 1, "n": 5, "s": "x", "l": [1, 2], "e": [], "d": {"a": 1}, "z": {"k": 0},
    "high": 9223372036854775806, "low": -9223372036854775807,
    "half": 4611686018427387904, "least": -9223372036854775808
}"#;

/// Updates of one operator: the fields that are assigned and the names that are unset, or the fault.
pub(crate) const OPERATORS: &str = r#"[
    [{"$addToSet": {"l": 3}}, "{\"l\":[1,2,3]}"], [{"$addToSet": {"l": 2}}, "{}"],
    [{"$addToSet": {"m": 3}}, "{\"m\":[3]}"], [{"$addToSet": {"n": 5}}, "not array n"],
    [{"$addToSet": {"n.x": 3}}, "through scalar n.x"], [{"$addToSet": {"d.l": 1}}, "{\"d\":{\"a\":1,\"l\":[1]}}"],
    [{"$addToSet": {"l": [1, 2]}}, "{\"l\":[1,2,[1,2]]}"], [{"$inc": {"n": 2}}, "{\"n\":7}"],
    [{"$inc": {"n": 0}}, "{}"], [{"$inc": {"m": 2}}, "{\"m\":2}"], [{"$inc": {"s": 2}}, "not number s"],
    [{"$inc": {"s.x": 2}}, "through scalar s.x"], [{"$inc": {"d.b.c": 2}}, "{\"d\":{\"a\":1,\"b\":{\"c\":2}}}"],
    [{"$max": {"n": 9}}, "{\"n\":9}"], [{"$max": {"n": 3}}, "{}"], [{"$max": {"n": 5}}, "{}"],
    [{"$max": {"m": 3}}, "{\"m\":3}"], [{"$max": {"s": 9}}, "{}"], [{"$max": {"n": "a"}}, "{\"n\":\"a\"}"],
    [{"$max": {"s.x": 9}}, "through scalar s.x"], [{"$max": {"y.b": 3}}, "{\"y\":{\"b\":3}}"],
    [{"$min": {"n": 9}}, "{}"], [{"$min": {"n": 3}}, "{\"n\":3}"], [{"$min": {"n": 5}}, "{}"],
    [{"$min": {"m": 3}}, "{\"m\":3}"], [{"$min": {"s": 9}}, "{\"s\":9}"], [{"$min": {"n": "a"}}, "{}"],
    [{"$min": {"s.x": 9}}, "through scalar s.x"], [{"$min": {"d.b": 3}}, "{\"d\":{\"a\":1,\"b\":3}}"],
    [{"$mul": {"n": 3}}, "{\"n\":15}"], [{"$mul": {"n": -1}}, "{\"n\":-5}"], [{"$mul": {"m": 3}}, "{\"m\":0}"],
    [{"$mul": {"l": 3}}, "not number l"], [{"$mul": {"s.x": 3}}, "through scalar s.x"],
    [{"$mul": {"y.b": 3}}, "{\"y\":{\"b\":0}}"], [{"$pop": {"l": 1}}, "{\"l\":[1]}"],
    [{"$pop": {"l": -1}}, "{\"l\":[2]}"], [{"$pop": {"e": 1}}, "{}"], [{"$pop": {"e": -1}}, "{}"],
    [{"$pop": {"m": 1}}, "{}"], [{"$pop": {"y.b": 1}}, "{}"], [{"$pop": {"n": 1}}, "not array n"],
    [{"$pop": {"n.x": 1}}, "through scalar n.x"], [{"$push": {"l": 2}}, "{\"l\":[1,2,2]}"],
    [{"$push": {"e": {"k": 1}}}, "{\"e\":[{\"k\":1}]}"], [{"$push": {"m": 2}}, "{\"m\":[2]}"],
    [{"$push": {"d": 2}}, "not array d"], [{"$push": {"s.x": 2}}, "through scalar s.x"],
    [{"$push": {"d.b": 2}}, "{\"d\":{\"a\":1,\"b\":[2]}}"], [{"$rename": {"n": "m"}}, "{\"m\":5} n"],
    [{"$rename": {"m": "y"}}, "{}"], [{"$rename": {"m": "s.x"}}, "{}"], [{"$rename": {"n": "s"}}, "{\"s\":5} n"],
    [{"$rename": {"n": "d.b"}}, "{\"d\":{\"a\":1,\"b\":5}} n"], [{"$rename": {"d.a": "a"}}, "{\"a\":1,\"d\":{}}"],
    [{"$rename": {"n": "y.b"}}, "{\"y\":{\"b\":5}} n"], [{"$rename": {"n": "s.x"}}, "through scalar s.x"],
    [{"$rename": {"s.x": "y"}}, "through scalar s.x"], [{"$set": {"n": 6}}, "{\"n\":6}"], [{"$set": {"n": 5}}, "{}"],
    [{"$set": {"m": null}}, "{\"m\":null}"], [{"$set": {"d": {"a": 1}}}, "{}"], [{"$set": {"s": []}}, "{\"s\":[]}"],
    [{"$set": {"s.x": 1}}, "through scalar s.x"], [{"$set": {"d.b.c": 1}}, "{\"d\":{\"a\":1,\"b\":{\"c\":1}}}"],
    [{"$set": {"d.a": {"b": 1}}}, "{\"d\":{\"a\":{\"b\":1}}}"], [{"$unset": {"n": 0}}, "{} n"],
    [{"$unset": {"m": 0}}, "{}"], [{"$unset": {"s.x": 0}}, "{}"], [{"$unset": {"y.b": 0}}, "{}"],
    [{"$unset": {"d.a": 0}}, "{\"d\":{}}"], [{"$unset": {"d.b": 0}}, "{}"],
    [{"$inc": {"high": 1}}, "{\"high\":9223372036854775807}"], [{"$inc": {"high": 2}}, "out of range high"],
    [{"$inc": {"low": -1}}, "{\"low\":-9223372036854775808}"], [{"$inc": {"low": -2}}, "out of range low"],
    [{"$mul": {"half": 2}}, "out of range half"], [{"$mul": {"half": -2}}, "{\"half\":-9223372036854775808}"],
    [{"$mul": {"least": -1}}, "out of range least"], [{"$mul": {"least": 1}}, "{}"],
    [{"$mul": {"least": 0}}, "{\"least\":0}"]
]"#;

/// Updates of several operators and paths, told alike.
pub(crate) const UPDATES: &str = r#"[
    [{"$set": {}}, "{}"], [{"$unset": {}, "$set": {}}, "{}"], [{"$inc": {"a": {"$numberLong": "5"}}}, "{\"a\":5}"],
    [{"$inc": {"b": -3, "a.b.c": 9223372036854775807}}, "{\"a\":{\"b\":{\"c\":9223372036854775807}},\"b\":-3}"],
    [{"$push": {"p": [1]}, "$addToSet": {"x": {"k": [1]}}}, "{\"p\":[[1]],\"x\":[{\"k\":[1]}]}"],
    [{"$mul": {"c": {"$numberInt": "2"}}, "$min": {"b": null}, "$max": {"a": "x"}},
        "{\"a\":\"x\",\"b\":null,\"c\":0}"], [{"$pop": {"l": {"$numberLong": "-1"}}}, "{\"l\":[2]}"],
    [{"$rename": {"n": "b", "d.a": "f.g.h"}}, "{\"b\":5,\"d\":{},\"f\":{\"g\":{\"h\":1}}} n"],
    [{"$unset": {"n": {"x": 1}}, "$set": {"b": {"$oid": "00ffa9b01234567890abcdef"}}},
        "{\"b\":{\"$oid\":\"00ffa9b01234567890abcdef\"}} n"],
    [{"$set": {"a.b": 1, "a.c": 2, "ab": 3, "a$": 4, " ": 5, "b._id": 6, "_idx": 7, "_ID": 8}},
        "{\" \":5,\"_ID\":8,\"_idx\":7,\"a\":{\"b\":1,\"c\":2},\"a$\":4,\"ab\":3,\"b\":{\"_id\":6}}"],
    [{"$push": {"d.x": 2}, "$set": {"d.y": 1}}, "{\"d\":{\"a\":1,\"x\":[2],\"y\":1}}"],
    [{"$inc": {"n": 1}, "$rename": {"s": "t"}, "$unset": {"l": 0}}, "{\"n\":6,\"t\":\"x\"} l s"],
    [{"$inc": {"s": 1}, "$push": {"n": 1}}, "not number s"], [{"$push": {"s": 1}, "$inc": {"n": 1}}, "not array s"],
    [{"$inc": {"n": 0}, "$set": {"d.a": 1}}, "{}"]
]"#;

/// Updates at the limits of size and depth: the last number is the limit of the size.
pub(crate) const LIMITS: &str = r#"[
    [{"$set": {"a": "x"}}, "{\"a\":\"x\"}", 182], [{"$set": {"a": "x"}}, "too large", 181],
    [{"$set": {"a.a.a.a.a.a.a.a.a.a.a.a.a.a.a.a.a.a.a.a.a.a.a.a.a.a.a.a.a.a.a.a.a": 1}}, "too deep"],
    [{"$set": {"a.a.a.a.a.a.a.a.a.a.a.a.a.a.a.a.a.a.a.a.a.a.a.a.a.a.a.a.a.a.a.a.a": 1}}, "too large", 9],
    [{"$unset": {"n": 1, "l": 1}, "$set": {"a.a.a.a.a.a.a.a.a.a.a.a.a.a.a.a.a.a.a.a.a.a.a.a.a.a.a.a.a.a.a.a": []}},
        "too deep"]
]"#;

/// Updates that are none.
pub(crate) const BAD: &str = r#"[
    [null, "bad operand "], [true, "bad operand "], [5, "bad operand "], ["$set", "bad operand "],
    [[], "bad operand "], [{}, "bad operand "], [{"a": 1}, "unknown operator a"], [{"": {}}, "unknown operator "],
    [{"$Set": {}}, "unknown operator $Set"], [{"set": {"a": 1}}, "unknown operator set"],
    [{"$setOnInsert": {}}, "unknown operator $setOnInsert"], [{"$numberLong": "5"}, "unknown operator $numberLong"],
    [{"$set": null}, "bad operand $set"], [{"$inc": 5}, "bad operand $inc"], [{"$pop": [1]}, "bad operand $pop"],
    [{"$set": {"": 1}}, "bad operand "], [{"$set": {"a..b": 1}}, "bad operand a..b"],
    [{"$set": {".a": 1}}, "bad operand .a"], [{"$set": {"a.": 1}}, "bad operand a."],
    [{"$set": {".": 1}}, "bad operand ."], [{"$set": {"$a": 1}}, "bad operand $a"],
    [{"$set": {"a.$b": 1}}, "bad operand a.$b"], [{"$set": {"_id.": 1}}, "bad operand _id."],
    [{"$set": {"_id": 1}}, "id path"], [{"$unset": {"_id.x": 1}}, "id path"], [{"$rename": {"_id": "a"}}, "id path"],
    [{"$rename": {"a": "_id"}}, "id path"], [{"$rename": {"a": "_id.x"}}, "id path"],
    [{"$inc": {"a": "1"}}, "bad operand a"], [{"$inc": {"a": 1.5}}, "bad operand a"],
    [{"$inc": {"a": {"$date": {"$numberLong": "1"}}}}, "bad operand a"],
    [{"$inc": {"a": {"$numberLong": "x"}}}, "bad operand a"], [{"$mul": {"a.b": {"$x": 1}}}, "bad operand a.b"],
    [{"$mul": {"a": null}}, "bad operand a"], [{"$pop": {"a": 0}}, "bad operand a"],
    [{"$pop": {"a": 2}}, "bad operand a"], [{"$pop": {"a": -2}}, "bad operand a"],
    [{"$pop": {"a": "1"}}, "bad operand a"], [{"$pop": {"a": 1.0}}, "bad operand a"],
    [{"$rename": {"a": 5}}, "bad operand a"], [{"$rename": {"a": 1.5}}, "bad operand a"],
    [{"$rename": {"a": ""}}, "bad operand a"], [{"$rename": {"a": "b..c"}}, "bad operand a"],
    [{"$rename": {"a": "b.$c"}}, "bad operand a"]
]"#;

/// Updates with an operand that is no value.
pub(crate) const NO_VALUES: &str = r#"[
    [{"$set": {"a": 1.5}}, "not whole /with/$set/a"],
    [{"$addToSet": {"a": [0, 1e2]}}, "not whole /with/$addToSet/a/1"],
    [{"$max": {"a.b": {"c": {"$x": 1}}}}, "dollar name /with/$max/a.b/c"],
    [{"$min": {"a": {"$oid": "00"}}}, "bad tag /with/$min/a"],
    [{"$push": {"a/b~c": {"d/e": 0.5}}}, "not whole /with/$push/a~1b~0c/d~1e"],
    [{"$unset": {"a": 18446744073709551615}}, "not whole /with/$unset/a"],
    [{"$set": {"a": [[[[[[[[[[[[[[[[[[[[[[[[[[[[[[[[[]]]]]]]]]]]]]]]]]]]]]]]]]]]]]]]]]}},
        "too deep /with/$set/a/0/0/0/0/0/0/0/0/0/0/0/0/0/0/0/0/0/0/0/0/0/0/0/0/0/0/0/0/0/0/0/0"]
]"#;

/// Updates with more than one fault.
pub(crate) const FIRST: &str = r#"[
    [{"$set": {"a": 1.5}, "$inc": {"b": "x"}}, "bad operand b"],
    [{"$set": {"b": 1.5, "a..b": 1}}, "bad operand a..b"],
    [{"$set": {"a..b": 1.5, "a": {"$x": 1}}}, "dollar name /with/$set/a"],
    [{"x": 1, "$unset": 5, "$set": {"_id": 1.5}}, "id path"], [{"x": 1, "$unset": 5}, "bad operand $unset"],
    [{"$rename": {"a": 5, "_id": "x"}}, "id path"], [{"$set": {"a": 1, "a.b": 2}, "$unset": 5}, "bad operand $unset"],
    [{"$inc": {"a": 1}, "$set": {"a.b": 1.5}}, "not whole /with/$set/a.b"]
]"#;

/// Updates with paths that conflict.
pub(crate) const CONFLICTS: &str = r#"[
    [{"$inc": {"a": 1}, "$set": {"a.b": 2}}, "conflict a.b"], [{"$inc": {"a.b": 1}, "$set": {"a": 2}}, "conflict a"],
    [{"$inc": {"a.b": 1}, "$set": {"a.b": 2}}, "conflict a.b"], [{"$set": {"a": 1, "a.b.c": 2}}, "conflict a.b.c"],
    [{"$inc": {"a": 1, "b": 1}, "$set": {"a": 1, "b": 1}}, "conflict a"], [{"$rename": {"a": "a"}}, "conflict a"],
    [{"$rename": {"a": "a.b"}}, "conflict a.b"], [{"$rename": {"a.b": "a"}}, "conflict a"],
    [{"$rename": {"a": "b", "c": "b"}}, "conflict b"], [{"$rename": {"a": "b", "b": "c"}}, "conflict b"],
    [{"$inc": {"b": 1}, "$rename": {"a": "b.c"}}, "conflict b.c"],
    [{"$rename": {"a": "b.c"}, "$set": {"b": 1}}, "conflict b"],
    [{"$rename": {"a": "b"}, "$set": {"a": 1}}, "conflict a"],
    [{"$rename": {"b": "a"}, "$inc": {"a": 1, "b": 1}}, "conflict b"]
]"#;

/// Filters at the path /p, and their pairs or first faults.
pub(crate) const FILTERS: &str = r#"[
    [{}, "{}"], [{"b": 1, "a": null}, "{\"a\":null,\"b\":1}"], [{"": 1, "é": "."}, "{\"\":1,\"é\":\".\"}"],
    [{"a": {"b.c": 1}}, "{\"a\":{\"b.c\":1}}"], [{"a$": {"$numberInt": "7"}}, "{\"a$\":7}"],
    [null, "not document /p"], [true, "not document /p"], [1.5, "not document /p"], ["a.b", "not document /p"],
    [[{"a.b": 1}], "not document /p"], [{"a.b": 1}, "dotted name /p/a.b"], [{".": 1}, "dotted name /p/."],
    [{"b.": 1, "a": 1, "aa.b": 1, "ab.": 1}, "dotted name /p/aa.b"], [{"a/.~": 1}, "dotted name /p/a~1.~0"],
    [{"a": 1.5, "b.c": 1}, "dotted name /p/b.c"], [{"$x": 1, "a.b": 1}, "dotted name /p/a.b"],
    [{"$x.y": 1}, "dotted name /p/$x.y"], [{"$x": 1.5}, "dollar name /p"], [{"a": 1.5, "$x": 1}, "dollar name /p"],
    [{"$oid": "00ffa9b01234567890abcdef"}, "dollar name /p"], [{"b": 2.5, "a": 1.5}, "not whole /p/a"],
    [{"a": {"b": [0, {"$x": 1}]}}, "dollar name /p/a/b/1"], [{"a": {"$oid": 1}}, "bad tag /p/a"],
    [{"a": [[[[[[[[[[[[[[[[[[[[[[[[[[[[[[[]]]]]]]]]]]]]]]]]]]]]]]]]]]]]]]},
        "{\"a\":[[[[[[[[[[[[[[[[[[[[[[[[[[[[[[[]]]]]]]]]]]]]]]]]]]]]]]]]]]]]]]}"],
    [{"a": [[[[[[[[[[[[[[[[[[[[[[[[[[[[[[[[]]]]]]]]]]]]]]]]]]]]]]]]]]]]]]]]},
        "too deep /p/a/0/0/0/0/0/0/0/0/0/0/0/0/0/0/0/0/0/0/0/0/0/0/0/0/0/0/0/0/0/0/0"]
]"#;

/// A filter, a document, and whether the one matches the other.
pub(crate) const MATCHES: &str = r#"[
    [{}, {}, "yes"], [{}, {"a": 1}, "yes"], [{"a": 1}, {"a": 1}, "yes"], [{"a": 1}, {"a": 2}, "no"],
    [{"a": 1}, {"a": true}, "no"], [{"a": 1}, {"a": "1"}, "no"], [{"a": true}, {"a": "1"}, "no"],
    [{"a": true}, {"a": true}, "yes"], [{"a": true}, {"a": false}, "no"], [{"a": "1"}, {"a": "1"}, "yes"],
    [{"a": "1"}, {"a": "12"}, "no"], [{"a": {"$numberInt": "1"}}, {"a": 1}, "yes"],
    [{"a": 1}, {"a": {"$numberLong": "01"}}, "yes"], [{"a": {"$date": {"$numberLong": "1"}}}, {"a": 1}, "no"],
    [{"a": {"$date": {"$numberLong": "1"}}}, {"a": {"$date": {"$numberLong": "1"}}}, "yes"],
    [{"a": {"$oid": "00ffa9b01234567890abcdef"}}, {"a": {"$oid": "00FFA9B01234567890ABCDEF"}}, "yes"],
    [{"a": {"$oid": "00ffa9b01234567890abcdef"}}, {"a": "00ffa9b01234567890abcdef"}, "no"],
    [{"a": {"b": 1, "c": 2}}, {"a": {"c": 2, "b": 1}}, "yes"], [{"a": {"b": 1}}, {"a": {"b": 1, "c": 2}}, "no"],
    [{"a": {"b": null}}, {"a": {}}, "no"], [{"a": {}}, {"a": {}}, "yes"], [{"a": [1, 2]}, {"a": [1, 2]}, "yes"],
    [{"a": [1, 2]}, {"a": [2, 1]}, "no"], [{"a": [1]}, {"a": [1, 2]}, "no"], [{"a": 1}, {"a": [1]}, "no"],
    [{"a": 1, "b": 2}, {"b": 2, "c": 3, "a": 1}, "yes"], [{"a": 1, "b": 2}, {"a": 1, "b": 3}, "no"],
    [{"a": 1, "b": 2}, {"a": 2, "b": 2}, "no"], [{"a": 1, "b": 2}, {"a": 1}, "no"], [{"a": 0}, {}, "no"],
    [{"a": null}, {}, "yes"], [{"a": null}, {"b": 1}, "yes"], [{"a": null}, {"a": null}, "yes"],
    [{"a": null}, {"a": 0}, "no"], [{"a": null}, {"a": false}, "no"], [{"a": 1}, {"a": null}, "no"],
    [{"a": null, "b": 1}, {"b": 1}, "yes"], [{"a": null, "b": 1}, {"b": 2}, "no"]
]"#;
