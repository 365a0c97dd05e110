//! Values as rows of JSON: what is read at the path /p, and last what comes of it.

/// Values and their texts.
pub(crate) const TEXTS: &str = r#"[
    [null, "null"], [true, "true"], [false, "false"], [0, "0"],
    [-9223372036854775808, "-9223372036854775808"], [9223372036854775807, "9223372036854775807"],
    ["a", "\"a\""], [[], "[]"], [{}, "{}"], [[ 1, [null], {} ], "[1,[null],{}]"],
    [{"b": 1, "a": {"z": 2, "B": 3}, "b": 4}, "{\"a\":{\"B\":3,\"z\":2},\"b\":4}"],
    [{"$oid": "00fFA9b01234567890aBcDeF"}, "{\"$oid\":\"00ffa9b01234567890abcdef\"}"],
    [{"$numberLong": "-9223372036854775808"}, "-9223372036854775808"],
    [{"$numberLong": "-0"}, "0"], [{"$numberLong": "0000000000000000012"}, "12"],
    [{"$numberInt": "2147483647"}, "2147483647"], [{"$numberInt": "-2147483648"}, "-2147483648"],
    [{"$date": {"$numberLong": "-1"}}, "{\"$date\":{\"$numberLong\":\"-1\"}}"],
    ["\u0000\u0001\u0002\u0003\u0004\u0005\u0006\u0007\b\t\n\u000B\f\r\u000E\u000F",
        "\"\\u0000\\u0001\\u0002\\u0003\\u0004\\u0005\\u0006\\u0007\\b\\t\\n\\u000b\\f\\r\\u000e\\u000f\""],
    ["\u0010\u0011\u0012\u0013\u0014\u0015\u0016\u0017",
        "\"\\u0010\\u0011\\u0012\\u0013\\u0014\\u0015\\u0016\\u0017\""],
    ["\u0018\u0019\u001A\u001B\u001C\u001D\u001E\u001F",
        "\"\\u0018\\u0019\\u001a\\u001b\\u001c\\u001d\\u001e\\u001f\""],
    ["\"\\\/\u007f\u00e9'", "\"\\\"\\\\/\u007f\u00e9'\""]
]"#;

/// Values at the edge of level 32.
pub(crate) const LEVELS: &str = r#"[
    [[[[[[[[[[[[[[[[[[[[[[[[[[[[[[[[[5]]]]]]]]]]]]]]]]]]]]]]]]]]]]]]]],
        "[[[[[[[[[[[[[[[[[[[[[[[[[[[[[[[[5]]]]]]]]]]]]]]]]]]]]]]]]]]]]]]]]"],
    [[[[[[[[[[[[[[[[[[[[[[[[[[[[[[[[[[]]]]]]]]]]]]]]]]]]]]]]]]]]]]]]]]],
        "too deep /p/0/0/0/0/0/0/0/0/0/0/0/0/0/0/0/0/0/0/0/0/0/0/0/0/0/0/0/0/0/0/0/0"],
    [[[[[[[[[[[[[[[[[[[[[[[[[[[[[[[[[{"$oid":1}]]]]]]]]]]]]]]]]]]]]]]]]]]]]]]]],
        "too deep /p/0/0/0/0/0/0/0/0/0/0/0/0/0/0/0/0/0/0/0/0/0/0/0/0/0/0/0/0/0/0/0/0"],
    [[[[[[[[[[[[[[[[[[[[[[[[[[[[[[[[{"$date":{"$numberLong":"1"}}]]]]]]]]]]]]]]]]]]]]]]]]]]]]]]],
        "[[[[[[[[[[[[[[[[[[[[[[[[[[[[[[[{\"$date\":{\"$numberLong\":\"1\"}}]]]]]]]]]]]]]]]]]]]]]]]]]]]]]]]"]
]"#;

/// Values and their faults.
pub(crate) const FAULTS: &str = r#"[
    [9223372036854775808, "not whole /p"], [-9223372036854775809, "not whole /p"],
    [[0, 1.0], "not whole /p/1"], [{"a/b": {"c~d": [1e2]}}, "not whole /p/a~1b/c~0d/0"],
    [{"$oid": 5}, "bad tag /p"], [[{"$oid": "00fFA9b01234567890aBcDe"}], "bad tag /p/0"],
    [{"$oid": "00fFA9b01234567890aBcDeG"}, "bad tag /p"], [{"$numberLong": 5}, "bad tag /p"],
    [{"$numberLong": ""}, "bad tag /p"], [{"$numberLong": "+5"}, "bad tag /p"],
    [{"$numberLong": "-"}, "bad tag /p"], [{"$numberLong": "5 "}, "bad tag /p"],
    [{"$numberLong": "9223372036854775808"}, "bad tag /p"],
    [{"$numberLong": "00000000000000000001"}, "bad tag /p"],
    [{"$numberInt": "2147483648"}, "bad tag /p"], [{"$date": "2020-01-01"}, "bad tag /p"],
    [{"$date": {"$numberInt": "1"}}, "bad tag /p"],
    [{"$date": {"$numberLong": "1", "a": 1}}, "bad tag /p"],
    [{"$oid": "00", "a": 1.5}, "dollar name /p"], [{"a": {"$": 1.5}}, "dollar name /p/a"],
    [{"": 1.5, "b": {"$x": 1}}, "not whole /p/"], [{"b": 1.5, "a": {"$x": 1}}, "dollar name /p/a"]
]"#;

/// Documents: their texts, depths and `_id`s, or their faults.
pub(crate) const DOCUMENTS: &str = r#"[
    [{}, "{} 1 null"], [{"b": "x", "a": 1}, "{\"a\":1,\"b\":\"x\"} 1 null"], [{"a": []}, "{\"a\":[]} 2 null"],
    [{"b": 1, "_id": "x"}, "{\"_id\":\"x\",\"b\":1} 1 \"x\""], [{"_idx": 1, "_ID": 2}, "{\"_ID\":2,\"_idx\":1} 1 null"],
    [{"_id": {"$oid": "00ffa9b01234567890abcdef"}},
        "{\"_id\":{\"$oid\":\"00ffa9b01234567890abcdef\"}} 1 {\"$oid\":\"00ffa9b01234567890abcdef\"}"],
    [{"_id": {"b": [1]}, "c": []}, "{\"_id\":{\"b\":[1]},\"c\":[]} 3 {\"b\":[1]}"],
    [null, "not document /p"], [true, "not document /p"], [1.5, "not document /p"],
    ["a", "not document /p"], [[{}], "not document /p"],
    [{"$oid": "00ffa9b01234567890abcdef"}, "dollar name /p"],
    [{"v": {"$x": 1}}, "dollar name /p/v"], [{"v": {"$oid": 1}}, "bad tag /p/v"]
]"#;

/// What a change assigns and the names that it unsets, and what `{"a":1,"b":1,"c":1}` is after it.
pub(crate) const CHANGES: &str = r#"[
    [{}, "", "{\"a\":1,\"b\":1,\"c\":1}"], [{"b": 2}, "", "{\"a\":1,\"b\":2,\"c\":1}"],
    [{"d": 2, "0": 2}, "", "{\"0\":2,\"a\":1,\"b\":1,\"c\":1,\"d\":2}"], [{}, "c x a", "{\"b\":1}"],
    [{"bb": 2, "c": 2}, "b b a", "{\"bb\":2,\"c\":2}"], [{"a": 1, "b": 1}, "c b", "none"]
]"#;

/// Values of all kinds, each above the one before it.
pub(crate) const RISING: &str = r#"[
    null, -9223372036854775808, -1, 0, 1, 9223372036854775807, "", "B", "a", "ab", "b", "é",
    {}, {"b": null}, {"a": 0}, {"a": 0, "b": null}, {"a": 1}, {"b": -5}, {"a": ""},
    [], [1], [1, -9], [1, 1], [2],
    {"$oid": "000000000000000000000000"}, {"$oid": "0000000000000000000000ff"}, {"$oid": "010000000000000000000000"},
    false, true, {"$date": {"$numberLong": "-9223372036854775808"}}, {"$date": {"$numberLong": "-1"}},
    {"$date": {"$numberLong": "0"}}, {"$date": {"$numberLong": "9223372036854775807"}}
]"#;
