//! Chunk maps as rows of JSON. Shards count from 0, and there are three.

/// The names of a shard key, and whether they are its pattern.
pub(crate) const PATTERNS: &str = r#"[
    ["x", "a pattern"], ["x y X", "a pattern"], ["", "Count { got: 0 }"], ["x x x x", "Count { got: 4 }"],
    ["x x", "Repeated { place: 1 }"], ["x x x", "Repeated { place: 1 }"], ["x y x", "Repeated { place: 2 }"],
    ["x y y", "Repeated { place: 2 }"]
]"#;

/// Chunks by the key x, y: their bounds and shards, some documents, and the owners of these or the chunks' first fault.
pub(crate) const CHUNKS: &str = r#"[
    [[["min", [10], 0], [[10], [20, 5], 1], [[20, 5], "max", 2]],
        [{}, {"y": 99}, {"x": null}, {"x": 9, "y": 99}, {"x": 10}, {"x": 20}, {"x": 20, "y": 4}, {"x": 20, "y": 5},
            {"x": 21, "y": 0}, {"x": "9"}, {"x": false}], "0 0 0 0 1 1 1 2 2 2 2 "],
    [[["min", "max", 1]], [{}, {"x": {"a": 1}, "z": 2}], "1 1 "],
    [[], [], "FirstNotMin"], [[[[0], "max", 0]], [], "FirstNotMin"], [[[[5], [5], 0]], [], "FirstNotMin"],
    [[["min", [5], 0]], [], "LastNotMax"],
    [[["min", "min", 0], ["min", "max", 0]], [], "EmptyRange { row: 0 }"],
    [[["min", [5], 0], [[5], [5], 1], [[5], "max", 0]], [], "EmptyRange { row: 1 }"],
    [[["min", "max", 0], ["max", "max", 1]], [], "EmptyRange { row: 1 }"],
    [[["min", [5], 0], [[6], "max", 1]], [], "Gap { row: 1 }"],
    [[["min", [5], 0], [[7], [6], 1]], [], "Gap { row: 1 }"],
    [[["min", [5], 0], [[4], "max", 1]], [], "Overlap { row: 1 }"],
    [[["min", [5], 0], ["min", "max", 1]], [], "Overlap { row: 1 }"],
    [[[[0], "max", 3]], [], "UnknownShard { row: 0 }"],
    [[["min", [5], 0], [[5], [8], 3]], [], "UnknownShard { row: 1 }"],
    [[["min", [5], 0], [[6], [8], 1], [[8], "max", 9]], [], "Gap { row: 1 }"],
    [[["min", [5], 0], [[], "max", 9]], [], "WrongLength { row: 1 }"],
    [[["min", [5], 0], [[7, 8, 9], "max", 9]], [], "WrongLength { row: 1 }"],
    [[["min", [5], 0], [[7, 8], "max", 9]], [], "UnknownShard { row: 1 }"]
]"#;
