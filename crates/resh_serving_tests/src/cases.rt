//! Sequences of commands as texts: the order in which the commands are asked and the switch comes, the documents, and
//! the commands of the one client. Documents go by `x` under the old map and by `y` under the new one; shard `a` has
//! the numbers below 10, `b` those below 20 and `c` the rest. `none`, `one`, `two` and `many` are documents below.
//! `shop` has shards, keys and documents of its own.

pub(crate) const HEAD: &str =
    r#"{"version":1,"shards":["a","b","c"],"oldKey":["x"],"newKey":["y"],"lanes":1,
"oldChunks":[{"min":"MinKey","max":[10],"shard":"a"},{"min":[10],"max":[20],"shard":"b"},
{"min":[20],"max":"MaxKey","shard":"c"}],
"newChunks":[{"min":"MinKey","max":[10],"shard":"a"},{"min":[10],"max":[20],"shard":"b"},
{"min":[20],"max":"MaxKey","shard":"c"}]"#;

pub(crate) const ONE: &str = r#"{"_id":1,"x":1,"y":1}"#;

pub(crate) const TWO: &str = r#"{"_id":1,"x":1,"y":1},{"_id":1,"x":11,"y":11}"#;

pub(crate) const MANY: &str =
    r#"{"_id":12,"x":1,"y":1},{"_id":11,"x":2,"y":11},{"_id":10,"x":3,"y":21},
{"_id":9,"x":11,"y":1},{"_id":8,"x":12,"y":11},{"_id":7,"x":13,"y":21},{"_id":6,"x":21,"y":1},{"_id":5,"x":22,"y":11},
{"_id":4,"x":23,"y":21},{"_id":3,"x":4,"y":2},{"_id":2,"x":14,"y":12},{"_id":1,"x":24,"y":22}"#;

/// A shop's orders, resharded by region and customer.
pub(crate) const SHOP_HEAD: &str =
    r#"{"version":1,"shards":["east","west"],"oldKey":["customer"],"newKey":["region","customer"],
"oldChunks":[{"min":"MinKey","max":["m"],"shard":"east"},{"min":["m"],"max":"MaxKey","shard":"west"}],
"newChunks":[{"min":"MinKey","max":["eu"],"shard":"east"},{"min":["eu"],"max":["us"],"shard":"west"},{"min":["us"],
"max":"MaxKey","shard":"east"}]"#;

pub(crate) const SHOP: &str =
    r#"{"_id":1,"customer":"ann","region":"eu","lines":[{"sku":"tea","qty":{"$numberInt":"2"}}],"total":900},
{"_id":2,"customer":"bob","region":"us","lines":[{"sku":"cup","qty":1}],"total":400},
{"_id":3,"customer":"mia","region":"eu","lines":[{"sku":"jug","qty":1}],"total":700},
{"_id":4,"customer":"zoe","region":"apac","lines":[{"sku":"tea","qty":3}],"total":{"$numberLong":"1200"}},
{"_id":5,"customer":"leo","placed":{"$date":{"$numberLong":"1700000000000"}},"lines":[],"total":100},
{"_id":6,"customer":"pat","region":"us","lines":[],"total":300}"#;

/// Inserts, deletes, updates in place, refusals, moves and their undoing, commands after the switch, finds and counts.
pub(crate) const SEQUENCES: &str = r#"ask switch
none
{"insert":{"_id":1,"x":1,"y":1}}

ask switch
one
{"insert":{"_id":1,"x":2,"y":2}}

ask switch
one
{"insert":{"_id":1,"x":12,"y":12}}

ask ask switch
none
{"insert":{"_id":1}},{"insert":{"_id":1,"x":null,"y":3}}

ask switch
none
{"insert":{"_id":"k","x":"text","y":{"$oid":"65a000000000000000000001"}}}

ask switch ask
one
{"insert":{"_id":2,"x":30,"y":1}},{"insert":{"_id":3,"x":1,"y":30}}

ask switch
one
{"delete":{"_id":1,"x":1}}

ask switch
one
{"delete":{"_id":2,"x":1}}

ask switch
one
{"delete":{"_id":1,"x":1,"y":2}}

ask ask switch
one
{"delete":{"x":1}},{"delete":{"_id":1}}

ask switch
one
{"delete":{"_id":1,"x":11}}

ask ask switch
two
{"delete":{"_id":1,"x":11}},{"count":{"_id":1}}

ask ask ask switch
one
{"delete":{"_id":1,"x":1}},{"delete":{"_id":1,"x":1}},{"insert":{"_id":1,"x":1,"y":4}}

ask switch
one
{"delete":{"_id":1,"x":1,"z":null}}

ask switch
one
{"update":{"_id":1,"x":1},"with":{"$set":{"n":1}}}

ask switch
one
{"update":{"_id":1,"x":1},"with":{"$set":{"y":25}}}

ask switch
one
{"update":{"_id":1,"x":1},"with":{"$set":{"x":2}}}

ask switch
one
{"update":{"_id":1,"x":1},"with":{"$set":{"x":1}}}

ask switch
one
{"update":{"_id":1,"x":1},"with":{"$unset":{"y":""}}}

ask ask switch
one
{"update":{"_id":1,"x":1},"with":{"$unset":{"x":""}}},{"delete":{"_id":1,"x":null}}

ask switch
{"_id":1,"y":1}
{"update":{"_id":1,"x":null},"with":{"$set":{"x":null}}}

ask ask switch
one
{"update":{"_id":1,"x":1},"with":{"$push":{"l":1}}},{"update":{"_id":1,"x":1,"l":[1]},"with":{"$pop":{"l":1}}}

ask switch
one
{"update":{"_id":1,"x":1},"with":{"$push":{"y":1}}}

ask switch
one
{"update":{"_id":1,"x":1},"with":{"$inc":{"y":9223372036854775807}}}

ask switch
one
{"update":{"_id":3,"x":1},"with":{"$set":{"x":30}}}

ask ask switch
one
{"update":{"x":1},"with":{"$set":{"x":30}}},{"update":{"_id":1},"with":{"$set":{"n":1}}}

ask switch
one
{"update":{"_id":1,"x":1},"with":{"$set":{"x":11}}}

ask ask switch
one
{"update":{"_id":1,"x":1},"with":{"$set":{"x":11}}},{"update":{"_id":1,"x":11},"with":{"$set":{"x":3}}}

ask ask switch
two
{"update":{"_id":1,"x":1},"with":{"$set":{"x":12}}},{"find":{}}

ask ask ask switch
two
{"delete":{"_id":1,"x":11}},{"update":{"_id":1,"x":1},"with":{"$set":{"x":12}}},{"find":{}}

ask ask ask switch
{"_id":1,"x":25,"y":1}
{"update":{"_id":1,"x":25},"with":{"$set":{"x":5,"n":1}}},{"update":{"_id":1,"x":5},"with":{"$inc":{"x":10}}},
{"find":{"n":1}}

ask switch ask
one
{"update":{"_id":1,"x":1},"with":{"$set":{"x":11,"y":29}}},
{"update":{"_id":1,"y":29},"with":{"$set":{"y":15}}}

ask ask switch
one
{"update":{"_id":1,"x":1},"with":{"$rename":{"x":"z"}}},
{"update":{"_id":1,"x":null},"with":{"$rename":{"z":"x"}}}

switch ask ask
one
{"update":{"_id":1,"x":1},"with":{"$set":{"n":1}}},{"update":{"_id":1,"y":1},"with":{"$set":{"n":2}}}

switch ask ask ask
two
{"update":{"_id":1,"y":1},"with":{"$set":{"y":12}}},{"update":{"_id":1,"y":1},"with":{"$set":{"y":22}}},
{"find":{}}

ask switch ask ask ask
many
{"delete":{"_id":7,"x":13}},{"delete":{"_id":8,"y":11}},{"insert":{"_id":7,"x":13,"y":21}},{"count":{}}

ask switch ask ask
many
{"update":{"_id":4,"x":23},"with":{"$min":{"y":0}}},{"find":{"y":0}},{"find":{"x":23}}

ask ask switch
many
{"find":{}},{"count":{}}

ask ask ask switch
many
{"find":{"x":3}},{"count":{"x":99}},{"find":{"y":1}}

switch ask ask ask
many
{"find":{}},{"find":{"y":21}},{"count":{"x":1}}

ask ask ask switch
two
{"find":{"_id":1}},{"find":{"_id":2}},{"count":{"_id":1,"x":11}}

ask ask ask ask switch
many
{"delete":{"_id":5,"x":22}},{"find":{}},{"delete":{"_id":6,"x":21}},{"find":{}}

ask ask switch
{"_id":1,"x":1,"y":1,"t":{"a":[1,{"b":2}]}}
{"find":{"t":{"a":[1,{"b":2}]}}},{"count":{"t":{"a":[1,{"b":3}]}}}

ask ask ask ask switch ask ask
one
{"delete":{"_id":1,"x":1,"y":1}},{"insert":{"_id":1,"x":1,"y":1,"n":1}},{"delete":{"_id":1,"x":1,"y":1}},
{"insert":{"_id":1,"x":1,"y":1,"n":2}},{"delete":{"_id":1,"x":1,"y":1}},{"insert":{"_id":1,"x":1,"y":1,"n":3}}

ask switch
{"_id":1,"x":1,"y":1},{"_id":1,"x":20,"y":1}
{"delete":{"_id":1,"x":1}}

ask ask switch
one
{"delete":{"_id":1,"x":1}},{"insert":{"_id":1,"x":20,"y":1,"n":5}}

ask ask switch
{"_id":1,"x":1,"y":1},{"_id":1,"x":11,"y":1},{"_id":1,"x":21,"y":1}
{"delete":{"_id":1,"x":1}},{"delete":{"_id":1,"x":11}}

ask switch
one
{"update":{"_id":1,"x":1},"with":{"$set":{"x":15}}}

ask switch
one
{"update":{"_id":1,"x":1},"with":{"$set":{"y":20}}}

switch ask ask
{"_id":1,"x":1,"y":20}
{"update":{"_id":1,"x":1},"with":{"$set":{"n":1}}},{"update":{"_id":1,"y":20},"with":{"$set":{"n":2}}}

ask ask ask ask switch
{"_id":1,"x":1,"y":1,"n":0},{"_id":2,"x":20,"y":1}
{"update":{"_id":1,"x":1},"with":{"$set":{"n":1}}},{"update":{"_id":1,"x":1},"with":{"$set":{"n":2}}},
{"insert":{"_id":2,"x":2,"y":1}},{"delete":{"_id":2,"x":20}}

ask ask switch
{"_id":1,"x":1,"y":1,"n":9223372036854775807}
{"update":{"_id":1,"x":1},"with":{"$inc":{"n":1}}},{"update":{"_id":1,"x":1},"with":{"$inc":{"m":2}}}

ask ask ask ask ask ask ask ask switch ask ask ask ask
shop
{"insert":{"_id":7,"customer":"ann","region":"us","lines":[],"total":250}},{"delete":{"_id":6,"customer":"pat"}},
{"update":{"_id":1,"customer":"ann"},"with":{"$set":{"status":"paid"},"$inc":{"total":50}}},
{"update":{"_id":3,"customer":"mia"},"with":{"$set":{"customer":"amy"}}},
{"update":{"_id":4,"customer":"zoe"},"with":{"$push":{"lines":{"sku":"pot","qty":1}}}},
{"insert":{"_id":2,"customer":"bob"}},{"find":{"region":"eu"}},
{"update":{"_id":5,"customer":"leo"},"with":{"$set":{"region":"us"}}},
{"update":{"_id":5,"customer":"leo"},"with":{"$inc":{"total":1}}},
{"update":{"_id":5,"region":"us","customer":"leo"},"with":{"$inc":{"total":-20}}},{"count":{}},
{"delete":{"_id":2,"region":"us","customer":"bob"}}"#;
