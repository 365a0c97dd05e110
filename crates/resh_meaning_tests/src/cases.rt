//! Orders of turns as texts: an array of documents, the commands of the clients `c` and `d`, one order or some that are
//! parted by `/`, and the page from its turns on, or `none` where the orders aren't lawful. The old key is `x` and the
//! new one `y`; shard `a` has the numbers below 10 and `b` the rest.

pub(crate) const CASES: &str = r#"[{"_id":1,"x":1,"y":1},{"_id":1,"x":20,"y":1}]
[{"delete":{"_id":1,"x":1}}]
[]
order c switch
c 1
switch
client c
1 deleted
client d
shard a 1
{"_id":1,"x":20,"y":1}
shard b 0
end committed

[{"_id":1,"x":1,"y":1}]
[{"delete":{"_id":1,"x":1}},{"insert":{"_id":1,"x":20,"y":1,"n":5}}]
[]
order c c switch
c 1
c 2
switch
client c
1 deleted
2 inserted
client d
shard a 1
{"_id":1,"n":5,"x":20,"y":1}
shard b 0
end committed

[{"_id":1,"x":1,"y":1}]
[{"update":{"_id":1,"x":1},"with":{"$set":{"x":15}}}]
[]
order c switch
c 1
switch
client c
1 matched 1 changed 1
client d
shard a 1
{"_id":1,"x":15,"y":1}
shard b 0
end committed

[{"_id":1,"x":1,"y":1}]
[{"update":{"_id":1,"x":1},"with":{"$set":{"y":20}}}]
[]
order c switch
c 1
switch
client c
1 matched 1 changed 1
client d
shard a 0
shard b 1
{"_id":1,"x":1,"y":20}
end committed

[{"_id":1,"x":1,"y":20}]
[{"update":{"_id":1,"x":1},"with":{"$set":{"n":1}}},{"update":{"_id":1,"y":20},"with":{"$set":{"n":2}}}]
[]
order switch c c
switch
c 1
c 2
client c
1 no key
2 matched 1 changed 1
client d
shard a 0
shard b 1
{"_id":1,"n":2,"x":1,"y":20}
end committed

[{"_id":1,"x":1,"y":20}]
[{"abort":true},{"abort":true}]
[]
order c asked-c1 c
c 1
drop
c 2
client c
1 abort accepted
2 abort too late
client d
shard a 1
{"_id":1,"x":1,"y":20}
shard b 0
end aborted: asked c 1

[{"_id":1,"x":1,"y":20}]
[{"count":{}},{"abort":true}]
[]
order switch c c
switch
c 1
c 2
client c
1 count 1
2 abort too late
client d
shard a 0
shard b 1
{"_id":1,"x":1,"y":20}
end committed

[{"_id":1,"x":1,"y":1,"n":9223372036854775807}]
[{"update":{"_id":1,"x":1},"with":{"$inc":{"n":1}}},{"update":{"_id":1,"x":1},"with":{"$inc":{"m":2}}}]
[]
order c c switch
c 1
c 2
switch
client c
1 refused: out of range "n"
2 matched 1 changed 1
client d
shard a 1
{"_id":1,"m":2,"n":9223372036854775807,"x":1,"y":1}
shard b 0
end committed

[{"_id":1,"x":1,"y":1,"n":0}]
[{"delete":{"_id":1,"x":1,"y":1}},{"insert":{"_id":1,"x":1,"y":1,"n":1}}]
[{"delete":{"_id":1,"x":1,"y":1}},{"insert":{"_id":1,"x":1,"y":1,"n":2}}]
order c c d switch d
c 1
c 2
d 1
switch
d 2
client c
1 deleted
2 inserted
client d
1 deleted
2 inserted
shard a 1
{"_id":1,"n":2,"x":1,"y":1}
shard b 0
end committed

[{"_id":1,"x":1,"y":1},{"_id":1,"x":20,"y":20}]
[{"find":{"_id":1}},{"count":{"x":20}}]
[]
order c c switch
c 1
c 2
switch
client c
1 found 2
  {"_id":1,"x":1,"y":1}
  {"_id":1,"x":20,"y":20}
2 count 1
client d
shard a 1
{"_id":1,"x":1,"y":1}
shard b 1
{"_id":1,"x":20,"y":20}
end committed

[{"_id":1,"x":1,"y":1},{"_id":1,"x":20,"y":20}]
[{"update":{"_id":1,"x":1},"with":{"$set":{"x":30}}}]
[]
order c switch
c 1
switch
client c
1 duplicate id
client d
shard a 1
{"_id":1,"x":1,"y":1}
shard b 1
{"_id":1,"x":20,"y":20}
end committed

[{"_id":1,"x":1,"y":1}]
[{"delete":{"_id":1,"x":1}}]
[]
order c! switch
c 1 no memory
switch
client c
1 no memory
client d
shard a 1
{"_id":1,"x":1,"y":1}
shard b 0
end committed

[{"_id":1,"x":1,"y":1},{"_id":1,"x":20,"y":1}]
[]
[]
order clash-a1
drop
client c
client d
shard a 1
{"_id":1,"x":1,"y":1}
shard b 1
{"_id":1,"x":20,"y":1}
end aborted: clash a 1

[]
[]
[]
order switch
switch
client c
client d
shard a 0
shard b 0
end committed

[{"_id":1,"x":1,"y":1}]
[{"insert":{"_id":2,"x":1,"y":1}},{"insert":{"_id":1,"x":5,"y":1}},{"insert":{"_id":1,"x":15,"y":30}}]
[{"delete":{"_id":1,"x":1,"y":2}},{"delete":{"_id":3,"x":1}},{"delete":{"x":1}},{"delete":{"_id":1,"y":1}}]
order c c c d d d d switch
c 1
c 2
c 3
d 1
d 2
d 3
d 4
switch
client c
1 inserted
2 duplicate id
3 inserted
client d
1 not found
2 not found
3 no key
4 no key
shard a 2
{"_id":1,"x":1,"y":1}
{"_id":2,"x":1,"y":1}
shard b 1
{"_id":1,"x":15,"y":30}
end committed

[{"_id":11},{"_id":10},{"_id":9,"x":15},{"_id":8},{"_id":7},{"_id":6},{"_id":5},{"_id":4},{"_id":3},{"_id":2},{"_id":1}]
[{"find":{}},{"count":{}},{"count":{"x":null}},{"find":{"x":15}},{"find":{"z":null,"_id":12}}]
[]
order c c c c c switch
c 1
c 2
c 3
c 4
c 5
switch
client c
1 found 11
  {"_id":1}
  {"_id":2}
  {"_id":3}
  {"_id":4}
  {"_id":5}
  {"_id":6}
  {"_id":7}
  {"_id":8}
  {"_id":9,"x":15}
  {"_id":10}
2 count 11
3 count 10
4 found 1
  {"_id":9,"x":15}
5 found 0
client d
shard a 11
{"_id":1}
{"_id":2}
{"_id":3}
{"_id":4}
{"_id":5}
{"_id":6}
{"_id":7}
{"_id":8}
{"_id":9,"x":15}
{"_id":10}
{"_id":11}
shard b 0
end committed

[{"_id":1,"x":25,"y":1},{"_id":1,"x":1,"y":15}]
[{"find":{}}]
[]
order c switch
c 1
switch
client c
1 found 2
  {"_id":1,"x":1,"y":15}
  {"_id":1,"x":25,"y":1}
client d
shard a 1
{"_id":1,"x":25,"y":1}
shard b 1
{"_id":1,"x":1,"y":15}
end committed

[]
[{"abort":true}]
[{"abort":true}]
order d asked-d1 c
d 1
drop
c 1
client c
1 abort too late
client d
1 abort accepted
shard a 0
shard b 0
end aborted: asked d 1

[{"_id":1,"x":1,"y":25}]
[{"count":{}},{"abort":true},{"count":{}}]
[]
order c c asked-c2 c
c 1
c 2
drop
c 3
client c
1 count 1
2 abort accepted
3 count 1
client d
shard a 1
{"_id":1,"x":1,"y":25}
shard b 0
end aborted: asked c 2

[{"_id":1,"x":1,"y":25}]
[{"insert":{"_id":2,"x":1,"y":15}},{"delete":{"_id":1,"x":1}}]
[{"insert":{"_id":1,"x":1,"y":1}},{"delete":{"_id":1,"y":25}}]
order switch c c d d
switch
c 1
c 2
d 1
d 2
client c
1 inserted
2 no key
client d
1 inserted
2 deleted
shard a 1
{"_id":1,"x":1,"y":1}
shard b 1
{"_id":2,"x":1,"y":15}
end committed

[{"_id":1,"x":1,"y":25}]
[{"insert":{"_id":1,"x":15,"y":20}},{"delete":{"_id":1,"x":1}}]
[]
order c clash-b1 c
c 1
drop
c 2
client c
1 inserted
2 deleted
client d
shard a 0
shard b 1
{"_id":1,"x":15,"y":20}
end aborted: clash b 1

[{"_id":1,"x":1,"y":25},{"_id":1,"x":15,"y":25}]
[]
[]
order failed
drop
client c
client d
shard a 1
{"_id":1,"x":1,"y":25}
shard b 1
{"_id":1,"x":15,"y":25}
end aborted: failed coordinator commit

[{"_id":1,"x":1,"y":25},{"_id":1,"x":15,"y":25}]
[]
[]
order cut-off
drop
client c
client d
shard a 1
{"_id":1,"x":1,"y":25}
shard b 1
{"_id":1,"x":15,"y":25}
end aborted: failed b link

[{"_id":1,"x":1,"y":25},{"_id":1,"x":15,"y":25}]
[]
[]
order crashing
drop
client c
client d
shard a 1
{"_id":1,"x":1,"y":25}
shard b 1
{"_id":1,"x":15,"y":25}
end aborted: failed a crashes

[{"_id":1,"x":1,"y":25},{"_id":1,"x":15,"y":25}]
[]
[]
order memory
drop
client c
client d
shard a 1
{"_id":1,"x":1,"y":25}
shard b 1
{"_id":1,"x":15,"y":25}
end aborted: no memory

[{"_id":1,"x":1,"y":1}]
[{"update":{"_id":1,"x":1},"with":{"$set":{"y":25}}},{"update":{"_id":1,"x":1},"with":{"$set":{"y":25}}}]
[{"update":{"_id":1,"x":1,"y":1},"with":{"$set":{"y":1}}},{"update":{"_id":1},"with":{"$set":{"x":5}}}]
order c c d d switch
c 1
c 2
d 1
d 2
switch
client c
1 matched 1 changed 1
2 matched 1 changed 0
client d
1 not found
2 no key
shard a 0
shard b 1
{"_id":1,"x":1,"y":25}
end committed

[{"_id":1,"x":1,"y":1}]
[{"update":{"_id":1,"x":1},"with":{"$inc":{"x":14}}},{"update":{"_id":1,"x":15},"with":{"$unset":{"x":1}}}]
[{"count":{}}]
order c d memory c
c 1
d 1
drop
c 2
client c
1 matched 1 changed 1
2 matched 1 changed 1
client d
1 count 1
shard a 1
{"_id":1,"y":1}
shard b 0
end aborted: no memory

[{"_id":1,"x":1,"y":1},{"_id":1,"x":15,"y":1}]
[{"update":{"_id":1,"x":1},"with":{"$set":{"x":16}}},{"update":{"_id":1,"x":1},"with":{"$set":{"x":2}}}]
[]
order c c memory
c 1
c 2
drop
client c
1 duplicate id
2 matched 1 changed 1
client d
shard a 1
{"_id":1,"x":2,"y":1}
shard b 1
{"_id":1,"x":15,"y":1}
end aborted: no memory

[{"_id":1,"x":1,"y":1,"a\"\n":5}]
[{"update":{"_id":1,"x":1},"with":{"$push":{"a\"\n":5}}},{"update":{"_id":1,"x":1},"with":{"$set":{"x.é":5}}}]
[{"update":{"_id":1,"x":1},"with":{"$set":{"a.a.a.a.a.a.a.a.a.a.a.a.a.a.a.a.a.a.a.a.a.a.a.a.a.a.a.a.a.a.a.a.a":1}}}]
order c c d switch
c 1
c 2
d 1
switch
client c
1 refused: not array "a\"\n"
2 refused: through scalar "x.é"
client d
1 refused: too deep
shard a 1
{"_id":1,"a\"\n":5,"x":1,"y":1}
shard b 0
end committed

[{"_id":1,"x":1,"y":1,"s":"t"}]
[{"update":{"_id":1,"x":1},"with":{"$mul":{"s":5}}}]
[]
order c switch
c 1
switch
client c
1 refused: not number "s"
client d
shard a 1
{"_id":1,"s":"t","x":1,"y":1}
shard b 0
end committed

[]
[{"count":{}}]
[]
order / c / switch / c c switch / c switch switch / c switch memory / d switch c / d c switch / c clash-a1 / c asked-c1
none

[{"_id":1,"x":1,"y":25},{"_id":1,"x":15,"y":25},{"_id":2,"x":1,"y":25},{"_id":2,"x":15,"y":25}]
[]
[]
order switch / clash-b2 / clash-a1
none

[{"_id":1,"x":1,"y":1}]
[]
[]
order clash-a1
none

[]
[{"abort":true},{"count":{}}]
[]
order c c asked-c1 / c switch c / c asked-c2 c / c asked-d1 c / asked-c1 c c / c! asked-c1 c / c memory c
none"#;

/// A shop's orders, which two clients write to while the collection is resharded by region and customer.
pub(crate) const SHOP: &str =
    r#"{"version":1,"shards":["east","west"],"oldKey":["customer"],"newKey":["region","customer"],
    "oldChunks":[{"min":"MinKey","max":["m"],"shard":"east"},{"min":["m"],"max":"MaxKey","shard":"west"}],
    "newChunks":[{"min":"MinKey","max":["eu"],"shard":"east"},{"min":["eu"],"max":["us"],"shard":"west"},
        {"min":["us"],"max":"MaxKey","shard":"east"}],
    "documents":[
        {"_id":1,"customer":"ann","region":"eu","lines":[{"sku":"tea","qty":{"$numberInt":"2"}}],"total":900},
        {"_id":2,"customer":"bob","region":"us","lines":[{"sku":"cup","qty":1}],"total":400},
        {"_id":3,"customer":"mia","region":"eu","lines":[{"sku":"jug","qty":1}],"total":700},
        {"_id":4,"customer":"zoe","region":"apac","lines":[{"sku":"tea","qty":3}],"total":{"$numberLong":"1200"}},
        {"_id":5,"customer":"leo","placed":{"$date":{"$numberLong":"1700000000000"}},"lines":[],"total":100},
        {"_id":6,"customer":"pat","region":"us","lines":[],"total":300}],
    "clients":[{"name":"shop","commands":[
        {"insert":{"_id":7,"customer":"ann","region":"us","lines":[],"total":250}},
        {"update":{"_id":1,"customer":"ann"},"with":{"$set":{"status":"paid"},"$inc":{"total":50}}},
        {"update":{"_id":4,"customer":"zoe"},"with":{"$push":{"lines":{"sku":"pot","qty":1}}}},
        {"find":{"region":"eu"}},
        {"update":{"_id":5,"customer":"leo"},"with":{"$inc":{"total":1}}},
        {"count":{}}]},
    {"name":"admin","commands":[
        {"delete":{"_id":6,"customer":"pat"}},
        {"update":{"_id":3,"customer":"mia"},"with":{"$set":{"customer":"amy"}}},
        {"insert":{"_id":2,"customer":"bob"}},
        {"update":{"_id":5,"customer":"leo"},"with":{"$set":{"region":"us"}}},
        {"update":{"_id":5,"region":"us","customer":"leo"},"with":{"$inc":{"total":-20}}},
        {"delete":{"_id":2,"region":"us","customer":"bob"}}]}]}"#;

/// The page where the clients take turns and the switch comes after the fourth command of each.
pub(crate) const SHOP_PAGE: &str = r#"steps
order
shop 1
admin 1
shop 2
admin 2
shop 3
admin 3
shop 4
admin 4
switch
shop 5
admin 5
shop 6
admin 6
client shop
1 inserted
2 matched 1 changed 1
3 matched 1 changed 1
4 found 2
  {"_id":1,"customer":"ann","lines":[{"qty":2,"sku":"tea"}],"region":"eu","status":"paid","total":950}
  {"_id":3,"customer":"amy","lines":[{"qty":1,"sku":"jug"}],"region":"eu","total":700}
5 no key
6 count 6
client admin
1 deleted
2 matched 1 changed 1
3 duplicate id
4 matched 1 changed 1
5 matched 1 changed 1
6 deleted
shard east 3
{"_id":4,"customer":"zoe","lines":[{"qty":3,"sku":"tea"},{"qty":1,"sku":"pot"}],"region":"apac","total":1200}
{"_id":5,"customer":"leo","lines":[],"placed":{"$date":{"$numberLong":"1700000000000"}},"region":"us","total":80}
{"_id":7,"customer":"ann","lines":[],"region":"us","total":250}
shard west 2
{"_id":1,"customer":"ann","lines":[{"qty":2,"sku":"tea"}],"region":"eu","status":"paid","total":950}
{"_id":3,"customer":"amy","lines":[{"qty":1,"sku":"jug"}],"region":"eu","total":700}
end committed
"#;
