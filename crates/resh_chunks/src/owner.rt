//! The row of a chunk map that has a key.

ghost use Rattle.std.specs.Prelude.{◌≡◌, ◌<◌, ◌≤◌, List, Bool, length, map, take};
ghost use Rattle.std.specs.Ordering.{is_eq};
ghost use Rattle.resh_value.specs.Order.{compare_of};
ghost use Rattle.resh_value.specs.declared.value.Value.{Value};
ghost use Rattle.resh_chunks.specs.Bounds.{key_cmp, ends_above, IsFirstAbove};
ghost use Rattle.resh_chunks.specs.Pattern.{key_of, value_at};
ghost use Rattle.resh_value.specs.Lookup.{value_under};

use crate::bound::{Bound, ChunkRow, Key};
use crate::pattern::{KeyPattern, MOST_NAMES};
use resh_value::{Document, Value, Words, compare};
use std::cmp::Ordering;

/// What has a key, and compares it with a bound's values.
pub(crate) trait Keyed {
    ghost key: { Self → List Value };

    fn compare_values(&self, values: &Key) -> Ordering
        ensures { result ≡ key_cmp (key self.now) values.now };
}

impl Keyed for Key {
    ghost key = { λ k. k };

    fn compare_values(&self, values: &Key) -> Ordering {
        self.cmp(values)
    }
}

/// The values of a document under a pattern's names.
#[derive(Drop)]
pub(crate) struct DocumentKey<'a> {
    values: [&'a Value; MOST_NAMES],
    count: usize,
    ghost counted: { count ≤ 3 },
}

impl<'a> DocumentKey<'a> {
    /// Reads each field once; `null` stands where the document lacks one.
    pub(crate) fn read(
        pattern: &KeyPattern,
        document: &'a Document,
        null: &'a Value,
    ) -> DocumentKey<'a>
        requires { null.now ≡ Value.Null }
        ensures { map (λ v. v.now) (take result.count result.values) ≡ key_of pattern.now document.now }
    {
        let names = pattern.names().as_slice();
        DocumentKey {
            values: [
                value_at(names, 0, document, null),
                value_at(names, 1, document, null),
                value_at(names, 2, document, null),
            ],
            count: names.len(),
        }
    }
}

impl Keyed for DocumentKey<'_> {
    ghost key = { λ k. map (λ v. v.now) (take k.count k.values) };

    fn compare_values(&self, values: &Key) -> Ordering {
        compare_each(&self.values[..self.count], values.as_slice())
    }
}

fn value_at<'a>(names: &[Words], place: usize, document: &'a Document, null: &'a Value) -> &'a Value
    requires { null.now ≡ Value.Null }
    ensures { result.now ≡ value_at names.now document.now place }
{
    match names.get(place) {
        Some(name) => value_under(document, name, null),
        None => null,
    }
}

fn value_under<'a>(document: &'a Document, name: &Words, null: &'a Value) -> &'a Value
    requires { null.now ≡ Value.Null }
    ensures { result.now ≡ value_under document.now name.now }
{
    match document.get(name) {
        Some(value) => value,
        None => null,
    }
}

fn compare_each(own: &[&Value], values: &[Value]) -> Ordering
    ensures { result ≡ key_cmp (map (λ v. v.now) own.now) values.now }
{
    let mut own = own;
    let mut values = values;
    while let [value, later @ ..] = own {
        let [other, others @ ..] = values else {
            return Ordering::Greater;
        };
        match compare(value, other) {
            Ordering::Equal => {}
            decided => return decided,
        }
        own = later;
        values = others;
    }
    if values.is_empty() {
        Ordering::Equal
    } else {
        Ordering::Less
    }
}

/// Whether two documents have equal values under a name, null where one lacks it.
pub(crate) fn same_field(a: &Document, b: &Document, name: &Words) -> bool
    ensures { result ≡ is_eq (compare_of (value_under a.now name.now) (value_under b.now name.now)) }
{
    let null = Value::Null;
    compare(value_under(a, name, &null), value_under(b, name, &null)).is_eq()
}

/// The first row that ends above the key, or the number of rows, where ends rise.
pub(crate) fn row_of<K: Keyed>(rows: &[ChunkRow], key: &K) -> usize
    ensures { IsFirstAbove (K.key key.now) rows.now result }
{
    let mut low = 0;
    let mut high = rows.len();
    while low < high {
        let middle = low + (high - low) / 2;
        if ends_above(key, &rows[middle]) {
            high = middle;
        } else {
            low = middle + 1;
        }
    }
    low
}

fn ends_above<K: Keyed>(key: &K, row: &ChunkRow) -> bool
    ensures { result ≡ ends_above (K.key key.now) row.now }
{
    match &row.max {
        Bound::Min => false,
        Bound::At(values) => key.compare_values(values).is_lt(),
        Bound::Max => true,
    }
}
