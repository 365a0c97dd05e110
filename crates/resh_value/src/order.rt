//! The order of values.

ghost use Rattle.std.specs.Prelude.{◌≡◌, ◌↔◌, refl};
ghost use Rattle.std.specs.Cmp.{eq_by_cmp_equiv, partial_equiv_from_equiv, partial_order_from_total};
ghost use Rattle.std.specs.Cmp.Lexicographic.{slice_cmp};
ghost use Rattle.std.specs.declared.cmp.Ordering.TheVariants.{Equal};
ghost use Rattle.std.specs.Ordering.{as_partial_cmp, eq_by_cmp};
ghost use Rattle.resh_value.specs.Order.{compare_of, compare_documents, compare_fields, content_of, kind};
ghost use Rattle.resh_value.specs.OrderLaws.{compare_total, documents_total};

use crate::value::{Document, Value};
use crate::words::Words;
use std::cmp::Ordering;

/// Compares two values: first by kind (null, number, text, document, array, ObjectId, boolean, date), then by content.
/// `Equal` comes exactly where the two are the same.
#[tactic(auto, using(crate::specs::OrderLaws::compare_ties))]
pub fn compare(a: &Value, b: &Value) -> Ordering
    ensures order { result ≡ compare_of a.now b.now }
    ensures ties { (result ≡ Equal) ↔ (a.now ≡ b.now) }
{
    compare_values(a, b)
}

// By kind, and then by what they hold.
#[cycle(order)]
#[tactic(auto, using(crate::specs::derived::OrderEquations::by_kind_then_content))]
fn compare_values(a: &Value, b: &Value) -> Ordering
    ensures { result ≡ compare_of a.now b.now }
{
    match kind_of(a).cmp(&kind_of(b)) {
        Ordering::Less => Ordering::Less,
        Ordering::Equal => compare_contents(a, b),
        Ordering::Greater => Ordering::Greater,
    }
}

// Two values of one kind, by what they hold.
#[cycle(order)]
fn compare_contents(a: &Value, b: &Value) -> Ordering
    ensures { result ≡ content_of a.now b.now }
{
    match (a, b) {
        (Value::Int(m), Value::Int(n)) => m.cmp(n),
        (Value::Text(s), Value::Text(t)) => s.as_bytes().cmp(t.as_bytes()),
        (Value::Doc(fs), Value::Doc(gs)) => compare_documents(fs.pairs(), gs.pairs()),
        (Value::List(xs), Value::List(ys)) => compare_arrays(xs.as_slice(), ys.as_slice()),
        (Value::Oid(s), Value::Oid(t)) => s.cmp(t),
        (Value::Bool(m), Value::Bool(n)) => m.cmp(n),
        (Value::Date(m), Value::Date(n)) => m.cmp(n),
        _ => Ordering::Equal,
    }
}

// Pair by pair; the one that ends first is less.
#[cycle(order)]
fn compare_documents(fs: &[(Words, Value)], gs: &[(Words, Value)]) -> Ordering
    ensures { result ≡ compare_documents fs.now gs.now }
{
    let both = fs.len().min(gs.len());
    for i in 0..both {
        let found = compare_pair(&fs[i], &gs[i]);
        if found.is_ne() {
            return found;
        }
    }
    fs.len().cmp(&gs.len())
}

// By kind, then by name, then by value.
#[cycle(order)]
fn compare_pair(f: &(Words, Value), g: &(Words, Value)) -> Ordering
    ensures { result ≡ compare_fields f.now g.now }
{
    let (name, value) = f;
    let (other_name, other) = g;
    let kinds = kind_of(value).cmp(&kind_of(other));
    if kinds.is_ne() {
        return kinds;
    }
    let names = name.as_bytes().cmp(other_name.as_bytes());
    if names.is_ne() {
        return names;
    }
    compare_values(value, other)
}

// Item by item; the one that ends first is less.
#[cycle(order)]
fn compare_arrays(xs: &[Value], ys: &[Value]) -> Ordering
    ensures { result ≡ slice_cmp compare_of xs.now ys.now }
{
    let both = xs.len().min(ys.len());
    for i in 0..both {
        let found = compare_values(&xs[i], &ys[i]);
        if found.is_ne() {
            return found;
        }
    }
    xs.len().cmp(&ys.len())
}

// The place of a value's kind among the kinds.
pub(crate) fn kind_of(value: &Value) -> u8
    ensures { result ≡ kind value.now }
{
    match value {
        Value::Null => 0,
        Value::Int(_) => 1,
        Value::Text(_) => 2,
        Value::Doc(_) => 3,
        Value::List(_) => 4,
        Value::Oid(_) => 5,
        Value::Bool(_) => 6,
        Value::Date(_) => 7,
    }
}

impl PartialEq for Value {
    ghost eq = { eq_by_cmp compare_of };

    ghost laws = { partial_equiv_from_equiv (eq_by_cmp_equiv compare_total) };

    fn eq(&self, other: &Value) -> bool {
        compare(self, other).is_eq()
    }
}

impl Eq for Value {
    ghost laws = { eq_by_cmp_equiv compare_total };
}

impl PartialOrd for Value {
    ghost partial_cmp = { as_partial_cmp compare_of };

    ghost laws = { partial_order_from_total compare_total };

    fn partial_cmp(&self, other: &Value) -> Option<Ordering> {
        Some(self.cmp(other))
    }
}

impl Ord for Value {
    ghost cmp = { compare_of };

    ghost total = { compare_total };

    ghost matches_partial_cmp = { λ x y. refl };

    ghost matches_eq = { λ x y. refl };

    fn cmp(&self, other: &Value) -> Ordering {
        compare(self, other)
    }
}

impl PartialEq for Document {
    ghost eq = { eq_by_cmp compare_documents };

    ghost laws = { partial_equiv_from_equiv (eq_by_cmp_equiv documents_total) };

    fn eq(&self, other: &Document) -> bool {
        compare_documents(self.pairs(), other.pairs()).is_eq()
    }
}

impl Eq for Document {
    ghost laws = { eq_by_cmp_equiv documents_total };
}

impl PartialOrd for Document {
    ghost partial_cmp = { as_partial_cmp compare_documents };

    ghost laws = { partial_order_from_total documents_total };

    fn partial_cmp(&self, other: &Document) -> Option<Ordering> {
        Some(self.cmp(other))
    }
}

impl Ord for Document {
    ghost cmp = { compare_documents };

    ghost total = { documents_total };

    ghost matches_partial_cmp = { λ x y. refl };

    ghost matches_eq = { λ x y. refl };

    fn cmp(&self, other: &Document) -> Ordering {
        compare_documents(self.pairs(), other.pairs())
    }
}
