//! Documents that shards show.

ghost use Rattle.std.specs.Prelude.{◌≡◌, refl, ◌++◌, map, IfOk, OnOk};
ghost use Rattle.std.specs.Cmp.{eq_by_cmp_equiv, partial_equiv_from_equiv, partial_order_from_total};
ghost use Rattle.std.specs.List.{flat_map};
ghost use Rattle.std.specs.Ordering.{as_partial_cmp, eq_by_cmp};
ghost use Rattle.resh_router.specs.Merging.{documents_of, shown_by, shown_cmp, shown_from, shown_total, AreFirst};

use resh_command::Reply;
use resh_value::{Document, Documents, NoMemory, Sequence, ShardId, Value, compare};
use std::alloc::Global;
use std::cmp::Ordering;

/// So many documents are shown of those that match.
const MOST_SHOWN: usize = 10;

/// A document, and the shard that shows it.
#[derive(Debug, Drop)]
pub(crate) struct Shown {
    pub(crate) shard: ShardId,
    pub(crate) document: Document,
}

impl PartialEq for Shown {
    ghost eq = { eq_by_cmp shown_cmp };

    ghost laws = { partial_equiv_from_equiv (eq_by_cmp_equiv shown_total) };

    fn eq(&self, other: &Shown) -> bool {
        self.cmp(other).is_eq()
    }
}

impl Eq for Shown {
    ghost laws = { eq_by_cmp_equiv shown_total };
}

impl PartialOrd for Shown {
    ghost partial_cmp = { as_partial_cmp shown_cmp };

    ghost laws = { partial_order_from_total shown_total };

    fn partial_cmp(&self, other: &Shown) -> Option<Ordering> {
        Some(self.cmp(other))
    }
}

/// By `_id`, then by shard.
impl Ord for Shown {
    ghost cmp = { shown_cmp };

    ghost total = { shown_total };

    ghost matches_partial_cmp = { λ x y. refl };

    ghost matches_eq = { λ x y. refl };

    fn cmp(&self, other: &Shown) -> Ordering {
        let null = Value::Null;
        compare(self.document.id_or(&null), other.document.id_or(&null)).then(
            self.shard.0.cmp(&other.shard.0),
        )
    }
}

/// The first ten documents of all parts by `_id` and shard, or all where there are fewer.
pub(crate) fn first_of(alloc: Global, parts: Vec<(ShardId, Reply)>) -> Result<Documents, NoMemory>
    ensures { IfOk result (AreFirst 10 (flat_map shown_by parts.items)) }
{
    let mut shown = shown_in(alloc, parts)?;
    shown.sort()?;
    shown.truncate(MOST_SHOWN);
    documents_in(alloc, shown)
}

fn shown_in(alloc: Global, parts: Vec<(ShardId, Reply)>) -> Result<Vec<Shown>, NoMemory>
    ensures { IfOk result (λ shown. shown.items ≡ flat_map shown_by parts.items) }
{
    let mut shown = Vec::new(alloc);
    for (shard, reply) in parts {
        show(&mut shown, shard, reply)?;
    }
    Ok(shown)
}

/// Adds what a shard's reply shows.
fn show(shown: &mut Vec<Shown>, shard: ShardId, reply: Reply) -> Result<(), NoMemory>
    ensures { OnOk result (shown.new.items ≡ shown.old.items ++ shown_by (shard, reply)) }
{
    match reply {
        Reply::Found { first, .. } => show_each(shown, shard, first),
        _ => Ok(()),
    }
}

fn show_each(shown: &mut Vec<Shown>, shard: ShardId, documents: Documents) -> Result<(), NoMemory>
    ensures { OnOk result (shown.new.items ≡ shown.old.items ++ map (shown_from shard) documents) }
{
    for document in documents.into_vec() {
        shown.push(Shown { shard, document })?;
    }
    Ok(())
}

fn documents_in(alloc: Global, shown: Vec<Shown>) -> Result<Documents, NoMemory>
    ensures { IfOk result (λ documents. documents ≡ documents_of shown.items) }
{
    let mut documents = Vec::with_capacity(alloc, shown.len())?;
    for one in shown {
        let Shown { document, .. } = one;
        documents.push(document)?;
    }
    Ok(Sequence::from_vec(documents))
}
