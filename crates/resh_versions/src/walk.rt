//! Documents lent one after another.

ghost use Rattle.std.specs.Iterator.{YieldsFirstRef, item_count};

use crate::chain::Chain;
use resh_value::{Document, Value};
use std::collections::btree_map::Range;
use std::marker::Model;

/// Documents by `_id`, each lent in turn, which contracts see as the list of those that are left.
#[derive(Drop)]
pub struct Walk<'a> {
    pub(crate) chains: Range<'a, Value, Chain>,
    pub(crate) time: Option<u64>,
}

impl<'a> Model for Walk<'a> {
    ghost use Rattle.std.specs.Coded.{coded_list};
    ghost use Rattle.std.specs.Prelude.{List};
    ghost use Rattle.resh_versions.specs.Chains.{Document as Seen, document_code};
    ghost use Rattle.resh_versions.specs.Standing.{documents_of};

    ghost Value = { List Seen };

    ghost coded = { coded_list document_code };

    ghost view = { λ w. documents_of w.time w.chains };
}

impl<'a> Iterator for Walk<'a> {
    type Item = &'a Document;

    ghost next_gives = { YieldsFirstRef (λ s. s) };

    ghost remaining = { item_count (λ s. s) };

    fn next(&mut self) -> Option<&'a Document> {
        while let Some((_, chain)) = self.chains.next() {
            if let Some(document) = chain.read(self.time) {
                return Some(document);
            }
        }
        None
    }
}
