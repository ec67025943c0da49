// Taking all addresses away, and taking rows in.
ghost use Rattle.std.specs.Prelude.{◌≡◌, ◌==◌, ◌≤◌, ◌-◌, [], true, replicate, length, is_some, option_map, slice_get, IfSome};
ghost use Rattle.std.specs.List.{AllByRecursion, IsDistinct};
ghost use Rattle.dd_record.specs.Table.{IsDirtyLinked};
ghost use Rattle.dd_meta.specs.Entries.{rows_of, row_of};
ghost use Rattle.dd_meta.specs.Keeping.{IsMeta};
ghost use Rattle.dd_meta.specs.Matching.{IsBelow};
ghost use Rattle.dd_meta.specs.Walks.{dirty_of_rows};

use crate::MetaCache;
use crate::lanes::ALL;
use dd_lists::Lane;
use dd_record::ARow;

impl MetaCache {
    /// Takes all addresses away. It costs their number.
    pub fn clear(&mut self)
        ensures after { self.new ≡ record { acap = self.old.acap; slots = self.old.slots; entries = []; dirty = []; owed = replicate self.old.slots [] } }
        ensures keeps { IsMeta self.new }
    {
        while let Some(node) = self.last() {
            self.set_clean(node);
            self.drop_back();
        }
    }

    // The node at the back.
    fn last(&self) -> Option<u32>
        ensures last { result ≡ option_map (λ entry. entry.node) (slice_get self.now.entries (length self.now.entries - 1)) }
        ensures live { IfSome result (λ node. is_some (row_of node self.now) ≡ true) }
        ensures keeps { IsMeta self.now }
    {
        self.nodes.back(Lane::Recency, ALL)
    }

    /// Takes rows into an empty cache, the first of them in front. Of the dirty ones the last counts as the oldest.
    ///
    /// It costs their number.
    pub fn fill(&mut self, rows: &[ARow])
        requires empty { self.old.entries ≡ [] }
        requires room { length rows.now ≤ self.old.acap }
        requires addresses { IsDistinct (λ x y. x.address == y.address) rows.now }
        requires linked { AllByRecursion IsDirtyLinked rows.now }
        requires below { AllByRecursion (λ row. IsBelow self.old.slots row.link) rows.now }
        ensures rows { rows_of self.new ≡ rows.now }
        ensures dirty { self.new.dirty ≡ dirty_of_rows rows.now }
        ensures acap { self.new.acap ≡ self.old.acap }
        ensures slots { self.new.slots ≡ self.old.slots }
        ensures keeps { IsMeta self.new }
    {
        let _ = self.len();
        for at in (0..rows.len()).rev() {
            let row = rows[at];
            self.front(row.address, row.link, row.dirty, row.fp);
        }
    }
}
