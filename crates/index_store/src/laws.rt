//! What an index is worth, each the contract of a function that does nothing.
ghost use Rattle.std.specs.Prelude.{◌≡◌, ℕ, List};
ghost use Rattle.geo_base.specs.declared.cell.Cell.{Cell};
ghost use Rattle.geo_schema.specs.declared.range.KeyRange.{KeyRange};
ghost use Rattle.geo_schema.specs.Schemas.{Tables};
ghost use Rattle.index_store.specs.declared.pair.IndexPair.{IndexPair};
ghost use Rattle.index_store.specs.Indexes.{IsIndexOf};
ghost use Rattle.index_store.specs.Kept.{KeptImages};
ghost use Rattle.index_store.specs.Ranges.{AreKeysIn};
ghost use Rattle.index_store.specs.Rows.{FindsRows};

/// The keys in a range of the index of what is kept are those of the rows that were in the range after some epoch that
/// is kept.
pub fn ranges_find_every_row()
    ensures { (tables : Tables) (kept : KeptImages) (pairs : List IndexPair) (table index : ℕ) (range : KeyRange) (keys : List (List Cell)) →
        IsIndexOf tables kept pairs → AreKeysIn table index range pairs keys → FindsRows tables kept table index range keys }
{}

/// The keys in a range are one list.
pub fn keys_in_a_range_are_one_list()
    ensures { (table index : ℕ) (range : KeyRange) (pairs : List IndexPair) (a b : List (List Cell)) → AreKeysIn table index range pairs a → AreKeysIn table index range pairs b → a ≡ b }
{}
