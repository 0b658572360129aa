//! Laws of the texts, each the contract of a function that does nothing.
ghost use Rattle.std.specs.Prelude.{◌≡◌, ◌↔◌, ◌≤◌, ℕ, List, Some, length};
ghost use Rattle.geo_base.specs.declared.limits.TheConstants.{MAX_COLUMNS};
ghost use Rattle.geo_schema.specs.declared.index.IndexDef.{IndexDef};
ghost use Rattle.geo_schema.specs.declared.table.TableDef.{TableDef};
ghost use Rattle.schema_text.specs.Spelling.{IsTableText, IsIndexText};
ghost use Rattle.schema_text.specs.inner.Texts.{declared_table, index_of};

/// The code's steps read a table of a text exactly where the text spells it, and it has at most 32 columns.
pub fn table_texts_are_read()
    ensures { (text : List ℕ) (table : TableDef) →
        (declared_table text ≡ Some table) ↔ (IsTableText text table × (length table.columns ≤ MAX_COLUMNS)) }
{}

/// The code's steps read an index of a name and a text exactly where it has this name and the text spells it.
pub fn index_texts_are_read()
    ensures { (tables : List TableDef) (name text : List ℕ) (at : ℕ) (index : IndexDef) →
        (index_of tables name text ≡ Some (at, index)) ↔ ((index.name ≡ name) × IsIndexText tables text at index) }
{}
