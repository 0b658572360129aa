//! Laws of rows, each the contract of a function that does nothing.
ghost use Rattle.std.specs.Prelude.{◌≡◌, ◌≤◌, ℕ, List, [], ◌∷◌, filter, length};
ghost use Rattle.geo_base.specs.Order.{row_eq};
ghost use Rattle.geo_base.specs.declared.cell.Cell.{Cell};
ghost use Rattle.geo_base.specs.declared.row_id.RowId.{RowId};
ghost use Rattle.geo_schema.specs.Schemas.{Tables};
ghost use Rattle.row_source.specs.Bounds.{reached, steps_of};
ghost use Rattle.row_source.specs.Handing.{finds_by};
ghost use Rattle.row_source.specs.Sources.{images, listed};
ghost use Rattle.row_source.specs.declared.plan.Access.{Access};
ghost use Rattle.row_source.specs.declared.plan.Access.TheVariants as access;
ghost use Rattle.row_source.specs.declared.plan.JoinKind.TheVariants as join;
ghost use Rattle.row_source.specs.declared.plan.KeyPart.{KeyPart};
ghost use Rattle.row_source.specs.declared.plan.Plan.{Plan};
ghost use Rattle.write_set.specs.Overlay.{Table, image_in};
ghost use Rattle.write_set.specs.Sets.{Rises};

/// A name stands for one row at most: of rows in rising order those with the name are the one that a look-up finds,
/// and none where it finds none. So a point reaches at most one row, and so does a join by key beside a left row.
pub fn names_are_of_one_row()
    ensures { (rows : Table) (row : RowId) → Rises rows →
        images (filter (λ entry. row_eq row entry.0) rows) ≡ listed (image_in rows row) }
{}

/// A point is handed at most one row, whatever the rows are, so a statement on one table whose plan is a point takes at
/// most one step; and beside a left row a join by key finds at most one.
pub fn points_have_one_row()
    ensures rows { (tables : Tables) (number : ℕ) (key : List Cell) (rows : Table) → Rises rows →
        reached tables number (access.Point key) rows ≤ 1 }
    ensures steps { (tables : Tables) (number : ℕ) (plan : Plan) (key : List Cell) (rows : Table) → Rises rows →
        plan.first ≡ access.Point key → steps_of tables (number ∷ []) plan rows ≤ 1 }
    ensures joined { (tables : Tables) (number : ℕ) (way : Access) (parts : List KeyPart) (left : List Cell) (rows : Table) → Rises rows →
        length (filter (finds_by tables number way (join.ByKey parts) left) rows) ≤ 1 }
{}
