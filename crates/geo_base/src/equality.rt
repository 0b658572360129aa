ghost use Rattle.std.specs.Prelude.{◌≡◌, ◌↔◌, ℕ, true, List};
ghost use Rattle.geo_base.specs.declared.cell.Cell.{Cell};
ghost use Rattle.geo_base.specs.declared.numbers.CandId.{CandId};
ghost use Rattle.geo_base.specs.declared.outcome.Outcome.{Outcome};
ghost use Rattle.geo_base.specs.declared.row_id.RowId.{RowId};
ghost use Rattle.geo_base.specs.Equality.{candidate_eq, outcome_eq};
ghost use Rattle.geo_base.specs.Order.{text_eq, cell_eq, cells_eq, row_eq};

/// The law of `==`: two values are equal exactly where they are one value.
pub fn equal_values_are_one()
    ensures texts { (a b : List ℕ) → (text_eq a b ≡ true) ↔ (a ≡ b) }
    ensures cells { (a b : Cell) → (cell_eq a b ≡ true) ↔ (a ≡ b) }
    ensures lists_of_cells { (a b : List Cell) → (cells_eq a b ≡ true) ↔ (a ≡ b) }
    ensures rows { (a b : RowId) → (row_eq a b ≡ true) ↔ (a ≡ b) }
    ensures candidates { (a b : CandId) → (candidate_eq a b ≡ true) ↔ (a ≡ b) }
    ensures outcomes { (a b : Outcome) → (outcome_eq a b ≡ true) ↔ (a ≡ b) }
{}
