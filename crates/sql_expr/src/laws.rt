//! Laws of values and faults, each the contract of a function that does nothing.
ghost use Rattle.std.specs.Prelude.{◌≡◌, ◌≢◌, ◌↔◌, true, false, Some, Ok, Err, IfOk, List};
ghost use Rattle.std.specs.List.{All};
ghost use Rattle.geo_base.specs.declared.cell.Cell.{Cell};
ghost use Rattle.geo_base.specs.declared.cell.Cell.TheVariants as cell;
ghost use Rattle.sql_expr.specs.declared.expr.Expr.{Expr};
ghost use Rattle.sql_expr.specs.declared.expr.Expr.TheVariants as expr;
ghost use Rattle.sql_expr.specs.declared.expr.Op.{Op};
ghost use Rattle.sql_expr.specs.declared.expr.Test.{Test};
ghost use Rattle.sql_expr.specs.declared.fault.EvalFault.{EvalFault};
ghost use Rattle.sql_expr.specs.declared.fault.EvalFault.TheVariants as fault;
ghost use Rattle.sql_expr.specs.declared.value_type.ValueType.{ValueType};
ghost use Rattle.sql_expr.specs.Conditions.{kept};
ghost use Rattle.sql_expr.specs.Faults.{IsAtFault};
ghost use Rattle.sql_expr.specs.Rows.{HasTypes};
ghost use Rattle.sql_expr.specs.Types.{type_of, has_type, is_condition};
ghost use Rattle.sql_expr.specs.Values.{value_of};

/// The value of an expression that has a type is of that type, over a row whose cells are of their columns'
/// types: NULL, or a cell of its kind.
pub fn values_are_of_their_types()
    ensures typed { (columns : List ValueType) (row : List Cell) (e : Expr) (t : ValueType) →
        HasTypes columns row → type_of columns e ≡ Some t → IfOk (value_of row e) (λ c. has_type t c ≡ true) }
{}

/// NOT twice leaves a condition as it is, also NULL and a fault.
pub fn not_twice_changes_nothing()
    ensures same { (columns : List ValueType) (row : List Cell) (a : Expr) (t : ValueType) →
        HasTypes columns row → type_of columns a ≡ Some t → is_condition t ≡ true →
        value_of row (expr.Not (expr.Not a)) ≡ value_of row a }
{}

/// NOT goes through AND and OR and turns one into the other, also where a side is NULL, at fault or spared.
pub fn not_turns_and_into_or()
    ensures of_and { (row : List Cell) (a b : Expr) →
        value_of row (expr.Not (expr.And a b)) ≡ value_of row (expr.Or (expr.Not a) (expr.Not b)) }
    ensures of_or { (row : List Cell) (a b : Expr) →
        value_of row (expr.Not (expr.Or a b)) ≡ value_of row (expr.And (expr.Not a) (expr.Not b)) }
{}

/// Of two operands the left one is evaluated first, so its fault is the expression's.
pub fn left_faults_win()
    ensures of_arithmetic { (row : List Cell) (o : Op) (a b : Expr) (f : EvalFault) →
        value_of row a ≡ Err f → value_of row (expr.Arith o a b) ≡ Err f }
    ensures of_comparison { (row : List Cell) (t : Test) (a b : Expr) (f : EvalFault) →
        value_of row a ≡ Err f → value_of row (expr.Cmp t a b) ≡ Err f }
    ensures of_and { (row : List Cell) (a b : Expr) (f : EvalFault) →
        value_of row a ≡ Err f → value_of row (expr.And a b) ≡ Err f }
    ensures of_or { (row : List Cell) (a b : Expr) (f : EvalFault) →
        value_of row a ≡ Err f → value_of row (expr.Or a b) ≡ Err f }
{}

/// An expression has a fault exactly where the first step that has no result, in the order of evaluation, has that fault.
pub fn faults_are_of_first_steps()
    ensures exact { (row : List Cell) (e : Expr) (f : EvalFault) → (value_of row e ≡ Err f) ↔ IsAtFault row f e }
{}

/// No expression has want of memory for its fault.
pub fn want_of_memory_is_no_fault()
    ensures never { (row : List Cell) (e : Expr) → value_of row e ≢ Err fault.NoMemory }
{}

/// A left side that settles AND or OR spares the right one, whose fault doesn't count.
pub fn settled_sides_spare_the_right()
    ensures of_and { (row : List Cell) (a b : Expr) →
        value_of row a ≡ Ok (cell.Truth false) → value_of row (expr.And a b) ≡ Ok (cell.Truth false) }
    ensures of_or { (row : List Cell) (a b : Expr) →
        value_of row a ≡ Ok (cell.Truth true) → value_of row (expr.Or a b) ≡ Ok (cell.Truth true) }
{}

/// A row is kept exactly where every test is true on it.
pub fn kept_rows_pass_every_test()
    ensures exact { (row : List Cell) (tests : List Expr) →
        (kept row tests ≡ Ok true) ↔ All (λ test. value_of row test ≡ Ok (cell.Truth true)) tests }
{}
