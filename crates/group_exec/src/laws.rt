//! Laws of ORDER BY, each the contract of a function that does nothing.
ghost use Rattle.std.specs.Prelude.{◌≡◌, List, IsPermutation};
ghost use Rattle.std.specs.Cmp.{IsTotalOrder, IsStrictWeakOrder};
ghost use Rattle.std.specs.List.Sorted.{IsSorted, IsStable};
ghost use Rattle.std.specs.Ordering.{is_lt};
ghost use Rattle.group_exec.specs.Results.{LineOfRow, by_all, ordered};
ghost use Rattle.sql_bind.specs.declared.bound.Sort.{Sort};

/// The order of lines is total, where lines that no column tells apart are equal in it; so that one line comes
/// before another is the test that a sort asks for.
pub fn the_order_of_lines_is_total()
    ensures total { (sorts : List Sort) → IsTotalOrder (by_all sorts) }
    ensures weak { (sorts : List Sort) → IsStrictWeakOrder (λ (a b : LineOfRow). is_lt (by_all sorts a b)) }
{}

/// The lines in order are the lines, sorted, where those that are equal in the order stay as they were; and no other
/// list is sorted and leaves them so.
pub fn ordered_is_the_stable_sort()
    ensures permutation { (sorts : List Sort) (lines : List LineOfRow) → IsPermutation lines (ordered sorts lines) }
    ensures sorted { (sorts : List Sort) (lines : List LineOfRow) → IsSorted (by_all sorts) (ordered sorts lines) }
    ensures stable { (sorts : List Sort) (lines : List LineOfRow) → IsStable (by_all sorts) lines (ordered sorts lines) }
    ensures only { (sorts : List Sort) (lines found : List LineOfRow) →
        IsSorted (by_all sorts) found → IsStable (by_all sorts) lines found → found ≡ ordered sorts lines }
{}
