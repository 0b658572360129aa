use geo_base::RowImage;

/// Copies of the rows that a query looks at together: one of the left table, and one of the right table where
/// there are two.
#[derive(Debug, Drop)]
pub struct Pair {
    /// The row of the left table.
    pub left: RowImage,
    /// The row of the right table, where there is one.
    pub right: Option<RowImage>,
}
