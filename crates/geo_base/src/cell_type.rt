/// The type of a cell that is not NULL.
#[derive(Clone, Copy, Debug, PartialEq, Eq)]
pub enum CellType {
    Int,
    Text,
    Truth,
}
