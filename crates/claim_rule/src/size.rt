/// For how many rows and workers a table is made. Its rule knows this from the start.
#[derive(Drop)]
pub struct TableSize {
    pub(crate) rows: u32,
    pub(crate) workers: u8,
}
