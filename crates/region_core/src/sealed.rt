use geo_base::Epoch;
use set_codec::ByteList;

/// A batch that was sealed, as it goes to the other regions.
#[derive(Debug, Drop)]
pub struct Sealed {
    /// Its epoch.
    pub epoch: Epoch,
    /// How many candidates it has.
    pub count: u32,
    /// Its GGB2 spelling.
    pub bytes: ByteList,
}
