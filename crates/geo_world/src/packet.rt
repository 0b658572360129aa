use geo_base::RegionNo;
use write_set::Batch;

/// A batch on its way to a region.
#[derive(Drop)]
pub struct Packet {
    pub to: RegionNo,
    pub batch: Batch,
}
