//! What keepers of any kind answer, as texts.
ghost use Rattle.std.specs.Prelude.{◌≡◌, ◌<◌};

use geo_io::{IoFault, Keepers};
use std::alloc::Global;

/// The entries of a region one behind the other, each with a bar behind it.
pub fn entries<K: Keepers>(alloc: Global, keepers: &mut K, region: u8) -> Result<Vec<u8>, IoFault>
    requires { region < K.width keepers.old }
    ensures { K.width keepers.new ≡ K.width keepers.old }
{
    let count = keepers.len(region)?;
    let mut text = Vec::new(alloc);
    for entry in 0..count {
        let bytes = keepers.read(alloc, region, entry)?;
        text.extend_from_slice(&bytes)?;
        text.push(b'|')?;
    }
    Ok(text)
}
