//! Room, taken before anything changes.
ghost use Rattle.std.specs.Prelude.{◌≡◌, ◌<◌, vec_len, OnOk};
ghost use Rattle.std.specs.Vec.{vec_capacity};

use geo_base::NoMemory;

/// Takes the memory for one more item.
pub(crate) fn make_room<T>(items: &mut Vec<T>) -> Result<(), NoMemory>
    ensures same { items.new.items ≡ items.old.items }
    ensures room { OnOk result (vec_len items.new < vec_capacity items.new) }
{
    items.reserve(1)?;
    Ok(())
}
