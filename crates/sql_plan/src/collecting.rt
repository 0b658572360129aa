//! Lists of what is found.
ghost use Rattle.std.specs.Prelude.{◌≡◌, ◌++◌, OnOk, option_to_list};

use geo_base::NoMemory;

/// Puts the item behind those that were found before, where there is one.
pub(crate) fn push_some<T: Copy>(found: &mut Vec<T>, item: Option<T>) -> Result<(), NoMemory>
    ensures { OnOk result (found.new.items ≡ found.old.items ++ option_to_list item) }
{
    if let Some(item) = item {
        found.push(item)?;
    }
    Ok(())
}
