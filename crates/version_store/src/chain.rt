//! The versions of one row.
ghost use Rattle.std.specs.Prelude.{◌≡◌, ◌≤◌, [], ◌++◌, length, find, take, nat_eq, nat_le, IfOk, OnOk};
ghost use Rattle.std.specs.Option.{option_copied};
ghost use Rattle.version_store.specs.Chains.{image_at, change_at, newest_epoch, kept_at};
ghost use Rattle.version_store.specs.inner.Writing.{but_of, renewed};

use crate::version::RowVersion;
use geo_base::{Duplicate, Epoch, NoMemory, RowImage, copy_items};
use std::alloc::Global;
use std::marker::Model;

/// The versions of a row, the newest first.
#[derive(Drop)]
pub(crate) struct Chain {
    versions: Vec<RowVersion>,
}

impl Model for Chain {
    ghost use Rattle.std.specs.Prelude.{List};
    ghost use Rattle.version_store.specs.Chains.{Version};

    ghost Value = { List Version };

    ghost view = { λ c. c.versions.items };
}

impl Chain {
    /// The image of the row after the epoch. Looks at each version that is newer than the epoch, and at one more.
    pub(crate) fn image_at(&self, epoch: Epoch) -> Option<&RowImage>
        ensures { option_copied result ≡ image_at self.now epoch }
    {
        match newest_upto(self.versions.as_slice(), epoch) {
            Some(version) => version.image(),
            None => None,
        }
    }

    /// The last change up to the epoch, 0 where there is none. Looks at as many versions.
    pub(crate) fn change_at(&self, epoch: Epoch) -> Epoch
        ensures { result ≡ change_at self.now epoch }
    {
        match newest_upto(self.versions.as_slice(), epoch) {
            Some(version) => version.epoch(),
            None => 0,
        }
    }

    /// The epoch of the newest version, 0 where there is none.
    pub(crate) fn newest_epoch(&self) -> Epoch
        ensures { result ≡ newest_epoch self.now }
    {
        match self.versions.first() {
            Some(version) => version.epoch(),
            None => 0,
        }
    }

    /// This version alone.
    pub(crate) fn of_one(alloc: Global, version: RowVersion) -> Result<Chain, NoMemory>
        ensures { IfOk result (λ chain. chain ≡ renewed version []) }
    {
        let mut versions = Vec::new(alloc);
        versions.push(version)?;
        Ok(Chain { versions })
    }

    /// How many versions there are.
    pub(crate) fn len(&self) -> usize
        ensures { result ≡ length self.now }
    {
        self.versions.len()
    }

    /// Whether there are no versions.
    pub(crate) fn is_empty(&self) -> bool
        ensures { result ≡ nat_eq (length self.now) 0 }
    {
        self.versions.is_empty()
    }

    /// The versions with this one before them, which takes the place of one of its own epoch. Takes a step for each.
    pub(crate) fn renewed(&self, alloc: Global, version: RowVersion) -> Result<Chain, NoMemory>
        ensures { IfOk result (λ chain. chain ≡ renewed version self.now) }
    {
        let epoch = version.epoch();
        let mut versions = Vec::with_capacity(alloc, self.versions.len() + 1)?;
        versions.push(version)?;
        copy_versions(
            alloc,
            &mut versions,
            but_of(epoch, self.versions.as_slice()),
        )?;
        Ok(Chain { versions })
    }

    /// How many versions the horizon leaves: all that are newer, and the newest of the others unless it is a removal.
    pub(crate) fn count_left(&self, horizon: Epoch) -> usize
        ensures { result ≡ length (kept_at horizon self.now) }
    {
        count_left(self.versions.as_slice(), horizon)
    }

    /// So many of the newest versions.
    pub(crate) fn front(&self, alloc: Global, count: usize) -> Result<Chain, NoMemory>
        requires { count ≤ length self.now }
        ensures { IfOk result (λ chain. chain ≡ take count self.now) }
    {
        let versions = copy_items(alloc, &self.versions.as_slice()[..count])?;
        Ok(Chain { versions })
    }
}

impl Duplicate for Chain {
    fn copy(&self, alloc: Global) -> Result<Chain, NoMemory> {
        let versions = copy_items(alloc, self.versions.as_slice())?;
        Ok(Chain { versions })
    }
}

/// The newest version that was made up to the epoch.
fn newest_upto(versions: &[RowVersion], epoch: Epoch) -> Option<&RowVersion>
    ensures { option_copied result ≡ find (λ version. nat_le version.epoch epoch) versions.now }
{
    versions.iter().find(|version| version.epoch() <= epoch)
}

/// The versions but a newest one of the epoch.
fn but_of(epoch: Epoch, versions: &[RowVersion]) -> &[RowVersion]
    ensures { result.now ≡ but_of epoch versions.now }
{
    match versions.first() {
        Some(newest) if newest.epoch() == epoch => &versions[1..],
        _ => versions,
    }
}

/// Adds copies of the versions, which share their images.
fn copy_versions(
    alloc: Global,
    copies: &mut Vec<RowVersion>,
    versions: &[RowVersion],
) -> Result<(), NoMemory>
    ensures { OnOk result (copies.new.items ≡ copies.old.items ++ versions.now) }
{
    for version in versions {
        copies.push(version.copy(alloc)?)?;
    }
    Ok(())
}

/// How many of the versions the horizon leaves.
fn count_left(versions: &[RowVersion], horizon: Epoch) -> usize
    ensures { result ≡ length (kept_at horizon versions.now) }
{
    let mut newer = 0;
    for version in versions {
        if version.epoch() <= horizon {
            return newer + usize::from(version.has_image());
        }
        newer += 1;
    }
    newer
}
