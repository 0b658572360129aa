//! The versions of a region's rows with the index that follows them.
ghost use Rattle.std.specs.Prelude.{◌≡◌, IfOk};
ghost use Rattle.snap_view.specs.Snapshots.{HoldsIndexes};

use geo_base::Epoch;
use geo_schema::Schema;
use index_kit::judged_of;
use index_store::IndexStore;
use snap_view::Snapshot;
use std::alloc::Global;
use std::marker::Model;
use std::test::Fail;
use version_store::Versions;

/// The versions of rows with their index. Contracts see the tables of the schema.
#[derive(Drop)]
pub struct Region<'a> {
    schema: &'a Schema,
    versions: Versions,
    index: IndexStore,
}

impl<'a> Model for Region<'a> {
    ghost use Rattle.geo_schema.specs.Schemas.{Tables};
    ghost use Rattle.index_store.specs.Store.{IsStoreOf};
    ghost use Rattle.snap_view.specs.Snapshots.{images_of};

    ghost Value = { Tables };

    ghost view = { λ r. r.schema.now };

    ghost invariant = { λ r. IsStoreOf r.schema.now (images_of r.versions) r.index };
}

impl<'a> Region<'a> {
    /// No rows, before the first epoch.
    pub fn new(alloc: Global, schema: &'a Schema) -> Region<'a>
        ensures { result ≡ schema.now }
    {
        Region {
            schema,
            versions: Versions::empty(alloc),
            index: IndexStore::empty(alloc),
        }
    }

    /// Applies the next epoch.
    pub fn apply(&mut self, alloc: Global, texts: &str) -> Result<(), Fail>
        ensures { self.new ≡ self.old }
    {
        let applied = self.versions.applied();
        let epoch = applied.checked_add(1).ok_or("too many epochs")?;
        let judged = judged_of(alloc, epoch, texts)?;
        let batches = [&judged.zero, &judged.one];
        self.versions.keeps_order();
        let mut versions = self.versions.fork()?;
        versions.apply_epoch(epoch, &batches, judged.outcomes.as_slice())?;
        versions.keeps_order();
        let mut index = self.index.fork()?;
        index.apply(self.schema, &versions, &batches, judged.outcomes.as_slice())?;
        self.versions = versions;
        self.index = index;
        Ok(())
    }

    /// Moves the horizon up to the epoch.
    pub fn trim(&mut self, horizon: Epoch) -> Result<(), Fail>
        ensures { self.new ≡ self.old }
    {
        if horizon < self.versions.horizon() || self.versions.applied() < horizon {
            return Err("no epoch to which the horizon can move".into());
        }
        let mut versions = self.versions.fork()?;
        versions.trim(horizon)?;
        versions.keeps_order();
        let mut index = self.index.fork()?;
        index.trim(&versions)?;
        self.versions = versions;
        self.index = index;
        Ok(())
    }

    /// The snapshot of the epoch.
    pub fn snapshot(&self, epoch: Epoch) -> Result<Snapshot, Fail>
        ensures { IfOk result (λ snapshot. HoldsIndexes self.now snapshot) }
    {
        if epoch < self.versions.horizon() || self.versions.applied() < epoch {
            return Err("an epoch that isn't kept".into());
        }
        self.versions.keeps_order();
        let versions = self.versions.fork()?;
        let index = self.index.fork()?;
        Ok(Snapshot::new(versions, index, epoch))
    }
}
