//! A region, how it is opened, and what is read of it at once.
ghost use Rattle.std.specs.Prelude.{◌≡◌, ◌⊎◌, ℕ, ◌<◌, ◌≤◌, [], length, IfOk, IfSome, IsErrOf};
ghost use Rattle.geo_base.specs.Results.{Refuses};
ghost use Rattle.geo_base.specs.declared.limits.TheConstants.{MAX_REGIONS, LAST_EPOCH};
ghost use Rattle.geo_io.specs.Causes.{HasCauseOf};
ghost use Rattle.geo_io.specs.Told.{list_of};
ghost use Rattle.own_log.specs.declared.fault.EntryFault.{EntryFault};
ghost use Rattle.own_log.specs.Logs.{IsLogFault, IsBadLog};
ghost use Rattle.set_codec.specs.declared.fault.CodecFault.TheVariants as codec;
ghost use Rattle.region_core.specs.Region.{open_epoch, horizon_at};
ghost use Rattle.region_core.specs.Entries.{opened};
ghost use Rattle.region_core.specs.Lawful.{IsRegion};
ghost use Rattle.region_core.specs.Calls.{Opens};

use crate::restarting::hold_all;
use epoch_inbox::Inbox;
use geo_base::{Duplicate, Epoch, Many, Outcome, RegionNo};
use geo_io::Keepers;
use geo_schema::Schema;
use index_store::IndexStore;
use own_log::{LoadFault, load_log};
use std::alloc::Global;
use std::marker::Model;
use version_store::Versions;
use write_set::{Batch, Candidate};

/// What became of the candidates of one batch, by commit number.
pub(crate) type OutcomeList = Many<Outcome>;

/// The bytes of a batch without candidates.
pub(crate) const EMPTY_BATCH: u64 = 13;

/// One master of the database: a full copy of it, with the batches that it has sealed.
///
/// It keeps the batches of its log in memory. Those that it hasn't published it holds a second time beside the other
/// regions', so a start takes as much memory again as its log.
#[derive(Drop)]
pub struct Region {
    pub(crate) alloc: Global,
    pub(crate) no: RegionNo,
    pub(crate) regions: u8,
    pub(crate) schema: Schema,
    pub(crate) last: Epoch,
    pub(crate) up: bool,
    pub(crate) life: u64,
    pub(crate) log: Vec<Batch>,
    pub(crate) open_candidates: Vec<Candidate>,
    /// The bytes of the batch of the open candidates.
    pub(crate) size: u64,
    pub(crate) inbox: Inbox,
    pub(crate) versions: Versions,
    pub(crate) index: IndexStore,
    pub(crate) outcomes: Vec<OutcomeList>,
}

impl Model for Region {
    ghost use Rattle.region_core.specs.Region.{RegionValue};
    ghost use Rattle.region_core.specs.inner.Fields.{seen, AreFields};

    ghost Value = { RegionValue };

    ghost view = { λ r. seen r.no r.regions r.schema r.last r.up r.life r.log.items r.open_candidates.items r.inbox.held r.versions r.outcomes.items };

    ghost invariant = { λ r. AreFields r.size r.inbox r.index (seen r.no r.regions r.schema r.last r.up r.life r.log.items r.open_candidates.items r.inbox.held r.versions r.outcomes.items) };
}

impl Region {
    /// The region of that number, of so many, over a schema, which may open no epoch above the last one: it starts on
    /// the log that the keepers have of it, in life 0, and has published nothing.
    ///
    /// Where the keepers tell the log, the region's log is the batches that it spells, and [`LoadFault::BadLog`] comes
    /// exactly where an entry is none, and names the first. [`LoadFault::LogFault`] comes only where the keepers' count
    /// of faults rose. Costs one read of the keepers for each entry, a step for each of its bytes, and a copy of each
    /// batch.
    pub fn open<L: Keepers>(
        alloc: Global,
        no: RegionNo,
        regions: u8,
        schema: &Schema,
        last: Epoch,
        logs: &mut L,
    ) -> Result<Region, LoadFault>
        requires few { regions ≤ MAX_REGIONS }
        requires there { no < regions }
        requires last { last ≤ LAST_EPOCH }
        requires width { no < L.width logs.old }
        ensures region { IfOk result (λ region. Opens (opened no regions schema.now last region.standing.log) (L.lists logs.old) region) }
        ensures bad { (entry : ℕ) (fault : EntryFault) → IsErrOf result (LoadFault.BadLog entry fault) →
            IfSome (L.lists logs.old) (λ all. IsLogFault schema.now regions no (list_of all no) entry fault) }
        ensures no_want { (entry : ℕ) → IsErrOf result (LoadFault.BadLog entry (EntryFault.Codec codec.NoMemory)) → ⊥ }
        ensures refused { IfSome (L.lists logs.old) (λ all. IsErrOf result LoadFault.LogFault
            ⊎ Refuses LoadFault.NoMemory result (IsBadLog schema.now regions no (list_of all no))) }
        ensures lists { L.lists logs.new ≡ L.lists logs.old }
        ensures width { L.width logs.new ≡ L.width logs.old }
        ensures cause { HasCauseOf LoadFault.LogFault (L.faults logs.old) (L.faults logs.new) result }
    {
        // The call says that the tables are a schema's.
        let _tables = schema.count();
        let schema_copy = match schema.copy(alloc) {
            Ok(copy) => copy,
            Err(_) => return Err(LoadFault::NoMemory),
        };
        let log = load_log(alloc, logs, schema, regions, no)?;
        let mut inbox = Inbox::new(alloc, regions);
        if hold_all(alloc, log.as_slice(), &mut inbox).is_err() {
            return Err(LoadFault::NoMemory);
        }
        Ok(Region {
            alloc,
            no,
            regions,
            schema: schema_copy,
            last,
            up: true,
            life: 0,
            log,
            open_candidates: Vec::new(alloc),
            size: EMPTY_BATCH,
            inbox,
            versions: Versions::empty(alloc),
            index: IndexStore::empty(alloc),
            outcomes: Vec::new(alloc),
        })
    }

    /// That the region is lawful. Does nothing when it runs.
    pub fn lawful(&self)
        ensures { IsRegion self.now }
    {
        let _life = self.life;
    }

    /// Whether it is up.
    pub fn up(&self) -> bool
        ensures { result ≡ self.now.standing.up }
    {
        self.up
    }

    /// The last epoch that it has published, 0 before the first.
    pub fn published(&self) -> Epoch
        ensures { result ≡ self.now.standing.published }
    {
        self.versions.applied()
    }

    /// The epoch of the batch that it seals next.
    pub fn open_epoch(&self) -> Epoch
        ensures { result ≡ open_epoch self.now.standing }
    {
        self.log.len() as u32 + 1
    }

    /// How many candidates are open.
    pub fn open_count(&self) -> u32
        ensures { result ≡ length self.now.standing.open_candidates }
    {
        self.open_candidates.len() as u32
    }

    /// The first epoch that can be read: 64 epochs before the published one, or 0.
    pub fn horizon(&self) -> Epoch
        ensures { result ≡ horizon_at self.now.standing.published }
    {
        self.versions.horizon()
    }

    /// How often it has crashed.
    pub fn life(&self) -> u64
        ensures { result ≡ self.now.standing.life }
    {
        self.life
    }

    /// Its number.
    pub fn no(&self) -> RegionNo
        ensures { result ≡ self.now.standing.number }
    {
        self.no
    }

    /// How many regions there are.
    pub fn regions(&self) -> u8
        ensures { result ≡ self.now.standing.regions }
    {
        self.regions
    }

    /// The tables of the database.
    pub fn schema(&self) -> &Schema
        ensures { result.now ≡ self.now.standing.tables }
    {
        &self.schema
    }
}
