//! One version of a row.
ghost use Rattle.std.specs.Prelude.{◌≡◌, Some, None, IfOk};
ghost use Rattle.std.specs.Option.{option_copied, is_some};

use geo_base::{Duplicate, Epoch, NoMemory, RowImage};
use std::alloc::Global;
use std::marker::Model;
use std::sync::Arc;

/// What an epoch made of a row: an image, or nothing where it removed the row. Copies share the image.
#[derive(Drop)]
pub(crate) struct RowVersion {
    epoch: Epoch,
    image: Option<Arc<RowImage>>,
}

impl Model for RowVersion {
    ghost use Rattle.std.specs.Option.{option_map};
    ghost use Rattle.std.specs.Arc.{arc_value};
    ghost use Rattle.version_store.specs.Chains.{Version};

    ghost Value = { Version };

    ghost view = { λ v. record { epoch = v.epoch; image = option_map arc_value v.image } };
}

impl RowVersion {
    /// The version of an epoch that put the image, of which this is a copy.
    pub(crate) fn put(alloc: Global, epoch: Epoch, image: &RowImage) -> Result<RowVersion, NoMemory>
        ensures { IfOk result (λ v. v ≡ record { epoch = epoch; image = Some image.now }) }
    {
        let image = Arc::new(alloc, image.copy(alloc)?)?;
        Ok(RowVersion {
            epoch,
            image: Some(image),
        })
    }

    /// The version of an epoch that removed the row.
    pub(crate) fn removal(epoch: Epoch) -> RowVersion
        ensures { result ≡ record { epoch = epoch; image = None } }
    {
        RowVersion { epoch, image: None }
    }

    /// The epoch that made it.
    pub(crate) fn epoch(&self) -> Epoch
        ensures { result ≡ self.now.epoch }
    {
        self.epoch
    }

    /// The image, None where it is a removal.
    pub(crate) fn image(&self) -> Option<&RowImage>
        ensures { option_copied result ≡ self.now.image }
    {
        match &self.image {
            Some(image) => Some(&**image),
            None => None,
        }
    }

    /// Whether it is no removal.
    pub(crate) fn has_image(&self) -> bool
        ensures { result ≡ is_some self.now.image }
    {
        self.image.is_some()
    }
}

impl Duplicate for RowVersion {
    fn copy(&self, _alloc: Global) -> Result<RowVersion, NoMemory> {
        let image = match &self.image {
            Some(image) => Some(Arc::try_clone(image)?),
            None => None,
        };
        Ok(RowVersion {
            epoch: self.epoch,
            image,
        })
    }
}
