//! The rows after each of some epochs, kept as a list of plain merges.
use crate::changes::{add_row, row_of};
use crate::merges::{Case, merge};
use geo_base::{Epoch, RowId, RowImage};
use std::alloc::Global;
use std::test::Fail;
use write_set::{KeptVersions, Plain};

/// The merges up to each of the epochs, the first of which is the horizon.
#[derive(Debug, Drop)]
struct Merges {
    horizon: u8,
    /// How many epochs there are behind the horizon.
    later: u8,
    plains: Vec<Plain>,
}

impl KeptVersions for Merges {
    ghost use Rattle.std.specs.Prelude.{◌+◌, ◌-◌};
    ghost use Rattle.std.specs.List.{slice_get};
    ghost use Rattle.std.specs.Option.{option_and_then};
    ghost use Rattle.write_set.specs.Overlay.{image_in};

    ghost first_kept = { λ m. m.horizon };

    ghost last_kept = { λ m. m.horizon + m.later };

    ghost image_at = { λ m row epoch. option_and_then (λ p. image_in p.rows row) (slice_get m.plains.items (epoch - m.horizon)) };

    fn horizon(&self) -> Epoch {
        self.horizon as Epoch
    }

    fn applied(&self) -> Epoch {
        self.horizon as Epoch + self.later as Epoch
    }

    fn read_at<'a>(&'a self, row: &RowId, epoch: Epoch) -> Option<&'a RowImage> {
        let plain = self.plains.get((epoch - self.horizon as Epoch) as usize)?;
        plain.get(row)
    }
}

/// The merge of the epochs up to the last.
fn merged(alloc: Global, last: Epoch, cases: &[Case]) -> Result<Plain, Fail> {
    let mut plain = Plain::empty(alloc, 2);
    for _ in 0..last {
        merge(alloc, &mut plain, cases)?;
    }
    Ok(plain)
}

/// The merges up to the epochs from the horizon on.
fn merges_of(alloc: Global, horizon: u8, later: u8, cases: &[Case]) -> Result<Merges, Fail> {
    let mut plains = Vec::new(alloc);
    for place in 0..=later {
        plains.push(merged(alloc, horizon as Epoch + place as Epoch, cases)?)?;
    }
    Ok(Merges {
        horizon,
        later,
        plains,
    })
}

/// The image of the row after each of the epochs, or `; none` where there is no such row.
fn text_of<K: KeptVersions>(alloc: Global, kept: &K, row: &RowId) -> Result<String, Fail> {
    let mut out = String::new(alloc);
    for epoch in kept.horizon()..=kept.applied() {
        match kept.read_at(row, epoch) {
            Some(image) => add_row(&mut out, row, image)?,
            None => out.push_str("; none")?,
        }
    }
    Ok(out)
}

/// Whether the row of the key has these images after the epochs from the horizon to the third.
fn is_kept(alloc: Global, horizon: u8, key: i64, text: &str) -> Result<bool, Fail> {
    let cases: [Case; 4] = [
        (1, 0, 0, "1=10 2=20", "committed"),
        (2, 0, 1, "1=11", "committed"),
        (3, 0, 2, "1", "committed"),
        (3, 1, 2, "@2", "committed"),
    ];
    if horizon > 3 {
        return Err("a horizon past the epochs".into());
    }
    let kept = merges_of(alloc, horizon, 3 - horizon, &cases)?;
    let row = row_of(alloc, key)?;
    Ok(text_of(alloc, &kept, &row)?.as_str() == text)
}

/// A list of merges keeps the versions of rows.
#[test]
fn rows_are_read_after_each_epoch(rt: HostRuntime) -> Result<(), Fail> {
    for (horizon, key, text) in [
        (0, 1, "; none; 0(1) -> (1, 10); 0(1) -> (1, 11); none"),
        (2, 1, "; 0(1) -> (1, 11); none"),
        (1, 2, "; 0(2) -> (2, 20); 0(2) -> (2, 20); 0(2) -> (2, 20)"),
        (3, 3, "; none"),
    ] {
        assert!(rt; is_kept(rt.alloc(), horizon, key, text)?, "{text}");
    }
    Ok(())
}
