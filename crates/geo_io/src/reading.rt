// Reading all that a source has, up to a limit.
ghost use Rattle.std.specs.Prelude.{◌≡◌, ◌+◌, ◌<◌, ◌≤◌, [], length, IfOk, OnOk, OnErr, vec_len};
ghost use Rattle.std.specs.Io.KnownBytes.{Consumes, IsAtEnd};
ghost use Rattle.geo_io.specs.Causes.{HasCauseOf};
ghost use Rattle.geo_io.specs.Told.{LosesAtMost};

use crate::{IoFault, Source};
use std::alloc::Global;

/// How many bytes are read at once.
const BLOCK: usize = 4096;

/// Takes bytes until the source ends or `limit + 1` are taken: so more than `limit` of them say that there
/// was too much. After an error the bytes that were taken are lost.
pub fn read_limited<S: Source>(alloc: Global, src: &mut S, limit: usize) -> Result<Vec<u8>, IoFault>
    requires { limit < usize.MAX }
    ensures taken { IfOk result (λ bytes. Consumes (S.left src.old) (S.left src.new) bytes.items) }
    ensures few { IfOk result (λ bytes. vec_len bytes ≤ limit + 1) }
    ensures whole { IfOk result (λ bytes. vec_len bytes ≤ limit → IsAtEnd (S.left src.new)) }
    ensures err { OnErr result (LosesAtMost (limit + 1) (S.left src.old) (S.left src.new)) }
    ensures cause { HasCauseOf IoFault.Failed (S.faults src.old) (S.faults src.new) result }
{
    let mut bytes = Vec::new(alloc);
    let mut block = [0u8; BLOCK];
    read_blocks(src, limit, &mut block, &mut bytes)?;
    Ok(bytes)
}

// Fills `bytes` a block at a time.
fn read_blocks<S: Source>(
    src: &mut S,
    limit: usize,
    block: &mut [u8],
    bytes: &mut Vec<u8>,
) -> Result<(), IoFault>
    requires limit { limit < usize.MAX }
    requires block { 0 < length block.old }
    requires empty { bytes.old.items ≡ [] }
    ensures taken { OnOk result (Consumes (S.left src.old) (S.left src.new) bytes.new.items) }
    ensures few { OnOk result (vec_len bytes.new ≤ limit + 1) }
    ensures whole { OnOk result (vec_len bytes.new ≤ limit → IsAtEnd (S.left src.new)) }
    ensures err { OnErr result (LosesAtMost (limit + 1) (S.left src.old) (S.left src.new)) }
    ensures cause { HasCauseOf IoFault.Failed (S.faults src.old) (S.faults src.new) result }
{
    while bytes.len() <= limit {
        let room = block.len().min(limit + 1 - bytes.len());
        let taken = src.read(&mut block[..room])?;
        if taken == 0 {
            break;
        }
        bytes.extend_from_slice(&block[..taken])?;
    }
    Ok(())
}
