//! The methods of the types that a class's objects see.
ghost use Rattle.std.specs.Prelude.{◌≡◌, length, IfOk};
ghost use Rattle.th_offsets.specs.Known.{Done, Owned, Placed, Shallow, Typed, Viewed};
ghost use Rattle.th_views.specs.Rows.{Ordered};

use crate::heads::Facts;
use crate::maps::Offsets;
use crate::slots::offsets_of;
use crate::views::Spots;
use std::alloc::{AllocError, Global};
use th_views::{ClassRow, TypeRow};

/// For all classes, the own methods of the types that its objects see, each with the offset of its first slot.
pub fn all_owned(
    alloc: Global,
    types: &[TypeRow],
    classes: &[ClassRow],
    seen: &[Spots],
    facts: &[Facts],
    depths: &[u32],
) -> Result<Vec<Offsets>, AllocError>
    requires ordered { Ordered types.now }
    requires shallow { Shallow types.now }
    requires typed { Typed (record { types = types.now; classes = classes.now }) }
    requires known { (length facts.now ≡ length types.now) × Done types.now facts.now }
    requires depths { (length depths.now ≡ length types.now) × Placed types.now depths.now }
    requires seen { (length seen.now ≡ length classes.now) × Viewed (record { types = types.now; classes = classes.now }) seen.now }
    ensures { IfOk result (λ all. (length all.items ≡ length classes.now) × Owned (record { types = types.now; classes = classes.now }) all.items) }
{
    let mut all = Vec::new(alloc);
    for number in 0..classes.len() {
        let bytes = offsets_of(alloc, types, &seen[number].list, facts, depths)?;
        all.push(Offsets { bytes })?;
    }
    Ok(all)
}
