ghost use Rattle.std.specs.Prelude.{◌≡◌, map, IfOk};
ghost use Rattle.ck_store.specs.Index.{objects_at};
ghost use Rattle.ck_store.specs.Rows.{kept_of};

use crate::places::{Place, object_at};
use crate::stored_objects::StoredObject;
use ck_journal::KeptObject;
use ck_types::NoMemory;
use slab::Slab;
use std::alloc::Global;

/// Copies of the objects as a base has them, in the order of their places.
pub(crate) fn copy_objects(
    alloc: Global,
    objects: &Slab<StoredObject>,
    index: &[Place],
) -> Result<Vec<KeptObject>, NoMemory>
    ensures { IfOk result (λ kept. kept.items ≡ map kept_of (objects_at objects.now index.now)) }
{
    let mut kept = Vec::with_capacity(alloc, objects.len())?;
    for place in index {
        if let Some(object) = object_at(objects, *place) {
            // No `push_reserved`: no clause says that the index has no more objects than the slab.
            kept.push(object.kept()?)?;
        }
    }
    Ok(kept)
}
