//! Adding to sets and maps. Of a failure only the want of memory is told, and not what was to be added.
ghost use Rattle.std.specs.Prelude.{◌≡◌, ◌<◌, true, Some, IsOk, OnOk, OnErr};
ghost use Rattle.std.specs.HashMap.{IsUnchanged, Updates as UpdatesEntry};
ghost use Rattle.std.specs.HashSet.{spare, Updates as UpdatesKey};
ghost use Rattle.indexmap.specs.IndexMap.{insert_entry, IsUnchanged as HasStayed, Updates as UpdatesIndexed};

use cc_defs::OutOfMemory;
use indexmap::IndexMap;
use std::collections::{HashMap, HashSet};
use std::hash::Hash;

/// Puts a key into a set, unless it has it.
pub(crate) fn put_key<K: Eq + Hash + Drop>(set: &mut HashSet<K>, key: K) -> Result<(), OutOfMemory>
    ensures updates { OnOk result (UpdatesKey K.eq set.old set.new key true) }
    ensures succeeds { 0 < spare set.old → IsOk result }
{
    set.insert(key)?;
    Ok(())
}

/// Puts a value into a map under a key.
pub(crate) fn put_entry<K: Eq + Hash + Drop, V: Drop>(
    map: &mut HashMap<K, V>,
    key: K,
    value: V,
) -> Result<(), OutOfMemory>
    ensures updates { OnOk result (UpdatesEntry K.eq map.old map.new key (Some value)) }
    ensures unchanged { OnErr result (IsUnchanged map.old map.new) }
{
    map.insert(key, value)?;
    Ok(())
}

/// Puts a value under a key into a map that keeps the order in which its keys came.
pub(crate) fn put_indexed<K: Eq + Hash + Drop, V: Drop>(
    map: &mut IndexMap<K, V>,
    key: K,
    value: V,
) -> Result<(), OutOfMemory>
    ensures entries { OnOk result (map.new.entries ≡ insert_entry K.eq map.old.entries key value) }
    ensures updates { OnOk result (UpdatesIndexed K.eq map.old map.new key (Some value)) }
    ensures unchanged { OnErr result (HasStayed map.old map.new) }
{
    map.insert(key, value)?;
    Ok(())
}
