// The places of gathered rows, and the map of the rows whose keys are not decided yet.
ghost use Rattle.std.specs.Prelude.{◌≡◌, ◌+◌, ◌≤◌, ℕ, Some, None, List, cond, length, IfSome, IsSomeAnd, OnOk, OnErr};
ghost use Rattle.std.specs.Str.{bytes_eq};
ghost use Rattle.silt_merge.specs.Choice.{IsFirstWaiting, Gathers};
ghost use Rattle.silt_merge.specs.State.{source_at};

use silt_frame::{Key, Kind, Row};
use std::alloc::AllocError;
use std::collections::BTreeMap;

/// A row of a hash store: its kind, the number of the store among the merged ones, and the slot. It takes eight bytes.
#[derive(Clone, Copy, Debug, PartialEq, Eq)]
pub struct Source {
    pub kind: Kind,
    pub store: u16,
    pub slot: u32,
}

/// Keeps the row in a slot of a store, unless a row of its key is kept already: that one is newer.
pub fn keep(
    waiting: &mut BTreeMap<Key, Source>,
    store: u16,
    slot: u32,
    row: Option<Row>,
) -> Result<(), AllocError>
    ensures ok { OnOk result (Gathers store slot row waiting.old.entries waiting.new.entries) }
    ensures len { length waiting.new.entries ≤ length waiting.old.entries + 1 }
    ensures err { OnErr result (waiting.new.entries ≡ waiting.old.entries) }
    ensures new_key { OnErr result (IsSomeAnd row (λ row. source_at waiting.old.entries row.key.0 ≡ None)) }
{
    let Some(row) = row else {
        return Ok(());
    };
    if waiting.contains_key(&row.key) {
        return Ok(());
    }
    let source = Source {
        kind: row.kind,
        store,
        slot,
    };
    let _none = waiting.insert(row.key, source)?;
    Ok(())
}

/// The first key with a waiting row, and the row.
pub fn first(waiting: &BTreeMap<Key, Source>) -> Option<(Key, Source)>
    ensures { IsFirstWaiting waiting.now.entries result }
{
    let (key, source) = waiting.first_key_value()?;
    Some((*key, *source))
}

/// Removes the waiting row of a key, if there is one.
pub fn remove_waiting(waiting: &mut BTreeMap<Key, Source>, key: &Key)
    ensures gone { (other : List ℕ) → source_at waiting.new.entries other ≡ cond (bytes_eq key.now.0 other) None (source_at waiting.old.entries other) }
    ensures len { length waiting.new.entries ≤ length waiting.old.entries }
    ensures less { (source : Source) → source_at waiting.old.entries key.now.0 ≡ Some source → length waiting.new.entries + 1 ≡ length waiting.old.entries }
{
    let _row = waiting.remove(key);
}
