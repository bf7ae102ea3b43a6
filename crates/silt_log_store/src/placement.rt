// The placing rule for a key of a log: its entry takes the slot of the key's older row, or goes where the table finds a place.
ghost use Rattle.std.specs.Prelude.{◌≡◌, ℕ, ◌+◌, ◌<◌, IsSome, IfSome, Some};
ghost use Rattle.std.specs.Option.{option_and_then};
ghost use Rattle.silt_cuckoo.specs.Slots.{IsTable, PlacesBelow, bucket_count, entry_at};
ghost use Rattle.silt_log_store.specs.Placement.{HoldsIn, entered, entered_under};
ghost use Rattle.silt_log_store.specs.declared.placement.Placing.{Placing};

use silt_cuckoo::{Path, Table};

/// Where the entry of a key goes in the table of a log store, for a row that the store can take. It is valid only for the table as
/// it was when the placing was made.
#[derive(Drop)]
pub enum Placing {
    /// Into the slot of the key's older row.
    Standing(usize),
    /// Into the first slot of a path, as a new entry.
    New(Path),
}

// Where an entry of these two buckets goes, if its key's older row has this slot. `None` if the placing rule gives up.
pub fn plan_entry(table: &Table, buckets: (u32, u32), standing: Option<usize>) -> Option<Placing>
    requires first_there { buckets.0 < bucket_count table.now }
    requires second_there { buckets.1 < bucket_count table.now }
    requires standing { IfSome standing (λ slot. IsSome (entry_at table.now slot)) }
    ensures holds { IfSome result (HoldsIn table.now) }
    ensures rule { (place : ℕ) → option_and_then (λ (placing : Placing). entered table.now placing place) result ≡ entered_under table.now buckets.0 buckets.1 place standing }
{
    if let Some(slot) = standing {
        return Some(Placing::Standing(slot));
    }
    let path = table.plan(buckets.0, buckets.1)?;
    Some(Placing::New(path))
}

// Enters a new place into the table, at a placing that was made for this very state of the table.
pub fn enter(table: &mut Table, placing: &Placing, place: u32)
    requires holds { HoldsIn table.old placing.now }
    requires below { PlacesBelow table.old place }
    ensures entered { entered table.old placing.now place ≡ Some table.new }
    ensures buckets { bucket_count table.new ≡ bucket_count table.old }
    ensures below { PlacesBelow table.new (place + 1) }
    ensures table { IsTable table.new }
{
    match placing {
        Placing::Standing(slot) => table.replace(*slot, place),
        Placing::New(path) => table.apply(path, place),
    }
}
