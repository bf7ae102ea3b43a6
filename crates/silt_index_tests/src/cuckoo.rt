//! Worked examples of partial-key cuckoo tables.

ghost use Rattle.std.specs.Prelude.{◌≡◌, ◌+◌, ◌<◌, ◌≤◌, length};
ghost use Rattle.silt_cuckoo.specs.Slots.{PlacesBelow, bucket_count};

use silt_cuckoo::{Candidate, Table, key_buckets};
use std::process::Abort;
use std::test::Fail;

/// Places a new entry, if the rule finds a path for it.
#[tactic(auto, using(silt_cuckoo::proofs::Places::above_not_held, silt_cuckoo::proofs::Places::placed_below))]
fn put(table: &mut Table, first: u32, second: u32, place: u32) -> bool
    requires first_there { first < bucket_count table.old }
    requires second_there { second < bucket_count table.old }
    requires below { PlacesBelow table.old place }
    ensures count { bucket_count table.new ≡ bucket_count table.old }
    ensures below { PlacesBelow table.new (place + 1) }
{
    match table.plan(first, second) {
        Some(path) => {
            table.apply(&path, place);
            true
        }
        None => false,
    }
}

/// Places new entries of these two buckets, at the places from one on up to another, until the rule gives up: the place
/// at which it gave up, or the end.
fn fill(table: &mut Table, first: u32, second: u32, from: u32, end: u32) -> u32
    requires first_there { first < bucket_count table.old }
    requires second_there { second < bucket_count table.old }
    requires in_order { from ≤ end }
    requires below { PlacesBelow table.old from }
    ensures count { bucket_count table.new ≡ bucket_count table.old }
    ensures below { PlacesBelow table.new end }
{
    for place in from..end {
        if !put(table, first, second, place) {
            return place;
        }
    }
    end
}

/// Places the keys that differ in one byte, which goes from 1 up to a last value, until the rule gives up: how many found
/// a place.
fn place_keys(table: &mut Table, first_key: [u8; 20], byte: usize, last: u8) -> u32
    requires byte { byte < 20 }
    requires empty { PlacesBelow table.old 0 }
    requires some { 0 < bucket_count table.old }
{
    let buckets = table.bucket_count();
    let mut key = first_key;
    for place in 0..last as u32 {
        key[byte] = place as u8 + 1;
        let (first, second) = key_buckets(&key, buckets);
        if !put(table, first, second, place) {
            return place;
        }
    }
    last as u32
}

/// Places keys of random bytes until the rule gives up: how many found a place.
fn place_random_keys(table: &mut Table, seed: u64) -> u32
    requires empty { PlacesBelow table.old 0 }
    requires some { 0 < bucket_count table.old }
{
    let buckets = table.bucket_count();
    let mut state = seed;
    for place in 0..200_000 {
        state = state.wrapping_add(0x9E37_79B9_7F4A_7C15);
        let mut mixed = (state ^ (state >> 30)).wrapping_mul(0xBF58_476D_1CE4_E5B9);
        mixed = (mixed ^ (mixed >> 27)).wrapping_mul(0x94D0_49BB_1331_11EB);
        mixed ^= mixed >> 31;
        let (first, second) = key_buckets(&mixed.to_be_bytes(), buckets);
        if !put(table, first, second, place) {
            return place;
        }
    }
    200_000
}

/// Places entries of buckets 0 and 1 at the places 0 to 3, and of buckets 1 and 2 at the places 4 to 7: where each of
/// the two ended.
fn fill_eight(table: &mut Table) -> (u32, u32)
    requires four { bucket_count table.old ≡ 4 }
    requires empty { PlacesBelow table.old 0 }
    ensures count { bucket_count table.new ≡ 4 }
    ensures below { PlacesBelow table.new 8 }
{
    let first = fill(table, 0, 1, 0, 4);
    let second = fill(table, 1, 2, 4, 8);
    (first, second)
}

/// The rule finds this path for an entry of buckets 0 and 1.
fn has_path(rt: &impl Abort, table: &Table, slots: &[u32]) -> Result<(), Fail>
    requires four { bucket_count table.now ≡ 4 }
{
    let path = table.plan(0, 1).ok_or("no path")?;
    assert_eq!(rt; path.slots(), slots);
    Ok(())
}

/// The slots of a table hold these entries.
fn has_entries(rt: &impl Abort, table: &Table, entries: &[Option<(u32, u32)>]) {
    for (slot, entry) in entries.iter().enumerate() {
        assert_eq!(rt; table.slot(slot), *entry, "slot {slot}");
    }
}

/// The four slots of bucket 0 and those of buckets 1 to 3, once an entry of buckets 0 and 1 has moved two others.
const MOVED: [Option<(u32, u32)>; 16] = [
    Some((1, 8)),
    Some((1, 1)),
    Some((1, 2)),
    Some((1, 3)),
    Some((2, 4)),
    Some((0, 0)),
    Some((2, 6)),
    Some((2, 7)),
    Some((1, 5)),
    None,
    None,
    None,
    None,
    None,
    None,
    None,
];

#[test]
fn moves_entries_along_a_path(rt: HostRuntime) -> Result<(), Fail> {
    let mut table = Table::new(rt.alloc(), 4)?;
    assert!(rt; table.bucket_count() == 4);
    assert!(rt; fill_eight(&mut table) == (4, 8));
    has_path(&rt, &table, &[0, 5, 8])?;
    assert!(rt; put(&mut table, 0, 1, 8));
    has_entries(&rt, &table, &MOVED);
    Ok(())
}

/// The candidates of buckets 0 and 1, in their order.
fn has_candidates(rt: &impl Abort, table: &Table, expected: &[Candidate])
    requires four { bucket_count table.now ≡ 4 }
{
    assert_eq!(rt; table.candidates(0, 1).as_slice(), expected);
}

#[test]
fn finds_the_candidates_in_order(rt: HostRuntime) -> Result<(), Fail> {
    let mut table = Table::new(rt.alloc(), 4)?;
    fill_eight(&mut table);
    fill(&mut table, 0, 1, 8, 9);
    let expected = [
        Candidate { slot: 0, place: 8 },
        Candidate { slot: 1, place: 1 },
        Candidate { slot: 2, place: 2 },
        Candidate { slot: 3, place: 3 },
        Candidate { slot: 5, place: 0 },
    ];
    has_candidates(&rt, &table, &expected);

    if table.slot(5).is_some() {
        table.replace(5, 9);
    }
    assert!(rt; table.slot(5) == Some((0, 9)));
    Ok(())
}

#[test]
fn gives_up_at_the_fifth_key_of_one_bucket(rt: HostRuntime) -> Result<(), Fail> {
    let mut table = Table::new(rt.alloc(), 2)?;
    assert!(rt; key_buckets(&[5; 20], 2) == (1, 1));
    assert!(rt; place_keys(&mut table, [0; 20], 0, 5) == 4);
    Ok(())
}

#[test]
fn gives_up_at_the_ninth_key_of_two_buckets(rt: HostRuntime) -> Result<(), Fail> {
    let mut table = Table::new(rt.alloc(), 2)?;
    let mut key = [0; 20];
    key[3] = 1;
    assert!(rt; place_keys(&mut table, key, 4, 9) == 8);
    Ok(())
}

#[test]
fn fills_most_of_a_table(rt: HostRuntime) -> Result<(), Fail> {
    let mut table = Table::new(rt.alloc(), 1024)?;
    let placed = place_random_keys(&mut table, 1);
    println!(rt; "{placed} of 4096 slots were taken when the rule gave up")?;
    assert!(rt; placed > 2048, "{placed}");
    Ok(())
}
