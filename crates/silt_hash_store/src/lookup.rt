// Look-ups of a key among the slots of its two buckets.
ghost use Rattle.std.specs.Prelude.{◌≡◌, ◌+◌, ◌*◌, ◌<◌, ◌≤◌, IsTrue, IfOk, IfErr, IfSome, drop, length};
ghost use Rattle.silt_disk.specs.Disk.{GaveAny, size};
ghost use Rattle.silt_disk.specs.Layout.{device_size, row_len};
ghost use Rattle.silt_hash_store.specs.Lookup.{FindsIn, MatchesKey, MatchesTag};
ghost use Rattle.silt_hash_store.specs.Slots.{HeadSays, slot_row, slot_tag};
ghost use Rattle.silt_frame.specs.Rows.{StoredRow};
ghost use Rattle.silt_frame.specs.Frame.{head_len};

use crate::region::{HashRegion, Head};
use crate::tags::Tags;
use silt_disk::Disk;
use silt_frame::{Key, Kind};
use silt_log::Found;

/// A key, and the tag that a slot of one of its buckets has if its row is in it.
#[derive(Clone, Copy)]
pub struct Sought {
    pub key: Key,
    pub tag: u32,
}

// The kind of a head, if the head is that of a row with the key.
fn kind_with_key(head: Head, key: &Key) -> Option<Kind>
    ensures { (row : StoredRow) → HeadSays row.kind row.key head → MatchesKey row key.now.0 result }
{
    match head {
        Head::Row(kind, its_key) if its_key == *key => Some(kind),
        _ => None,
    }
}

// The kind of the row in a slot, if the slot has the tag that is sought and the row has the key. A slot with another tag is not read.
// Of one with the tag it reads the front, as many bytes as `front` is long.
fn match_at<D: Disk>(
    region: &HashRegion,
    tags: &Tags,
    disk: &D,
    slot: u32,
    sought: Sought,
    front: &mut [u8],
) -> Result<Option<Kind>, D::Fault>
    requires slot { slot < 4 * region.now.geometry.buckets }
    requires least { head_len ≤ length front.old }
    requires most { length front.old ≤ row_len region.now.geometry }
    requires size { device_size region.now.geometry ≤ size (D.content disk.now) }
    ensures matches { IsTrue (D.content disk.now).honest → IfOk result (MatchesTag (slot_tag tags.now slot) sought.tag
        (slot_row region.now.geometry region.now.number (D.content disk.now).shown slot) sought.key.0) }
    ensures value { IsTrue (D.content disk.now).honest → length front.old ≡ row_len region.now.geometry
        → IfOk result (λ kind. IfSome kind (λ _. drop head_len front.new ≡ (slot_row region.now.geometry region.now.number (D.content disk.now).shown slot).value)) }
    ensures fault { IfErr result (GaveAny D.gave disk.now) }
{
    if tags.get(slot) != Some(sought.tag) {
        return Ok(None);
    }
    let head = region.read_front(disk, slot, front)?;
    Ok(kind_with_key(head, &sought.key))
}

/// The row of a key among the slots of a bucket that have its tag. It reads the front of each up to that one, as many bytes as
/// `front` is long. If `front` has room for a whole row, it then holds the value of the row with the key.
pub fn find_in<D: Disk>(
    region: &HashRegion,
    tags: &Tags,
    disk: &D,
    bucket: u32,
    sought: Sought,
    front: &mut [u8],
) -> Result<Option<Found>, D::Fault>
    requires bucket { bucket < region.now.geometry.buckets }
    requires least { head_len ≤ length front.old }
    requires most { length front.old ≤ row_len region.now.geometry }
    requires size { device_size region.now.geometry ≤ size (D.content disk.now) }
    ensures finds { IsTrue (D.content disk.now).honest
        → IfOk result (FindsIn region.now.geometry region.now.number tags.now (D.content disk.now).shown bucket sought.tag sought.key.0) }
    ensures place { IfOk result (λ found. IfSome found (λ row. row.place < 4 * region.now.geometry.buckets)) }
    ensures value { IsTrue (D.content disk.now).honest → length front.old ≡ row_len region.now.geometry
        → IfOk result (λ found. IfSome found (λ row. drop head_len front.new ≡ (slot_row region.now.geometry region.now.number (D.content disk.now).shown row.place).value)) }
    ensures fault { IfErr result (GaveAny D.gave disk.now) }
{
    let _known = region.slot_count(); // so the numbers of the slots fit their word
    let start = 4 * bucket;
    for slot in start..start + 4 {
        if let Some(kind) = match_at(region, tags, disk, slot, sought, front)? {
            return Ok(Some(Found { kind, place: slot }));
        }
    }
    Ok(None)
}
