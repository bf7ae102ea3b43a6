// The mark of a file, which says of which set it is a shard, and which one.
ghost use Rattle.std.specs.Prelude.{◌≡◌, ◌+◌, ◌∷◌, ◌≤◌, IsTrue, IfOk, IfErr, OnOk};
ghost use Rattle.silt_disk.specs.Disk.{GaveAny, LeavesOnly, Rests, size};
ghost use Rattle.silt_disk.specs.Layout.{Shape};
ghost use Rattle.silt_disk.specs.Wrote.{Wrote};
ghost use Rattle.silt_event.specs.Commands.{Map};
ghost use Rattle.silt_image.specs.Meaning.{StandsFor};
ghost use Rattle.silt_shards.specs.Marks.{IsHalfMarked, IsShardMark, IsMarkClosed, IsMarkedOrNot, is_shard, mark_at, mark_bytes, mark_len, marking_in, marking_of};
ghost use Rattle.silt_shards.specs.declared.mark.Marking.TheVariants.{Unmarked, Marked};

use crate::shard_key::{LEAST_SHARDS, MOST_SHARDS};
use byteorder::{BigEndian, ByteOrder};
use silt_disk::{Disk, write_synced};
use silt_frame::{COMMIT_CLOSED, COMMIT_OPEN, is_open};

// Where the mark of a file begins: in the first sector, behind the header. Nothing else of a store is there.
const MARK_AT: u64 = 2_048;

// The length of a mark, its commit byte included.
const MARK_LEN: usize = 37;

// The magic bytes follow the mark's commit byte.
const MAGIC: [u8; 8] = *b"SILTSHRD";

// The version of the mark's form.
const VERSION: u32 = 1;

/// Which shard of which set a file is.
#[derive(Clone, Copy, Debug, PartialEq, Eq)]
pub struct Mark {
    /// The number of shards of the set, from 2 to 64.
    pub count: u32,
    /// The number of this shard, from 0 on.
    pub shard: u32,
    /// Random bytes, which all files of the set share, and no other file has.
    pub set: [u8; 16],
}

/// What a file says of its place in a set.
#[derive(Clone, Copy, Debug, PartialEq, Eq)]
pub enum Marking {
    /// It has no mark: it is a store of its own, or none.
    Unmarked,
    /// It has a mark of another version, or one whose numbers are those of no shard.
    Unknown,
    /// It is this shard.
    Marked(Mark),
}

// Whether a set of so many shards has this one.
fn is_shard(count: u32, shard: u32) -> bool
    ensures { result ≡ is_shard count shard }
{
    count >= LEAST_SHARDS && count <= MOST_SHARDS && shard < count
}

// What these bytes say.
fn marking_in(bytes: &[u8; MARK_LEN]) -> Marking
    ensures { result ≡ marking_in bytes.now }
{
    if !(is_open(bytes[0]) && &bytes[1..9] == MAGIC.as_slice()) {
        return Marking::Unmarked;
    }
    let count = BigEndian::read_u32(&bytes[13..17]);
    let shard = BigEndian::read_u32(&bytes[17..21]);
    if !(BigEndian::read_u32(&bytes[9..13]) == VERSION && is_shard(count, shard)) {
        return Marking::Unknown;
    }
    let mut set = [0; 16];
    set.copy_from_slice(&bytes[21..37]);
    Marking::Marked(Mark { count, shard, set })
}

// The bytes of a mark after its commit byte.
pub(crate) fn mark_bytes(mark: &Mark) -> [u8; MARK_LEN - 1]
    requires { IsShardMark mark.now }
    ensures { result ≡ mark_bytes mark.now }
{
    let mut bytes = [0; MARK_LEN - 1];
    let (magic, rest) = bytes.split_at_mut(8);
    magic.copy_from_slice(&MAGIC);
    let (version, rest) = rest.split_at_mut(4);
    BigEndian::write_u32(version, VERSION);
    let (count, rest) = rest.split_at_mut(4);
    BigEndian::write_u32(count, mark.count);
    let (shard, set) = rest.split_at_mut(4);
    BigEndian::write_u32(shard, mark.shard);
    set.copy_from_slice(&mark.set);
    bytes
}

/// What a file says of its place in a set. A file that is too short for a mark has none.
///
/// # Errors
///
/// The fault of the read.
pub fn read_mark<D: Disk>(disk: &D) -> Result<Marking, D::Fault>
    ensures marking { IsTrue (D.content disk.now).honest → IfOk result (λ marking. marking ≡ marking_of (D.content disk.now).shown) }
    ensures fault { IfErr result (GaveAny D.gave disk.now) }
{
    if disk.len() < MARK_AT + MARK_LEN as u64 {
        return Ok(Marking::Unmarked);
    }
    let mut bytes = [0; MARK_LEN];
    disk.read(MARK_AT, &mut bytes)?;
    Ok(marking_in(&bytes))
}

/// Closes the commit byte of a file's mark, so that the file has none. It makes one write and one sync. The store
/// in the file stays what it is.
///
/// # Errors
///
/// The fault of the write or the sync. Each crash image that is then possible was possible before, but for the commit byte.
pub fn close_mark<D: Disk>(disk: &mut D) -> Result<(), D::Fault>
    requires { mark_at + mark_len ≤ size (D.content disk.old) }
    ensures wrote { Wrote D.Disk mark_at 1 1 1 disk.old disk.new result }
    ensures closed { OnOk result (LeavesOnly (D.content disk.new) IsMarkClosed) }
    ensures unmarked { OnOk result (LeavesOnly (D.content disk.new) (λ image. marking_of image ≡ Unmarked)) }
    ensures stands { (shape : Shape) (map : Map) → LeavesOnly (D.content disk.old) (StandsFor shape map) → LeavesOnly (D.content disk.new) (StandsFor shape map) }
    ensures rests { OnOk result (Rests (D.content disk.new)) }
    ensures fault { IfErr result (GaveAny D.gave disk.new) }
{
    write_synced(disk, MARK_AT, &[COMMIT_CLOSED])?;
    Ok(())
}

// Writes a mark behind its closed commit byte, and then opens that byte, each with a sync.
fn write_behind<D: Disk>(disk: &mut D, mark: &Mark) -> Result<(), D::Fault>
    requires size { mark_at + mark_len ≤ size (D.content disk.old) }
    requires mark { IsShardMark mark.now }
    requires closed { LeavesOnly (D.content disk.old) IsMarkClosed }
    ensures wrote { Wrote D.Disk mark_at mark_len 2 2 disk.old disk.new result }
    ensures marked { OnOk result (LeavesOnly (D.content disk.new) (λ image. marking_of image ≡ Marked mark.now)) }
    ensures stopped { LeavesOnly (D.content disk.new) (IsMarkedOrNot mark.now) }
    ensures rests { OnOk result (Rests (D.content disk.new)) }
{
    let bytes = mark_bytes(mark);
    write_synced(disk, MARK_AT + 1, &bytes)?;
    write_synced(disk, MARK_AT, &[COMMIT_OPEN])?;
    Ok(())
}

/// Makes a file this shard. It first closes the commit byte of its mark, so that a crash leaves the file with no mark or with the
/// whole one. It makes three writes and three syncs. The store in the file stays what it is.
///
/// # Errors
///
/// The fault of a write or a sync. Each crash image that is then possible has no mark, or this one, or it was possible
/// before, but for the commit byte.
pub fn write_mark<D: Disk>(disk: &mut D, mark: &Mark) -> Result<(), D::Fault>
    requires size { mark_at + mark_len ≤ size (D.content disk.old) }
    requires mark { IsShardMark mark.now }
    ensures wrote { Wrote D.Disk mark_at mark_len 3 3 disk.old disk.new result }
    ensures marked { OnOk result (LeavesOnly (D.content disk.new) (λ image. marking_of image ≡ Marked mark.now)) }
    ensures stopped { LeavesOnly (D.content disk.new) (IsHalfMarked (D.content disk.old) mark.now) }
    ensures stands { (shape : Shape) (map : Map) → LeavesOnly (D.content disk.old) (StandsFor shape map) → LeavesOnly (D.content disk.new) (StandsFor shape map) }
    ensures rests { OnOk result (Rests (D.content disk.new)) }
    ensures fault { IfErr result (GaveAny D.gave disk.new) }
{
    close_mark(disk)?;
    write_behind(disk, mark)?;
    Ok(())
}
