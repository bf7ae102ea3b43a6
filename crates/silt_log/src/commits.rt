// Writes of commit bytes and of rows, at offsets.
ghost use Rattle.std.specs.Prelude.{◌≡◌, ◌==◌, ◌+◌, ◌<◌, ◌≤◌, ◌++◌, length, drop, replicate, IsTrue, IfOk, IfErr, OnOk};
ghost use Rattle.std.specs.List.{list_any, prefix_len};
ghost use Rattle.silt_disk.specs.Disk.{GaveAny, Rests, Writes, size};
ghost use Rattle.silt_disk.specs.Wrote.{Wrote};
ghost use Rattle.silt_frame.specs.Commit.{commit_open, is_open};
ghost use Rattle.silt_log.specs.Rows.{commit_bytes};
ghost use Rattle.silt_log.specs.Calls.{SyncsAndTears};

use silt_disk::{Disk, write_synced};
use silt_frame::COMMIT_OPEN;

// Writes this byte over the commit bytes from here on, as many as the buffer is long, and syncs.
pub fn write_commits<D: Disk>(
    disk: &mut D,
    at: u64,
    buffer: &mut [u8],
    commit: u8,
) -> Result<(), D::Fault>
    requires { at + length buffer.old ≤ size (D.content disk.old) }
    ensures wrote { Wrote D.Disk at (length buffer.old) 1 1 disk.old disk.new result }
    ensures written { OnOk result (Writes at (replicate (length buffer.old) commit) (D.content disk.old) (D.content disk.new)) }
    ensures rests { OnOk result (Rests (D.content disk.new)) }
{
    buffer.fill(commit);
    write_synced(disk, at, buffer)?;
    Ok(())
}

// Syncs, so that the bodies are settled first. Then opens the commit bytes from here on, as many as the buffer is long, and syncs.
#[tactic(auto, using(crate::proofs::Barriers::not_begun, crate::proofs::Barriers::begun, crate::proofs::Barriers::written_after_sync))]
pub fn open_behind_sync<D: Disk>(disk: &mut D, at: u64, buffer: &mut [u8]) -> Result<(), D::Fault>
    requires { at + length buffer.old ≤ size (D.content disk.old) }
    ensures wrote { Wrote D.Disk at (length buffer.old) 1 2 disk.old disk.new result }
    ensures begun { SyncsAndTears at (length buffer.old) (D.content disk.old) (D.content disk.new) }
    ensures written { OnOk result (Writes at (replicate (length buffer.old) commit_open) (D.content disk.old) (D.content disk.new)) }
    ensures rests { OnOk result (Rests (D.content disk.new)) }
{
    disk.sync()?;
    write_commits(disk, at, buffer, COMMIT_OPEN)?;
    Ok(())
}

// Writes the head of a row and then its value.
pub fn write_row<D: Disk>(disk: &mut D, at: u64, head: &[u8], value: &[u8]) -> Result<(), D::Fault>
    requires { at + (length head.now + length value.now) ≤ size (D.content disk.old) }
    ensures wrote { Wrote D.Disk at (length head.now + length value.now) 2 0 disk.old disk.new result }
    ensures written { OnOk result (Writes at (head.now ++ value.now) (D.content disk.old) (D.content disk.new)) }
{
    let _known = disk.len(); // so no place within it passes a word
    disk.write(at, head)?;
    disk.write(at + head.len() as u64, value)?;
    Ok(())
}

// Reads the commit bytes from here on, as many as the buffer is long. Returns how many are open before the first closed one, and
// whether one past it is open.
pub fn read_commits<D: Disk>(
    disk: &D,
    at: u64,
    buffer: &mut [u8],
) -> Result<(usize, bool), D::Fault>
    requires { at + length buffer.old ≤ size (D.content disk.now) }
    ensures found { IsTrue (D.content disk.now).honest → IfOk result (λ found. (found.0 ≡ prefix_len is_open (commit_bytes at (length buffer.old) (D.content disk.now).shown))
        × (found.1 ≡ list_any is_open (drop found.0 (commit_bytes at (length buffer.old) (D.content disk.now).shown)))) }
    ensures most { IfOk result (λ found. found.0 ≤ length buffer.old) }
    ensures gap { IfOk result (λ found. IsTrue found.1 → found.0 < length buffer.old) }
    ensures fault { IfErr result (GaveAny D.gave disk.now) }
{
    disk.read(at, buffer)?;
    let count = count_open(buffer);
    Ok((count, has_open(&buffer[count..])))
}

// How many commit bytes are open before the first closed one.
fn count_open(commits: &[u8]) -> usize
    ensures count { result ≡ prefix_len is_open commits.now }
    ensures most { result ≤ length commits.now }
{
    commits
        .iter()
        .take_while(|commit| **commit == COMMIT_OPEN)
        .count()
}

// Whether some commit byte is open.
fn has_open(commits: &[u8]) -> bool
    ensures { result ≡ list_any is_open commits.now }
{
    commits.contains(&COMMIT_OPEN)
}
