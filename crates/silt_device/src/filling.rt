// Writing all bytes of a file, so that the system has room for each of them before a store needs it.
ghost use Rattle.std.specs.Prelude.{◌≡◌, ◌+◌, ◌<◌, ◌≤◌, ◌^◌, ℕ, length, IfOk, IsErr, IsTrue, OnOk};
ghost use Rattle.silt_disk.specs.Disk.{size};
ghost use Rattle.silt_device.specs.File.{IsFilledFile, IsWritten};
ghost use Rattle.silt_device.specs.System.{ShowsAlike};

use crate::system::RandomAccessFile;
use std::alloc::Global;
use std::io;

/// How many bytes are written at once.
const PIECE: usize = 1_048_576;

/// Shows how far the filling of a file is. Nothing depends on it.
pub trait Filling {
    /// So many more bytes were written, of this many.
    fn filled(&self, count: usize, len: u64);
}

/// Gives a file of `old` bytes this length, and writes all of its bytes. Bytes of the file up to this length stay, and new bytes are
/// zeros. The file is synced before it is truncated, and at the end.
///
/// # Errors
///
/// The error of the system, if the file cannot be resized, read, written or synced. An error of kind out of memory, if a piece of
/// 1 MiB cannot be allocated.
pub fn fill_file<F: RandomAccessFile, P: Filling>(
    alloc: Global,
    file: &mut F,
    old: u64,
    len: u64,
    progress: &P,
) -> io::Result<()>
    requires { IsTrue (F.content file.old).honest → size (F.content file.old) ≡ old }
    ensures filled { OnOk result (IsFilledFile F.content F.written_at F.synced file.old len file.new) }
    ensures too_long { 2 ^ 63 ≤ len → IsErr result }
{
    let mut piece = vec![in alloc; 0u8; PIECE]?;
    if len < old {
        fill_shorter(file, &mut piece, len, progress)
    } else {
        fill_longer(file, &mut piece, len, progress)
    }
}

// Writes what the file shows up to this length again, and truncates the file once that is synced.
fn fill_shorter<F: RandomAccessFile, P: Filling>(
    file: &mut F,
    piece: &mut [u8],
    len: u64,
    progress: &P,
) -> io::Result<()>
    requires fits { IsTrue (F.content file.old).honest → len ≤ size (F.content file.old) }
    requires room { 0 < length piece.old }
    ensures filled { OnOk result (IsFilledFile F.content F.written_at F.synced file.old len file.new) }
    ensures too_long { 2 ^ 63 ≤ len → IsErr result }
{
    write_again(file, piece, len, progress)?;
    file.settle()?;
    file.resize(len)?;
    file.settle()
}

// Gives the file this length, and writes all of it.
fn fill_longer<F: RandomAccessFile, P: Filling>(
    file: &mut F,
    piece: &mut [u8],
    len: u64,
    progress: &P,
) -> io::Result<()>
    requires room { 0 < length piece.old }
    ensures filled { OnOk result (IsFilledFile F.content F.written_at F.synced file.old len file.new) }
    ensures too_long { 2 ^ 63 ≤ len → IsErr result }
{
    file.resize(len)?;
    write_again(file, piece, len, progress)?;
    file.settle()
}

// Writes what the file shows up to this length again, piece by piece.
fn write_again<F: RandomAccessFile, P: Filling>(
    file: &mut F,
    piece: &mut [u8],
    len: u64,
    progress: &P,
) -> io::Result<()>
    requires fits { IsTrue (F.content file.old).honest → len ≤ size (F.content file.old) }
    requires room { 0 < length piece.old }
    ensures same { OnOk result (ShowsAlike (F.content file.old) (F.content file.new)) }
    ensures written { OnOk result (IsWritten F.written_at file.old len file.new) }
{
    let mut at: u64 = 0;
    while at < len {
        let count = piece.len().min((len - at) as usize);
        write_piece(file, at, &mut piece[..count])?;
        at += count as u64;
        progress.filled(count, len);
    }
    Ok(())
}

// Writes what the file shows in this range again.
fn write_piece<F: RandomAccessFile>(file: &mut F, at: u64, piece: &mut [u8]) -> io::Result<()>
    requires { IsTrue (F.content file.old).honest → at + length piece.old ≤ size (F.content file.old) }
    ensures same { OnOk result (ShowsAlike (F.content file.old) (F.content file.new)) }
    ensures written { OnOk result (F.written_at file.old at piece.new file.new) }
{
    file.read_all_from(piece, at)?;
    file.write_whole_at(piece, at)
}
