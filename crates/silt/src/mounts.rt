// The file systems that are mounted, as the system lists them, and which of them are known not to obey the crash model.
ghost use Rattle.std.specs.Prelude.{◌≡◌, IfOk, map, option_map};
ghost use Rattle.silt.specs.Common.{words_of};
ghost use Rattle.silt.specs.Mounts.{IsMountOf, hyphen_at, mount_on, named_mount, weakness_of, field_at};

use std::alloc::{AllocError, Global};
use std::fmt;

/// One mounted file system, as a line of `/proc/self/mountinfo` names it.
#[derive(Clone, Copy, Debug)]
pub struct Mount<'a> {
    /// The numbers of its device, as `8:1`.
    pub device: &'a [u8],
    /// Its type, as `ext4`.
    pub kind: &'a [u8],
}

// The words of a line: the parts between single spaces.
fn words_of<'a>(alloc: Global, line: &'a [u8]) -> Result<Vec<&'a [u8]>, AllocError>
    ensures { IfOk result (λ words. map (λ word. word.now) words.items ≡ words_of line.now) }
{
    line.split(|byte| *byte == b' ').collect(alloc)
}

// Where the first word is that is a hyphen.
fn hyphen_at(words: &[&[u8]]) -> Option<usize>
    ensures { result ≡ hyphen_at words.now }
{
    words.iter().position(|word| *word == b"-".as_slice())
}

// The word at this place, if there is one.
fn field_at<'a>(words: &[&'a [u8]], at: usize) -> Option<&'a [u8]>
    ensures { option_map (λ word. word.now) result ≡ field_at words.now at }
{
    words.get(at).copied()
}

// The file system that these words name.
fn mount_on<'a>(words: &[&'a [u8]]) -> Option<Mount<'a>>
    ensures { option_map named_mount result ≡ mount_on words.now }
{
    let device = field_at(words, 2)?;
    let hyphen = hyphen_at(words)?;
    let kind = field_at(words, hyphen + 1)?;
    Some(Mount { device, kind })
}

/// The file system of a line: its third word, and the word behind the first one that is a hyphen. Words are the parts between
/// single spaces.
pub fn mount_of<'a>(alloc: Global, line: &'a [u8]) -> Result<Option<Mount<'a>>, AllocError>
    ensures { IfOk result (λ mount. IsMountOf line.now (option_map named_mount mount)) }
{
    let words = words_of(alloc, line)?;
    Ok(mount_on(&words))
}

/// Why the system may not keep what it has synced.
#[derive(Clone, Copy, Debug, PartialEq, Eq)]
pub enum Weakness {
    /// The file system lies in memory.
    InMemory,
    /// Another machine has the file system.
    Remote,
    /// The file system is ext4, and has no journal.
    NoJournal,
}

/// Why a file system of this type may not keep what it has synced, if that is known of all of that type.
pub fn weakness_of(kind: &str) -> Option<Weakness>
    ensures { result ≡ weakness_of kind.now }
{
    match kind {
        "tmpfs" | "ramfs" => Some(Weakness::InMemory),
        "nfs"
        | "nfs4"
        | "cifs"
        | "smb3"
        | "9p"
        | "ceph"
        | "afs"
        | "virtiofs"
        | "fuse.sshfs"
        | "fuse.s3fs"
        | "fuse.rclone"
        | "fuse.glusterfs" => Some(Weakness::Remote),
        _ => None,
    }
}

impl fmt::Display for Weakness {
    fn fmt<W: fmt::Write>(&self, f: &mut fmt::Formatter<W>) -> fmt::Result {
        f.write_str(match self {
            Weakness::InMemory => "it lies in memory, and is gone when the machine stops",
            Weakness::Remote => {
                "it lies on another machine, which may lose what was acknowledged if it stops"
            }
            Weakness::NoJournal => {
                "it lies on ext4 without a journal, which may lose it, or what was acknowledged, in a power cut"
            }
        })
    }
}
