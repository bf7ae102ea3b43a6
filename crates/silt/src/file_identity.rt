// Which file a path means.

use std::fs;
use std::os::unix::fs::{FileTypeExt, MetadataExt};
use std::rt::Files;

/// What tells a file that can hold a store from all others: its device, and its inode there.
#[derive(Clone, Copy, PartialEq, Eq)]
pub struct Identity {
    device: u64,
    inode: u64,
}

/// The regular file or block device at this path, if there is one.
pub fn identity_at<R: Files>(files: &R, path: &str) -> Option<Identity> {
    let found = fs::metadata(files, path).ok()?;
    if !found.is_file() && !found.file_type().is_block_device() {
        return None;
    }
    Some(Identity {
        device: found.dev(),
        inode: found.ino(),
    })
}
