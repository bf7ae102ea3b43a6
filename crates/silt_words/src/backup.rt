// Where backups of a served store may go.
ghost use Rattle.std.specs.Prelude.{◌≡◌, bytes_eq};
ghost use Rattle.silt_words.specs.Backups.{draft_of, may_hold_backup};

/// Whether this file is the one that a backup at this path is written to first.
pub fn is_draft(file: &str, path: &str) -> bool
    ensures { result ≡ bytes_eq file.now (draft_of path.now) }
{
    match file.as_bytes().strip_suffix(b".new".as_slice()) {
        Some(name) => name == path.as_bytes(),
        None => false,
    }
}

/// Whether backups of the store in this file may be written to this path: it is not empty, and the store lies neither there
/// nor where a backup is written first.
pub fn may_hold_backup(file: &str, path: &str) -> bool
    ensures { result ≡ may_hold_backup file.now path.now }
{
    !path.is_empty() && path != file && !is_draft(file, path)
}
