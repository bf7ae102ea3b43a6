// Where a backup is written, and where it lies then.

use silt_jobs::shard_path;
use silt_shards::MOST_SHARDS;
use std::alloc::{AllocError, Global};
use std::path::Path;

/// A folder for the files of a set's backup.
#[derive(Drop)]
pub struct Folder {
    pub path: String,
    /// The paths of the files of the largest set there.
    pub files: Vec<String>,
}

impl Folder {
    // The folder of this path.
    fn of(alloc: Global, path: String) -> Result<Folder, AllocError> {
        let set = format!(in alloc; "{path}/set")?;
        let mut files = Vec::new(alloc);
        for shard in 0..MOST_SHARDS {
            files.push(shard_path(alloc, set.as_str(), shard)?)?;
        }
        Ok(Folder { path, files })
    }

    /// The last name of its path.
    pub fn name(&self) -> &str {
        Path::new(self.path.as_str()).file_name().unwrap_or("")
    }
}

/// The two folders of a set's backups.
#[derive(Drop)]
pub struct Folders {
    /// The one for the next backup.
    pub new: Folder,
    /// The other one: it has the last backup, if there is one.
    pub old: Folder,
}

impl Folders {
    /// The folders of backups at this path, if nothing is there, or a link to one of the two with this text. None if the link is another.
    pub fn of(
        alloc: Global,
        path: &str,
        link: Option<&str>,
    ) -> Result<Option<Folders>, AllocError> {
        let first = Folder::of(alloc, format!(in alloc; "{path}.a")?)?;
        let second = Folder::of(alloc, format!(in alloc; "{path}.b")?)?;
        let names_first = link == Some(first.name());
        if names_first {
            return Ok(Some(Folders {
                new: second,
                old: first,
            }));
        }
        let is_known = link.is_none() || link == Some(second.name());
        match is_known {
            true => Ok(Some(Folders {
                new: first,
                old: second,
            })),
            false => Ok(None),
        }
    }
}

/// Where a backup is written, and where it lies then.
#[derive(Drop)]
pub struct Places {
    /// What gets the name of the backup at the end: the file that is written, or of a set a link to the folder.
    pub draft: String,
    /// The folders of a set's backups.
    pub folders: Option<Folders>,
}

impl Places {
    /// The file that the copy of this store is written to.
    pub fn copy_of(&self, store: usize) -> Option<&str> {
        match &self.folders {
            Some(folders) => Some(folders.new.files.get(store)?.as_str()),
            None => Some(self.draft.as_str()),
        }
    }
}
