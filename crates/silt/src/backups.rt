// Backups of a served store, or of all stores of a served set.

use crate::backup_places::{Folder, Folders, Places};
use crate::copy_disk::{CopyDisk, CopyFault};
use crate::merge_gate::{GateParts, path_of};
use crate::merge_holds::Hold;
use crate::random_bytes::random_set;
use crate::standard_streams::{StandardStreams, not_its_link};
use silt_backup::{Backup, BackupFault};
use silt_care::{Finds, View};
use silt_disk::Disk;
use silt_event::Counter;
use silt_jobs::{NoBackup, StreamError, Tells, Urgent, is_set};
use silt_session::Board;
use silt_shards::{Mark, Marking, read_mark, write_mark};
use silt_view::Moment;
use silt_words::Service;
use std::alloc::{AllocError, Global};
use std::io::{self, ErrorKind};

/// The length of a sector, of which the first has a shard's mark.
const SECTOR: u64 = 4_096;

/// How often a backup is begun if what it copies is freed meanwhile.
const TRIES: u32 = 3;

/// Backups of a served store, or of all stores of a served set.
#[derive(Drop)]
pub struct Backups<'a, 'f, 'p, H> {
    rt: &'a H,
    board: &'p Board,
    parts: &'p GateParts,
    /// The name of the store's file, or of its set.
    file: &'f str,
    is_set: bool,
    /// Where backups are written, if they are.
    path: Option<&'f str>,
}

// Why a file's operation failed.
fn file_fault(error: io::Error) -> NoBackup {
    match error.kind() {
        ErrorKind::OutOfMemory => NoBackup::NoMemory,
        _ => NoBackup::File(StreamError { error }),
    }
}

// Why a call of a copy's disk failed.
fn disk_fault(fault: &CopyFault) -> NoBackup {
    match fault {
        CopyFault::Ended => NoBackup::Ended,
        CopyFault::File(fault) => file_fault(fault.inner().error()),
    }
}

// Out of memory.
fn no_memory(_: AllocError) -> NoBackup {
    NoBackup::NoMemory
}

// Why a copy was not written, or is none.
fn copy_fault<G: Drop>(fault: BackupFault<G, CopyFault>) -> NoBackup {
    match fault {
        BackupFault::Ended => NoBackup::Ended,
        BackupFault::NoMemory => NoBackup::NoMemory,
        BackupFault::Unread(_) => NoBackup::Unread,
        BackupFault::Device(fault) => disk_fault(&fault),
        BackupFault::Length => NoBackup::Damaged(None),
        BackupFault::Damaged(place) => NoBackup::Damaged(place),
    }
}

impl<'a, 'f, 'p, H: StandardStreams> Backups<'a, 'f, 'p, H> {
    /// The backups that a service asks for.
    pub fn new(
        rt: &'a H,
        board: &'p Board,
        parts: &'p GateParts,
        service: &Service<'f>,
    ) -> Backups<'a, 'f, 'p, H> {
        Backups {
            rt,
            board,
            parts,
            file: service.file,
            is_set: service.shards.is_some(),
            path: service.backup,
        }
    }

    /// Whether backups are written.
    pub fn are_written(&self) -> bool {
        self.path.is_some()
    }

    /// Writes a backup of the stores in these views if one is wanted, and tells people how that ended. Whoever has it written says how long to
    /// go on.
    pub fn write_due<V: View, F: Finds>(&self, views: &[V], finds: &F) {
        let Some(path) = self.path else {
            return;
        };
        if !self.board.is_backup_due() {
            return;
        }
        let mut people = self.rt.errors();
        match self.write(path, views, finds) {
            Ok(commands) => {
                self.board.count(Counter::Backups, 1);
                people.tell(path, &Urgent::BackedUp(commands));
            }
            Err(why) => people.tell(path, &Urgent::NotBackedUp(why)),
        }
        self.board.backup_ended();
    }

    // Writes a backup. Returns how many commands the stores had accepted at its moment.
    fn write<V: View, F: Finds>(
        &self,
        path: &str,
        views: &[V],
        finds: &F,
    ) -> Result<u64, NoBackup> {
        let places = self.places(path, views.len())?;
        for _ in 0..TRIES {
            let written = self.write_once(path, &places, views, finds);
            self.hold_all(views.len(), Hold::Free);
            match written {
                Err(NoBackup::Moved) => {}
                ended => return ended,
            }
        }
        Err(NoBackup::Moved)
    }

    // The files of the served stores.
    fn own_files(&self, stores: usize) -> Result<Vec<String>, AllocError> {
        let alloc = self.rt.alloc();
        let mut files = Vec::new(alloc);
        for store in 0..stores {
            let shard = u32::try_from(store).unwrap_or(u32::MAX);
            files.push(path_of(alloc, self.file, self.is_set.then_some(shard))?)?;
        }
        Ok(files)
    }

    // Where a backup of so many stores goes, if none of that is a store's own.
    fn places(&self, path: &str, stores: usize) -> Result<Places, NoBackup> {
        let alloc = self.rt.alloc();
        let own = self.own_files(stores).map_err(no_memory)?;
        let draft = format!(in alloc; "{path}.new").map_err(no_memory)?;
        if self.is_own(&own, path) || self.is_own(&own, draft.as_str()) {
            return Err(NoBackup::Own);
        }
        let folders = match self.is_set {
            true => Some(self.folders(path, &own)?),
            false => None,
        };
        Ok(Places { draft, folders })
    }

    // The folders of a set's backups, if no file there is a store's own.
    fn folders(&self, path: &str, own: &[String]) -> Result<Folders, NoBackup> {
        let link = self.rt.link_at(path).map_err(file_fault)?;
        let text = link.as_ref().map(|text| text.as_str());
        let known = Folders::of(self.rt.alloc(), path, text).map_err(no_memory)?;
        let Some(folders) = known else {
            return Err(file_fault(not_its_link()));
        };
        if self.has_own(own, &folders.new.files) || self.has_own(own, &folders.old.files) {
            return Err(NoBackup::Own);
        }
        Ok(folders)
    }

    // From now on the merger of each of so many stores may do that.
    fn hold_all(&self, stores: usize, hold: Hold) {
        for store in 0..stores {
            self.parts.holds().set(store, hold);
        }
    }

    // Whether this path is that of one of the stores' own files.
    fn is_own(&self, own: &[String], path: &str) -> bool {
        own.iter()
            .any(|file| self.rt.is_same_file(path, file.as_str()))
    }

    // Whether one of these paths is that of one of the stores' own files.
    fn has_own(&self, own: &[String], paths: &[String]) -> bool {
        paths.iter().any(|path| self.is_own(own, path.as_str()))
    }

    // Writes a backup, if what it copies is not freed meanwhile. What was written of it is removed if not, or if it does not get its name.
    // At last the folder of that name is synced, and the backup of a set that has been replaced is removed.
    fn write_once<V: View, F: Finds>(
        &self,
        path: &str,
        places: &Places,
        views: &[V],
        finds: &F,
    ) -> Result<u64, NoBackup> {
        self.may_begin(path, places).map_err(file_fault)?;
        let moments = self.moments(views)?;
        self.make_folder(places).map_err(file_fault)?;
        let written = self.write_files(path, places, views, &moments, finds);
        if written.is_err() {
            self.remove_new(places);
        }
        written?;
        self.rt.sync_folder(path).map_err(file_fault)?;
        if let Some(folders) = &places.folders {
            self.remove_folder(&folders.old);
        }
        Ok(commands_of(&moments))
    }

    // Writes a copy of each store, and gives them the name of the backup.
    fn write_files<V: View, F: Finds>(
        &self,
        path: &str,
        places: &Places,
        views: &[V],
        moments: &[Moment],
        finds: &F,
    ) -> Result<(), NoBackup> {
        let disks = self.begin_each(places, views, moments, finds)?;
        self.finish_each(disks, views, moments, finds)?;
        self.give_name(path, places).map_err(file_fault)
    }

    // An error if a backup is not to take the place of what is at its path. Before the files in the older folder of a set are removed, it
    // is settled that the path names the other one.
    fn may_begin(&self, path: &str, places: &Places) -> io::Result<()> {
        match &places.folders {
            Some(_) => self.rt.sync_folder(path),
            None => self.rt.may_replace(path),
        }
    }

    // Makes an empty folder for the files of a set, and the link that gets the name of the backup. What an earlier backup left of both is
    // removed. If there is no link, there is no folder.
    fn make_folder(&self, places: &Places) -> io::Result<()> {
        let Some(folders) = &places.folders else {
            return Ok(());
        };
        let folder = &folders.new;
        self.rt.remove_folder(folder.path.as_str(), &folder.files)?;
        self.rt.make_folder(folder.path.as_str())?;
        let made = self.rt.make_link(folder.name(), places.draft.as_str());
        if made.is_err() {
            self.remove_folder(folder);
        }
        made
    }

    // What the stores in these views are at one moment. From before it on no merger does a step.
    fn moments<V: View>(&self, views: &[V]) -> Result<Vec<Moment>, NoBackup> {
        let mut moments = rooms_for(self.rt.alloc(), views).map_err(no_memory)?;
        self.hold_all(views.len(), Hold::Steps);
        if V::note_moments(views, &mut moments).is_err() {
            return Err(NoBackup::Unread);
        }
        if moments.iter().any(|moment| moment.facts.failed > 0) {
            return Err(NoBackup::Failed);
        }
        Ok(moments)
    }

    // Begins the copy of each store: it has what a step of a merge could free.
    fn begin_each<V: View, F: Finds>(
        &self,
        places: &Places,
        views: &[V],
        moments: &[Moment],
        finds: &F,
    ) -> Result<Vec<CopyDisk<'p>>, NoBackup> {
        let set = self.new_set().map_err(file_fault)?;
        let mut disks = Vec::new(self.rt.alloc());
        for (view, moment) in views.iter().zip(moments.iter()) {
            let store = disks.len();
            let Some(path) = places.copy_of(store) else {
                return Err(NoBackup::Damaged(None));
            };
            let backup = Backup { view, moment };
            let disk = self.begin(&backup, path, set, finds)?;
            let Ok(()) = disks.push(disk) else {
                return Err(NoBackup::NoMemory);
            };
            self.parts.holds().set(store, Hold::Merges);
        }
        Ok(disks)
    }

    // Writes the rest of each copy, and examines it.
    fn finish_each<V: View, F: Finds>(
        &self,
        disks: Vec<CopyDisk<'p>>,
        views: &[V],
        moments: &[Moment],
        finds: &F,
    ) -> Result<(), NoBackup> {
        let mut store = 0_usize;
        for disk in disks {
            let (Some(view), Some(moment)) = (views.get(store), moments.get(store)) else {
                return Err(NoBackup::Damaged(None));
            };
            let backup = Backup { view, moment };
            self.finish(&backup, disk, finds)?;
            self.parts.holds().set(store, Hold::Free);
            store = store.saturating_add(1);
        }
        Ok(())
    }

    // The name of the set that the files of a backup are, if the stores are a set.
    fn new_set(&self) -> io::Result<Option<[u8; 16]>> {
        match self.is_set {
            true => Ok(Some(random_set(self.rt)?)),
            false => Ok(None),
        }
    }

    // Makes the file of a copy, and writes what a step of a merge could free. A shard is marked as one of the new set.
    fn begin<V: View, F: Finds>(
        &self,
        backup: &Backup<'_, V>,
        path: &str,
        set: Option<[u8; 16]>,
        finds: &F,
    ) -> Result<CopyDisk<'p>, NoBackup> {
        let len = backup.moment.geometry.size();
        let file = self.rt.make_disk(path, len).map_err(file_fault)?;
        let mut disk = CopyDisk::new(file, self.board);
        backup
            .begin(self.rt.alloc(), &mut disk, finds)
            .map_err(copy_fault)?;
        let marked = mark_anew(&mut disk, set);
        marked.map_err(|fault| disk_fault(&fault))?;
        Ok(disk)
    }

    // Writes the rest of a copy, and examines it.
    fn finish<V: View, F: Finds>(
        &self,
        backup: &Backup<'_, V>,
        disk: CopyDisk<'p>,
        finds: &F,
    ) -> Result<(), NoBackup> {
        let mut disk = disk;
        match backup.finish(self.rt.alloc(), &mut disk, finds) {
            Ok(()) => Ok(()),
            Err(BackupFault::Damaged(_)) if has_merged(backup) => Err(NoBackup::Moved),
            Err(fault) => Err(copy_fault(fault)),
        }
    }

    // Gives the copy the name of the backup, in one step. The files of a set and their folder are settled before.
    fn give_name(&self, path: &str, places: &Places) -> io::Result<()> {
        if let (Some(_), Some(file)) = (&places.folders, places.copy_of(0)) {
            self.rt.sync_folder(file)?;
            self.rt.sync_folder(path)?;
        }
        self.rt.rename(places.draft.as_str(), path)
    }

    // Removes what was written.
    fn remove_new(&self, places: &Places) {
        self.rt.remove(places.draft.as_str());
        if let Some(folders) = &places.folders {
            self.remove_folder(&folders.new);
        }
    }

    // Removes a folder with the files of a set. What stays of it is removed by the next backup that goes there.
    fn remove_folder(&self, folder: &Folder) {
        let _ = self.rt.remove_folder(folder.path.as_str(), &folder.files);
    }
}

// Room for what each of these stores is at a moment.
fn rooms_for<V: View>(alloc: Global, views: &[V]) -> Result<Vec<Moment>, AllocError> {
    let mut rooms = Vec::new(alloc);
    for view in views {
        rooms.push(Moment::room(alloc, view.geometry())?)?;
    }
    Ok(rooms)
}

// How many commands the stores had accepted together.
fn commands_of(moments: &[Moment]) -> u64 {
    let mut commands = 0_u64;
    for moment in moments {
        commands = commands.saturating_add(moment.facts.commands);
    }
    commands
}

// Whether a merge has ended since the moment of a backup, so that regions were freed.
fn has_merged<V: View>(backup: &Backup<'_, V>) -> bool {
    let (body, _) = backup.view.named();
    body.sorted != backup.moment.body.sorted
}

// Marks a shard as one of this set, if there is one. The file of a store has room for a mark.
fn mark_anew(disk: &mut CopyDisk<'_>, set: Option<[u8; 16]>) -> Result<(), CopyFault> {
    let Some(set) = set else {
        return Ok(());
    };
    match read_mark(disk)? {
        Marking::Marked(mark)
            if is_set(mark.count) && mark.shard < mark.count && disk.len() >= SECTOR => {
            write_mark(disk, &Mark { set, ..mark })
        }
        _ => Ok(()),
    }
}
