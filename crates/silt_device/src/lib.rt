//! The disks of a store: in memory, with a fault, in a file.
//!
//! `MemDisk` is a disk in memory that stops (crashes) at a chosen write or sync. A restart then shows a possible crash image.
//! On a `FaultDisk` one chosen call fails. A `BufferedDisk` buffers adjacent writes for another disk. `FileDisk` is a disk in a
//! file of the system, and `RandomAccessDisk` one in any file. A `DiskSource` opens or makes the disk of a path, as `FileDisks`
//! does for a file.
//!
//! `silt_disk` has the contract of a disk and the layout of a device. The stores depend on it alone. Its names are here too.
//!
//! **Honesty.** An *honest* disk is one that obeys the crash model. The disks in memory are honest. A disk in a file is honest if
//! its file behaves: `RandomAccessFile` says what each call does to the bytes of such a file. For every such file
//! `RandomAccessDisk` keeps each clause of `Disk`. That a file of the system behaves is an assumption: no clause states it or
//! denies it.
#![tactic(auto)]

mod buffered_disk;
mod calls;
mod fault;
mod file;
mod filling;
mod life;
mod marks;
mod memory;
mod source;
mod system;
mod system_disk;
mod write_buffer;
mod write_buffers;

pub use buffered_disk::{BufferFault, BufferedDisk, saves_writes_law};
pub use fault::FaultDisk;
pub use file::{FileFault, RandomAccessDisk};
pub use filling::Filling;
pub use life::{Fill, Stop};
pub use memory::{MemDisk, MemFault};
pub use silt_disk::{
    BadGeometry, Call, CallAt, Disk, Geometry, HEADER_LEN, REGIONS_AT, SECTOR, Stoppable,
    geometry_of, header_bytes, is_formatted, regions_law, slot_start, write_synced,
};
pub use source::{DiskSource, DiskSources, FileDisks};
pub use system::{FileSystem, RandomAccessFile};
pub use system_disk::FileDisk;
