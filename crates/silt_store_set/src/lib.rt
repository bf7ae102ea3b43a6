//! A key-value store on a device, whose acknowledged commands survive any crash.
//!
//! [`Core`] is one life of a store, a run from opening to crash or close. `open` opens it on a device. It then does
//! puts, deletes, flushes, gets and steps of background work, and `close` gives the device back. Every later get of the
//! life sees a put or delete with the reply `Accepted`. A later successful flush acknowledges it, and from then on it
//! survives any crash. A crash may lose only the last accepted commands since the last flush, never one of them alone
//! out of the middle.
//!
//! Each call has one clause (`Does`, in specs/CoreState.antt) for what it returns and why, what it changes, and which
//! crash images are possible, also if it is refused. [`Core::run`] does events in order. [`lives`] does lives in order,
//! and ends each by a stop: a crash before or within any chosen device call.
//!
//! This crate is the library's one door. It has what a caller needs: `format` makes a store on a disk, `check` reports
//! what a store consists of, and there are disks in memory and in files, [`Geometry`], [`Key`] and the errors.
//!
//! A row goes to the active log. If the log is full, or its table cannot place the row, the log is frozen and a new one
//! is started. [`Core::convert`] rewrites the oldest frozen log as a hash store, one slot a call, and then the log's
//! region is free again. [`Core::merge`] merges all hash stores and the sorted store into a new sorted store, one slot
//! or one key a call, and then their regions are free again. It compares what it reads of each store with the store's
//! digest: a step that finds another one is refused, before a manifest names the new store. A conversion and a merge may
//! be in progress at the same time; neither touches the other's work. Background work in progress does not survive a
//! crash: it begins anew. [`Core::wants_convert`] and [`Core::wants_merge`] return whether there is a step to do, and
//! [`Core::may_merge`] whether there are enough hash stores to begin a merge. [`Core::facts`] returns the numbers of a store.
#![tactic(auto)]

mod answerer;
mod basis;
mod device_entries;
mod laws;
mod life;
mod remembered;
mod replies;
mod store_core;

pub use crate::store_core::{Core, Look, OpenFault};
pub use answerer::Served;
pub use device_entries::read_entries;
pub use laws::failed_law;
pub use life::lives;
pub use replies::{accepted, progressed, swapped};
pub use silt_device::{FileDisk, MemDisk};
pub use silt_disk::{BadGeometry, Disk, Geometry};
pub use silt_event::{Answerer, Event, Facts, LifeReply, Place, Progress, Refusal, Reply, Report};
pub use silt_frame::{Key, Value};
pub use silt_hasher::LentBytes;
pub use silt_recovery::{FormatError, FormatFault, OpenError, check, format};
