// Jobs on a disk, on the disk of a path and on the files of a set, and scripts.
mod background_work;
mod damage;
mod disk_jobs;
mod dump;
mod files;
mod held_data;
mod merge_at;
mod not_opened;
mod script;
mod script_lines;
mod set_jobs;
mod sets;
mod stop;
mod transcript;

pub use background_work::{Steps, Tended, Tending, tend_all, tend_plain};
pub use damage::{damage_at, geometry_on, merge_damage_at, offset_of};
pub use disk_jobs::{
    EndedSession, check_on, end_session, format_on, refuse_disk, run_opened, tend_opened,
};
pub use dump::{dump_file, dump_on};
pub use files::{NewStore, check_file, format_file, run_file, tend_file, tend_on};
pub use held_data::{HeldStore, Holding, may_overwrite};
pub use merge_at::{has_few_regions, refuse_few_regions};
pub use not_opened::{NotOpened, open_on, open_store, why_of};
pub use script::run_script;
pub use script_lines::{Mark, read_script};
pub use set_jobs::{ShardJob, do_each, dump_set};
pub use sets::{
    NewSet, SetFiles, at_shard, few_regions, format_set, is_done, is_set, open_files, refuse_at,
    run_set, shard_path, value_len_of,
};
pub use stop::stop_reported;
pub use transcript::write_script;
