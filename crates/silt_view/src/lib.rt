//! What a thread may see of a store that is served, besides events: a [`View`].
//!
//! A view asks a store through its disk: [`Viewed`] says what a store on such a disk shows. Disks in memory and in files are viewed.
//! A [`Moment`] is what a copy of a store needs of one moment.
#![tactic(auto)]

mod moment;
mod view;
mod viewed;

pub use moment::{FRONT_LEN, Moment};
pub use view::View;
pub use viewed::{ReadFault, Viewed, read_within};
