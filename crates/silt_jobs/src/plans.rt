// Geometries of six numbers, and plans of stores and sets for so many keys.
mod geometry;
mod merge_writes;
mod obstacle;
mod plan;
mod plan_cost;
mod set_plan;

pub use geometry::{NumbersText, geometry_of, out_of_limits};
pub use merge_writes::{
    can_write, fewest_buckets, fits_writes, is_plannable, least_writes, needs_buckets,
    rows_between_merges, writes_more,
};
pub use obstacle::obstacle_of;
pub use plan::{BUCKET_COUNTS, MOST_KEYS, end_plan, geometry_planned, memory_planned, write_plan};
pub use plan_cost::{PlanCost, Remedy, cost_of};
pub use set_plan::{least_shards, share_of, write_set_plan};
