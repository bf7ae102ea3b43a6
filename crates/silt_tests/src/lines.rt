// Lives that several tests run, and the replies to them. Each line has the number of times that it
// is asked.

use crate::life_lines::Line;
use crate::script::Printed;
use silt_device::Geometry;
use silt_fixtures::of_regions;
use silt_store_set::Progress;
use std::test::Fail;

pub(crate) const MOVED: Printed = Printed::Progress(Progress::Moved);

pub(crate) const FINISHED: Printed = Printed::Progress(Progress::Finished);

pub(crate) const IDLE: Printed = Printed::Progress(Progress::Idle);

/// Five puts and a flush, and then a conversion: forty calls. The last put freezes the full log. It
/// makes the three calls of a flush, two for the commit bytes of the next log, six for the manifest, and
/// two for its row. Each of the eight slots takes one write. The last step makes a sync and the six
/// calls of the manifest.
pub(crate) const CONVERTED: [(Line, u8); 7] = [
    (Line::Put(1, 1), 1),
    (Line::Put(2, 2), 1),
    (Line::Put(3, 3), 1),
    (Line::Put(4, 4), 1),
    (Line::Put(5, 5), 1),
    (Line::Flush, 1),
    (Line::Convert, 9),
];

/// The replies to that life, and to a get of key 2 and one more step after it, which makes no
/// device call.
pub(crate) const CONVERTED_TOLD: [(Printed, u8); 10] = [
    (Printed::Accepted(1), 1),
    (Printed::Accepted(2), 1),
    (Printed::Accepted(3), 1),
    (Printed::Accepted(4), 1),
    (Printed::Accepted(5), 1),
    (Printed::Acknowledged(5), 1),
    (MOVED, 8),
    (FINISHED, 1),
    (Printed::Value(0, 2), 1),
    (IDLE, 1),
];

/// That get and that step, and the swaps below.
pub(crate) const ASKED_BEHIND: [Line; 5] = [
    Line::Get(2),
    Line::Convert,
    SWAP_CONVERTED,
    SWAP_FOR_NONE,
    SWAP_OF_NONE,
];

/// Two merges over logs of one row: 106 calls. The second put freezes the first log, which becomes
/// the hash store of the first merge. A delete and another put freeze two more logs, and the second
/// merge takes the hash stores of these. The last put is still in a log.
pub(crate) const MERGED_TWICE: [(Line, u8); 13] = [
    (Line::Put(1, 0x0102), 1),
    (Line::Put(2, 0x0304), 1),
    (Line::Convert, 9),
    (Line::Merge, 10),
    (Line::Delete(1), 1),
    (Line::Convert, 9),
    (Line::Put(3, 0x0506), 1),
    (Line::Convert, 9),
    (Line::Merge, 19),
    (Line::Get(1), 1),
    (Line::Get(2), 1),
    (Line::Get(3), 1),
    (Line::Flush, 1),
];

/// Two more hash stores are made while a merge is in progress, which leaves them alone: 95 calls.
pub(crate) const CONVERTED_MEANWHILE: [(Line, u8); 11] = [
    (Line::Put(1, 1), 1),
    (Line::Put(2, 2), 1),
    (Line::Convert, 9),
    (Line::Put(1, 3), 1),
    (Line::Merge, 3),
    (Line::Convert, 9),
    (Line::Put(2, 4), 1),
    (Line::Convert, 9),
    (Line::Merge, 7),
    (Line::Get(1), 1),
    (Line::Get(2), 1),
];

pub(crate) const CONVERTED_MEANWHILE_TOLD: [(Printed, u8); 15] = [
    (Printed::Accepted(1), 1),
    (Printed::Accepted(2), 1),
    (MOVED, 8),
    (FINISHED, 1),
    (Printed::Accepted(3), 1),
    (MOVED, 3),
    (MOVED, 8),
    (FINISHED, 1),
    (Printed::Accepted(4), 1),
    (MOVED, 8),
    (FINISHED, 1),
    (MOVED, 6),
    (FINISHED, 1),
    (Printed::Value(0, 3), 1),
    (Printed::Value(0, 4), 1),
];

/// A swap after that conversion, of a value in the hash store. The active log takes its row, by two
/// calls.
pub(crate) const SWAP_CONVERTED: Line = Line::Swap(2, 2, 6);

/// A swap of that value for none, and one of none for a value. The same log takes their rows.
pub(crate) const SWAP_FOR_NONE: Line = Line::Swap(2, 6, 0);

pub(crate) const SWAP_OF_NONE: Line = Line::Swap(2, 0, 7);

pub(crate) const SWAPS_CONVERTED: [Line; 3] = [SWAP_CONVERTED, SWAP_FOR_NONE, SWAP_OF_NONE];

/// The replies to these swaps.
pub(crate) const SWAPS_TOLD: [Printed; 3] = [
    Printed::Accepted(6),
    Printed::Accepted(7),
    Printed::Accepted(8),
];

/// A swap after the two merges, of a value in the sorted store. The active log is full and no row
/// waits. So the swap makes two calls for the commit bytes of the next log, six for the manifest, and two
/// for the row.
pub(crate) const SWAP_MERGED: Line = Line::Swap(2, 0x0304, 0x0607);

/// A swap after the merge beside conversions, of a value in a hash store. The active log is full
/// and its row waits. So the swap makes three calls for the flush, two for the commit bytes of the next
/// log, six for the manifest, and two for the row.
pub(crate) const SWAP_MEANWHILE: Line = Line::Swap(1, 3, 5);

/// A swap of the new value for none. Its row freezes one more log, by as many calls.
pub(crate) const SWAP_MEANWHILE_FOR_NONE: Line = Line::Swap(1, 5, 0);

/// Two logs of one row, and two hash regions.
pub(crate) fn of_two_hash_stores() -> Result<Geometry, Fail> {
    of_regions(1, 2, 2, 4)
}

/// Three logs of one row, and three hash regions.
pub(crate) fn of_three_hash_stores() -> Result<Geometry, Fail> {
    of_regions(1, 3, 3, 8)
}
