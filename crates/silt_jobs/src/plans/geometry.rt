// Geometries of six numbers, and which of the numbers is out of its limits.
ghost use Rattle.std.specs.Prelude.{◌≡◌, MatchResult};
ghost use Rattle.silt_jobs.specs.Common.{InLimits};
ghost use Rattle.silt_jobs.specs.Jobs.{shape_asked};

use silt_disk::{BadGeometry, Geometry};
use silt_words::Numbers;
use std::fmt;

/// The geometry of the numbers. It is refused exactly if one of them is out of its limits.
pub fn geometry_of(numbers: &Numbers) -> Result<Geometry, BadGeometry>
    ensures { MatchResult result (λ geometry. (geometry ≡ shape_asked numbers.now) × InLimits (shape_asked numbers.now)) (λ _. ¬ InLimits (shape_asked numbers.now)) }
{
    Geometry::new(
        numbers.value_len,
        numbers.buckets,
        numbers.log_capacity,
        numbers.logs,
        numbers.hashes,
        numbers.sorted_capacity,
    )
}

/// A number that is out of its limits, by its name on the command line.
#[derive(Clone, Copy, Debug, PartialEq, Eq)]
pub struct OutOfLimits {
    pub name: &'static str,
    pub value: u32,
    pub least: u32,
    pub most: u32,
}

impl fmt::Display for OutOfLimits {
    fn fmt<W: fmt::Write>(&self, f: &mut fmt::Formatter<W>) -> fmt::Result {
        let (name, value) = (self.name, self.value);
        let (least, most) = (self.least, self.most);
        write!(f, "{name} is {value}, and may be {least} to {most}")?;
        match name {
            "B" => f.write_str(", a power of two"),
            "CAP" => f.write_str(", four times B at most"),
            _ => Ok(()),
        }
    }
}

/// The first of the numbers that is out of its limits, if one is.
pub fn out_of_limits(numbers: &Numbers) -> Option<OutOfLimits> {
    let rows = numbers.buckets.saturating_mul(4);
    for (name, value, least, most) in [
        ("V", numbers.value_len, 1, 4096),
        ("B", numbers.buckets, 2, 32_768),
        ("CAP", numbers.log_capacity, 1, rows),
        ("NL", numbers.logs, 2, 8),
        ("NH", numbers.hashes, 1, 16),
        ("S", numbers.sorted_capacity, 1, 16_777_216),
    ] {
        let is_fit = name != "B" || value.is_power_of_two();
        if value < least || value > most || !is_fit {
            return Some(OutOfLimits {
                name,
                value,
                least,
                most,
            });
        }
    }
    None
}

/// The six numbers of a geometry, each after its name on the command line.
#[derive(Clone, Copy)]
pub struct NumbersText(pub Geometry);

impl fmt::Display for NumbersText {
    fn fmt<W: fmt::Write>(&self, f: &mut fmt::Formatter<W>) -> fmt::Result {
        let g = &self.0;
        let (value_len, buckets, capacity) = (g.value_len(), g.buckets(), g.log_capacity());
        let (logs, hashes, most) = (g.logs(), g.hashes(), g.sorted_capacity());
        write!(f, "V {value_len}, B {buckets}, CAP {capacity}, ")?;
        write!(f, "NL {logs}, NH {hashes}, S {most}")
    }
}
