// Numbers of the stores that are held in memory.
ghost use Rattle.std.specs.Prelude.{◌≡◌};
ghost use Rattle.silt_engine.specs.Numbers.{merge_steps, slots_converted};

use crate::Engine;
use silt_manifest::Body;

impl Engine {
    /// The current manifest record.
    pub fn body(&self) -> Body
        ensures { result ≡ self.now.manifest.current }
    {
        self.manifest.current()
    }

    /// How many slots the conversion in progress has written; 0 if none is in progress.
    pub fn slots_converted(&self) -> u32
        ensures { result ≡ slots_converted self.now.converting }
    {
        match &self.converting {
            Some(conversion) => conversion.written(),
            None => 0,
        }
    }

    /// How many steps the merge in progress has taken; 0 if none is in progress.
    pub fn merge_steps(&self) -> u64
        ensures { result ≡ merge_steps self.now.merging }
    {
        match &self.merging {
            Some(merge) => merge.steps(),
            None => 0,
        }
    }
}
