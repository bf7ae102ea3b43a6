// The tags of the slots of a hash region, in two bytes a slot.
ghost use Rattle.std.specs.Prelude.{◌≡◌, ◌+◌, ◌*◌, ◌<◌, ◌≤◌, ◌^◌, IfOk, None, Some, length, replicate, slice_set};
ghost use Rattle.silt_hash_store.specs.Slots.{bucket_has_tag, slot_tag};

use std::alloc::{AllocError, Global};
use std::marker::Model;

// The number that means no tag. Every tag is the number of a bucket, and so less than it.
const NO_TAG: u16 = 0xFFFF;

/// The tag of each slot, or none.
#[derive(Drop)]
pub struct Tags {
    numbers: Vec<u16>,
}

impl Model for Tags {
    ghost use Rattle.std.specs.Prelude.{ℕ, List, Option, map};
    ghost use Rattle.silt_hash_store.specs.Slots.{tag_seen};

    ghost Value = { List (Option ℕ) };

    ghost view = { λ t. map tag_seen t.numbers.items };
}

impl Tags {
    /// This many slots without a tag.
    ///
    /// # Errors
    ///
    /// Out of memory: the tags could not be allocated.
    pub fn new(alloc: Global, slots: u32) -> Result<Self, AllocError>
        ensures { IfOk result (λ tags. tags ≡ replicate slots None) }
    {
        let numbers = vec![in alloc; NO_TAG; slots as usize]?;
        Ok(Tags { numbers })
    }

    /// The tag of a slot. `None` if it has none or is past the last one.
    pub fn get(&self, slot: u32) -> Option<u32>
        ensures { result ≡ slot_tag self.now slot }
    {
        match self.numbers.get(slot as usize) {
            Some(number) if *number != NO_TAG => Some(u32::from(*number)),
            _ => None,
        }
    }

    /// Whether a slot of this bucket has this tag. Nearly always none has. So it compares all four, and does not branch on each.
    pub fn has(&self, bucket: u32, tag: u32) -> bool
        requires bucket { 4 * bucket + 4 ≤ length self.now }
        requires tag { tag < 2 ^ 15 }
        ensures { result ≡ bucket_has_tag self.now bucket tag }
    {
        let start = 4 * bucket as usize;
        let number = tag as u16;
        let slots = &self.numbers[start..start + 4];
        (slots[0] == number) | (slots[1] == number) | (slots[2] == number) | (slots[3] == number)
    }

    /// Gives a slot this tag.
    pub fn set(&mut self, slot: u32, tag: u32)
        requires slot { slot < length self.old }
        requires tag { tag < 2 ^ 15 }
        ensures { self.new ≡ slice_set self.old slot (Some tag) }
    {
        self.numbers[slot as usize] = tag as u16;
    }
}
