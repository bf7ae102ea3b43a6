//! How a slot is stored.

ghost use Rattle.std.specs.Prelude.{◌≡◌, ◌<◌, ◌^◌, length, option_map};
ghost use Rattle.silt_cuckoo.specs.Slots.{Entry, entry_at, has_tag, tag_at};
ghost use Rattle.silt_cuckoo.specs.Packed.{unpacked, unpacked_all};

/// A slot in six bytes. The place is split into two halves, since a `u32` would align the slot to eight bytes.
#[derive(Clone, Copy)]
pub struct Slot {
    /// 0 in a free slot, else the tag plus 1.
    mark: u16,
    high: u16,
    low: u16,
}

impl Slot {
    /// A slot with no entry.
    pub const FREE: Slot = Slot {
        mark: 0,
        high: 0,
        low: 0,
    };

    /// A slot with an entry.
    pub fn new(tag: u32, place: u32) -> Self
        requires { tag < 2 ^ 15 }
        ensures { unpacked result ≡ Some (tag, place) }
    {
        Slot {
            mark: tag as u16 + 1,
            high: (place / 65536) as u16,
            low: (place % 65536) as u16,
        }
    }

    /// The tag and the place of the entry.
    pub fn entry(self) -> Option<(u32, u32)>
        ensures { result ≡ unpacked self }
    {
        if self.mark == 0 {
            return None;
        }
        let place = self.high as u32 * 65536 + self.low as u32;
        Some((self.mark as u32 - 1, place))
    }

    /// Whether the slot has an entry with this tag.
    pub fn has_tag(self, tag: u32) -> bool
        requires { tag < 2 ^ 15 }
        ensures { result ≡ has_tag tag (unpacked self) }
    {
        self.mark == tag as u16 + 1
    }

    /// The slot with another tag. A free slot stays free.
    pub fn with_tag(self, tag: u32) -> Self
        requires { tag < 2 ^ 15 }
        ensures { unpacked result ≡ option_map (λ (e : Entry). (tag, e.1)) (unpacked self) }
    {
        if self.mark == 0 {
            return self;
        }
        Slot {
            mark: tag as u16 + 1,
            ..self
        }
    }
}

/// The tag and the place in a slot.
#[tactic(auto, using(crate::proofs::Unpacking::entry_of_stored))]
pub fn entry_at(slots: &[Slot], slot: usize) -> Option<(u32, u32)>
    requires { slot < length slots.now }
    ensures { result ≡ entry_at (unpacked_all slots.now) slot }
{
    slots[slot].entry()
}

/// The tag in a slot, or 0 if the slot is free.
pub fn tag_at(slots: &[Slot], slot: usize) -> u32
    requires { slot < length slots.now }
    ensures { result ≡ tag_at (unpacked_all slots.now) slot }
{
    match entry_at(slots, slot) {
        Some((tag, _)) => tag,
        None => 0,
    }
}
