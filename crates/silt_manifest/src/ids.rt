// A short list of region numbers without an allocation.
ghost use Rattle.std.specs.Prelude.{◌≡◌, ◌==◌, ◌+◌, ◌*◌, ◌<◌, ◌≤◌, [], ◌∷◌, length, take, IfSome, IfNone};
ghost use Rattle.silt_disk.specs.Numbers.{number_at};
ghost use Rattle.silt_manifest.specs.IdList.{id_room};
ghost use Rattle.silt_manifest.specs.Numbers.{ids_at};

use byteorder::{BigEndian, ByteOrder};
use std::marker::Model;

// The greatest number of hash regions of a device.
const ROOM: usize = 16;

/// The numbers of up to 16 regions, from the newest.
#[derive(Clone, Copy, Debug, PartialEq, Eq)]
pub struct Ids {
    numbers: [u32; ROOM],
    count: usize,
}

impl Model for Ids {
    ghost use Rattle.std.specs.Prelude.{ℕ, ◌-◌, ◌++◌, List, length, take, replicate};

    ghost Value = { List ℕ };

    ghost use Rattle.silt_manifest.specs.IdList.{IsIdList, id_room, numbers_back, count_back};

    ghost view = { λ ids. take ids.count ids.numbers };

    ghost inverse = { λ numbers. record {
      numbers = numbers ++ replicate (id_room - length numbers) 0;
      count = length numbers;
    } };

    ghost invariant = { λ ids. IsIdList ids.numbers ids.count };

    ghost inverse_ok = { λ ids filled i. record {
      numbers = numbers_back ids.numbers ids.count filled i;
      count = count_back ids.numbers ids.count filled i;
    } };
}

impl Ids {
    /// No region.
    pub fn new() -> Self
        ensures { result ≡ [] }
    {
        Ids {
            numbers: [0; ROOM],
            count: 0,
        }
    }

    /// The number of regions.
    pub fn len(&self) -> usize
        ensures value { result ≡ length self.now }
        ensures most { length self.now ≤ id_room }
    {
        self.count
    }

    /// Whether there are none.
    pub fn is_empty(&self) -> bool
        ensures { result ≡ (length self.now == 0) }
    {
        self.count == 0
    }

    /// The numbers, from the newest.
    pub fn as_slice(&self) -> &[u32]
        ensures value { result.now ≡ self.now }
        ensures most { length self.now ≤ id_room }
    {
        &self.numbers[..self.count]
    }

    /// Puts a number in front, as the newest.
    pub fn push_front(&mut self, id: u32)
        requires { length self.old < id_room }
        ensures { self.new ≡ id ∷ self.old }
    {
        let mut numbers = [0; ROOM];
        numbers[0] = id;
        numbers[1..self.count + 1].copy_from_slice(&self.numbers[..self.count]);
        self.numbers = numbers;
        self.count += 1;
    }

    /// Keeps this many of the newest, and drops the older ones. If there are fewer, all stay.
    pub fn truncate(&mut self, len: usize)
        ensures { self.new ≡ take len self.old }
    {
        if len < self.count {
            self.numbers[len..].fill(0);
            self.count = len;
        }
    }

    // Decodes a list: its count in the four bytes at this place, and then the numbers. `None` if there are more than `most`.
    pub(crate) fn read(slot: &[u8], at: usize, most: usize) -> Option<Self>
        requires room { most ≤ id_room }
        requires there { at + (4 + 4 * most) ≤ length slot.now }
        requires small { length slot.now < 4096 }
        ensures read { IfSome result (λ ids. ids ≡ ids_at at slot.now) }
        ensures too_many { IfNone result (most < number_at 4 at slot.now) }
    {
        let count = BigEndian::read_u32(&slot[at..at + 4]) as usize;
        if count > most {
            return None;
        }
        let mut numbers = [0; ROOM];
        for k in 0..count {
            let from = at + 4 + 4 * k;
            numbers[k] = BigEndian::read_u32(&slot[from..from + 4]);
        }
        Some(Ids { numbers, count })
    }
}
