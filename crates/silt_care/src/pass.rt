// One pass over a store.
ghost use Rattle.std.specs.Prelude.{◌≡◌, ◌<◌, ◌≤◌, ◌+◌, ◌^◌, length, IfOk, OnErr};
ghost use Rattle.silt_care.specs.Extents.{IsPartOf};
ghost use Rattle.silt_care.specs.Orders.{Judges, piece_len};
ghost use Rattle.silt_care.specs.Scrubs.{Hears, IsPass, IsVerdict, finding_of, first_of, nothing, verdict_len, with_verdict};
ghost use Rattle.silt_disk.specs.Layout.{Shape};

use crate::extent::{Extent, Part};
use crate::finds::{Finding, Finds};
use crate::looks::{Live, Looks};
use crate::pace::Pace;
use crate::pieces::{Halt, PIECE};
use silt_disk::Geometry;
use silt_hasher::BufferedHasher;
use silt_view::View;
use std::alloc::{AllocError, Global};
use std::time::Clock;

/// How a store is scrubbed: what is seen of it, and how fast it is read.
#[derive(Drop)]
pub struct Scrub<'a, V, R> {
    pub rt: &'a R,
    pub view: &'a V,
    pub pace: Pace,
}

/// What a pass says of one part of a device.
#[derive(Clone, Copy, Debug, PartialEq, Eq)]
pub enum Verdict {
    /// The record names no store there.
    Unnamed,
    /// The bytes of the store, this many, have its digest.
    Sound(u64),
    /// The bytes of the store, this many, have another digest.
    Damaged(u64),
    /// A read of its bytes failed.
    Unread,
    /// When its bytes were read, the record no longer named the store.
    Moved,
    /// The pass is to end.
    Ended,
}

/// What a pass did.
#[derive(Clone, Copy, Debug, PartialEq, Eq)]
pub struct Scrubbed {
    /// How many stores were read whole, and compared.
    pub stores: u64,
    /// How many bytes that are.
    pub bytes: u64,
    /// How many stores were freed while they were read.
    pub skipped: u64,
    /// How many findings there were, and the first one.
    pub findings: u64,
    pub first: Option<Finding>,
    /// Whether the pass was ended before its end.
    pub has_ended: bool,
}

impl Scrubbed {
    // Nothing was done yet.
    fn nothing() -> Scrubbed
        ensures { result ≡ nothing }
    {
        Scrubbed {
            stores: 0,
            bytes: 0,
            skipped: 0,
            findings: 0,
            first: None,
            has_ended: false,
        }
    }

    // Adds a finding.
    fn find(&mut self, finding: Finding)
        requires { self.old.findings < 2 ^ 32 }
        ensures { self.new ≡ record self.old { findings = self.old.findings + 1; first = first_of self.old.first finding } }
    {
        self.findings += 1;
        self.first = self.first.or(Some(finding));
    }

    // Adds a verdict on a part.
    fn add(&mut self, part: Part, verdict: Verdict)
        requires stores { self.old.stores < 2 ^ 32 }
        requires bytes { self.old.bytes + verdict_len verdict < 2 ^ 64 }
        requires skipped { self.old.skipped < 2 ^ 32 }
        requires findings { self.old.findings < 2 ^ 32 }
        ensures { self.new ≡ with_verdict self.old part verdict }
    {
        match verdict {
            Verdict::Unnamed => {}
            Verdict::Sound(len) => {
                self.stores += 1;
                self.bytes += len;
            }
            Verdict::Damaged(len) => {
                self.stores += 1;
                self.bytes += len;
                self.find(Finding::Damaged(part.place()));
            }
            Verdict::Unread => self.find(Finding::Unread(part.place())),
            Verdict::Moved => self.skipped += 1,
            Verdict::Ended => self.has_ended = true,
        }
    }
}

// Has the finder hear of a verdict that is a finding.
fn hear<F: Finds>(finds: &mut F, part: Part, verdict: Verdict)
    ensures { Hears F.Finds finds.old (finding_of part verdict) finds.new }
{
    match verdict {
        Verdict::Damaged(_) => finds.found(Finding::Damaged(part.place())),
        Verdict::Unread => finds.found(Finding::Unread(part.place())),
        Verdict::Unnamed | Verdict::Sound(_) | Verdict::Moved | Verdict::Ended => {}
    }
}

impl<V: View, R: Clock> Scrub<'_, V, R> {
    // Compares the bytes of the store in a part with its digest, if there is a store.
    fn judge<L: Looks, F: Finds>(
        &self,
        looks: &mut L,
        geometry: &Geometry,
        part: Part,
        finds: &F,
        room: &mut [u8],
        hasher: &mut BufferedHasher,
    ) -> Verdict
        requires part { IsPartOf geometry.now part }
        requires room { length room.old ≡ piece_len }
        ensures verdict { Judges L.Looks F.Finds geometry.now finds.now part looks.old result looks.new }
        ensures most { verdict_len result ≤ 2 ^ 39 }
    {
        let Some(extent) = Extent::of(geometry, &looks.named(), part) else {
            return Verdict::Unnamed;
        };
        let verdict = match self.digest(looks, &extent, finds, room, hasher) {
            Ok(digest) if digest == extent.digest.0 => return Verdict::Sound(extent.len),
            Ok(_) => Verdict::Damaged(extent.len),
            Err(Halt::Unread) => Verdict::Unread,
            Err(Halt::Ended) => return Verdict::Ended,
        };
        if Extent::of(geometry, &looks.named(), part) != Some(extent) {
            return Verdict::Moved; // so its bytes say nothing
        }
        verdict
    }

    // The verdict on a part, by looks at the view.
    fn look_at<F: Finds>(
        &self,
        geometry: &Geometry,
        part: Part,
        finds: &F,
        room: &mut [u8],
        hasher: &mut BufferedHasher,
    ) -> Verdict
        requires part { IsPartOf geometry.now part }
        requires room { length room.old ≡ piece_len }
        ensures verdict { IsVerdict V.View F.Finds self.now.view.now geometry.now finds.now part result }
        ensures most { verdict_len result ≤ 2 ^ 39 }
    {
        let mut looks = Live { view: self.view };
        self.judge(&mut looks, geometry, part, finds, room, hasher)
    }

    /// One pass over the store. Each finding is heard at once.
    ///
    /// # Errors
    ///
    /// Out of memory for two buffers of 64 KiB. Then nothing is read.
    pub fn pass<F: Finds>(&self, alloc: Global, finds: &mut F) -> Result<Scrubbed, AllocError>
        ensures ok { IfOk result (λ scrubbed. (shape : Shape) × V.has_shape self.now.view.now shape × IsPass V.View F.Finds self.now.view.now shape finds.old scrubbed finds.new) }
        ensures err { OnErr result (finds.new ≡ finds.old) }
    {
        let mut room = vec![in alloc; 0u8; PIECE]?;
        let mut hasher = BufferedHasher::new(alloc)?;
        let geometry = self.view.geometry();
        let mut scrubbed = Scrubbed::nothing();
        for place in 0..geometry.hashes() + 1 {
            let part = Part::at(&geometry, place);
            let verdict = self.look_at(&geometry, part, finds, room.as_mut_slice(), &mut hasher);
            hear(finds, part, verdict);
            scrubbed.add(part, verdict);
            if scrubbed.has_ended {
                return Ok(scrubbed);
            }
        }
        Ok(scrubbed)
    }
}
