// Reads the bytes of a store in pieces, and hashes them.
ghost use Rattle.std.specs.Prelude.{◌≡◌, ℕ, List, ◌≤◌, ◌+◌, ◌++◌, ◌^◌, length, IfErr, IfOk, OnOk};
ghost use Rattle.sha1.specs.Sha1.{sha1};
ghost use Rattle.silt_care.specs.Orders.{Halts, ReadsAll, piece_len};
ghost use Rattle.silt_hasher.specs.Taking.{HasTaken};

use crate::extent::Extent;
use crate::finds::Finds;
use crate::looks::Looks;
use crate::pass::Scrub;
use silt_hasher::BufferedHasher;
use silt_view::View;
use std::time::{Clock, Instant};

/// How many bytes a pass reads at once.
pub(crate) const PIECE: usize = 65_536;

/// Why not all bytes of a store were read.
#[derive(Clone, Copy, Debug, PartialEq, Eq)]
pub enum Halt {
    /// The pass is to end.
    Ended,
    /// A read failed.
    Unread,
}

// Reads a piece, and hashes it.
fn take_piece<L: Looks>(
    looks: &mut L,
    at: u64,
    piece: &mut [u8],
    hasher: &mut BufferedHasher,
) -> Result<(), Halt>
    ensures ok { OnOk result ((bytes : List ℕ) × L.gave looks.old at bytes looks.new × (length bytes ≡ length piece.old)
        × ((taken : List ℕ) → HasTaken hasher.old taken → HasTaken hasher.new (taken ++ bytes))) }
    ensures err { IfErr result (λ halt. (halt ≡ Halt.Unread) × ((fault : L.Fault) × L.faulted looks.old fault at (length piece.old) looks.new)) }
{
    match looks.read_at(at, piece) {
        Ok(()) => {
            hasher.update(piece);
            Ok(())
        }
        Err(_) => Err(Halt::Unread),
    }
}

impl<V: View, R: Clock> Scrub<'_, V, R> {
    // The digest of the bytes of a store, which are read in pieces into a buffer.
    pub(crate) fn digest<L: Looks, F: Finds>(
        &self,
        looks: &mut L,
        extent: &Extent,
        finds: &F,
        room: &mut [u8],
        hasher: &mut BufferedHasher,
    ) -> Result<[u8; 20], Halt>
        requires room { length room.old ≡ piece_len }
        requires most { extent.now.at + extent.now.len ≤ 2 ^ 39 }
        ensures ok { IfOk result (λ digest. (bytes : List ℕ) × ReadsAll L.Looks extent.now looks.old bytes looks.new × (digest ≡ sha1 bytes)) }
        ensures err { IfErr result (λ halt. Halts L.Looks F.Finds finds.now extent.now looks.old halt looks.new) }
    {
        hasher.restart();
        let mut done: u64 = 0;
        while done < extent.len {
            if !finds.goes_on() {
                return Err(Halt::Ended);
            }
            let count = PIECE.min((extent.len - done) as usize);
            let began = Instant::now(self.rt).ok();
            let piece = &mut room[..count];
            take_piece(looks, extent.at + done, piece, hasher)?;
            done += count as u64;
            self.pace.wait(self.rt, began, count as u64);
        }
        Ok(hasher.digest_with(&[]))
    }
}
