// Bytes of a buffered hasher that are hashed elsewhere.
ghost use Rattle.std.specs.Prelude.{◌≡◌, [], length, take, ◌≤◌, IfOk, IfSome, Some, None};
ghost use Rattle.silt_hasher.specs.States.{waiting_room};
ghost use Rattle.silt_hasher.specs.Taking.{taken_after};

use crate::buffered::ROOM;
use crate::hasher::Hasher;
use std::alloc::{AllocError, Global};
use std::marker::Model;

/// A copy of a hasher and of the bytes that it is to take in next. Contracts see both, and what is taken in with the bytes once they
/// are hashed. It is made once and used again for each lending.
#[derive(Drop)]
pub struct LentBytes {
    before: Hasher,
    bytes: Vec<u8>,
    len: usize,
    after: Option<Hasher>,
}

impl Model for LentBytes {
    ghost use Rattle.std.specs.Prelude.{◌≡◌, ◌≤◌, IfSome, take, vec_len};
    ghost use Rattle.silt_hasher.specs.States.{Lending, waiting_room};
    ghost use Rattle.silt_hasher.specs.Taking.{taken_after};

    ghost Value = { Lending };

    ghost view = { λ a. record { before = a.before; bytes = take a.len a.bytes.items; after = a.after } };

    ghost invariant = { λ a. (a.len ≤ vec_len a.bytes) × (vec_len a.bytes ≡ waiting_room)
        × IfSome a.after (λ after. after ≡ taken_after a.before (take a.len a.bytes.items)) };
}

impl LentBytes {
    /// No bytes, with room for all that a buffered hasher may lend.
    ///
    /// # Errors
    ///
    /// Out of memory: the room could not be allocated.
    pub fn new(alloc: Global) -> Result<LentBytes, AllocError>
        ensures { IfOk result (λ lent. lent.bytes ≡ []) }
    {
        Ok(LentBytes {
            before: Hasher::new(),
            bytes: vec![in alloc; 0u8; ROOM]?,
            len: 0,
            after: None,
        })
    }

    /// Takes copies of a hasher and of the bytes that it is to take in next.
    pub(crate) fn fill(&mut self, before: &Hasher, bytes: &[u8])
        requires { length bytes.now ≤ waiting_room }
        ensures { self.new ≡ record { before = before.now; bytes = bytes.now; after = None } }
    {
        let end = bytes.len();
        self.bytes[0..end].copy_from_slice(bytes);
        self.len = end;
        self.before = before.copy();
        self.after = None;
    }

    /// Forgets the bytes.
    pub fn clear(&mut self)
        ensures { self.new ≡ record self.old { bytes = []; after = None } }
    {
        self.after = None;
        self.len = 0;
    }

    /// Hashes the bytes.
    pub fn hash(&mut self)
        ensures { self.new ≡ record self.old { after = Some (taken_after self.old.before self.old.bytes) } }
    {
        let mut after = self.before.copy();
        after.update(&self.bytes[..self.len]);
        self.after = Some(after);
    }

    /// The bytes.
    pub(crate) fn bytes(&self) -> &[u8]
        ensures { result.now ≡ self.now.bytes }
    {
        &self.bytes[..self.len]
    }

    // The hasher that took in the bytes, if it began with this one, and if these bytes begin with them.
    pub(crate) fn hashed_for(&self, hasher: &Hasher, pending: &[u8]) -> Option<Hasher>
        ensures { IfSome result (λ after. (after ≡ taken_after hasher.now self.now.bytes) × (length self.now.bytes ≤ length pending.now) × (self.now.bytes ≡ take (length self.now.bytes) pending.now)) }
    {
        let Some(after) = &self.after else {
            return None;
        };
        if self.len > pending.len() || !self.before.is_same(hasher) {
            return None;
        }
        if *self.bytes() != *&pending[..self.len] {
            return None;
        }
        Some(after.copy())
    }
}
