// A hasher that gathers bytes and hashes them later.
ghost use Rattle.std.specs.Prelude.{◌≡◌, ℕ, [], List, ◌++◌, ◌≤◌, false, true, length, IfOk, IsTrue, None};
ghost use Rattle.sha1.specs.Sha1.{sha1};
ghost use Rattle.silt_hasher.specs.Taking.{HasTaken, taken_after};

use crate::hasher::Hasher;
use crate::lent::LentBytes;
use std::alloc::{AllocError, Global};
use std::marker::Model;

/// How many bytes wait at most.
pub(crate) const ROOM: usize = 65_536;

/// How many bytes are lent at least.
const LEAST_LENT: usize = 16_384;

/// A message that is hashed part by part, with a buffer for the bytes that are not hashed yet. Contracts see what is taken in,
/// hashed or not.
#[derive(Drop)]
pub struct BufferedHasher {
    hasher: Hasher,
    bytes: Vec<u8>,
    len: usize,
}

impl Model for BufferedHasher {
    ghost use Rattle.std.specs.Prelude.{◌≡◌, ◌≤◌, take, vec_len};
    ghost use Rattle.silt_hasher.specs.States.{waiting_room};
    ghost use Rattle.silt_hasher.specs.Taking.{Taken, taken_after};

    ghost Value = { Taken };

    ghost view = { λ a. taken_after a.hasher (take a.len a.bytes.items) };

    ghost invariant = { λ a. (a.len ≤ vec_len a.bytes) × (vec_len a.bytes ≡ waiting_room) };
}

impl BufferedHasher {
    /// Nothing is taken in, with room for 64 KiB that wait.
    ///
    /// # Errors
    ///
    /// Out of memory: the room could not be allocated.
    pub fn new(alloc: Global) -> Result<BufferedHasher, AllocError>
        ensures { IfOk result (λ hasher. HasTaken hasher []) }
    {
        Ok(BufferedHasher {
            hasher: Hasher::new(),
            bytes: vec![in alloc; 0u8; ROOM]?,
            len: 0,
        })
    }

    /// Forgets all that is taken in.
    pub fn restart(&mut self)
        ensures { HasTaken self.new [] }
    {
        self.hasher = Hasher::new();
        self.len = 0;
    }

    /// Takes in bytes. They wait if there is room for them. Else they are hashed at once, behind those that wait.
    pub fn update(&mut self, bytes: &[u8])
        ensures { (taken : List ℕ) → HasTaken self.old taken → HasTaken self.new (taken ++ bytes.now) }
    {
        if bytes.len() <= ROOM - self.len {
            let end = self.len + bytes.len();
            self.bytes[self.len..end].copy_from_slice(bytes);
            self.len = end;
            return;
        }
        self.hasher.update(&self.bytes[..self.len]);
        self.hasher.update(bytes);
        self.len = 0;
    }

    /// The digest of what is taken in and of these bytes.
    pub fn digest_with(&self, bytes: &[u8]) -> [u8; 20]
        ensures { (taken : List ℕ) → HasTaken self.now taken → result ≡ sha1 (taken ++ bytes.now) }
    {
        let mut all = self.hasher.copy();
        all.update(&self.bytes[..self.len]);
        all.update(bytes);
        all.finalize()
    }

    /// Lends the bytes that wait, to be hashed elsewhere, if they are 16 KiB or more. Returns whether it did. Else nothing is lent.
    pub fn lend(&self, lent: &mut LentBytes) -> bool
        ensures all { result ≡ true → self.now ≡ taken_after lent.new.before lent.new.bytes }
        ensures none { result ≡ false → lent.new.bytes ≡ [] }
        ensures unhashed { lent.new.after ≡ None }
    {
        if self.len < LEAST_LENT {
            lent.clear();
            return false;
        }
        lent.fill(&self.hasher, &self.bytes[..self.len]);
        true
    }

    /// Takes what was hashed elsewhere: if the lent bytes are hashed, and are the next ones that wait here, they need no more
    /// hashing. Else nothing changes.
    pub fn take_back(&mut self, lent: &LentBytes)
        ensures { self.new ≡ self.old }
    {
        let Some(hasher) = lent.hashed_for(&self.hasher, &self.bytes[..self.len]) else {
            return;
        };
        let start = lent.bytes().len();
        self.bytes.copy_within(start..self.len, 0);
        self.len -= start;
        self.hasher = hasher;
    }
}
