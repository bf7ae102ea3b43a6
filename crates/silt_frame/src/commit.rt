// Commit bytes: a row, a manifest slot and the header each have one.
ghost use Rattle.std.specs.Prelude.{◌≡◌, false, true};
ghost use Rattle.silt_frame.specs.Commit.{commit_closed, commit_open, is_open};

/// An open commit byte. Every other one is closed.
pub const COMMIT_OPEN: u8 = 0xA7;

/// What closes a commit byte.
pub const COMMIT_CLOSED: u8 = 0x00;

/// Whether this commit byte is open.
pub fn is_open(commit: u8) -> bool
    ensures { result ≡ is_open commit }
{
    commit == COMMIT_OPEN
}

/// `COMMIT_OPEN` is open, and `COMMIT_CLOSED` is not.
pub fn commits_differ()
    ensures open { is_open commit_open ≡ true }
    ensures closed { is_open commit_closed ≡ false }
{}

#[cfg(test)]
mod tests {
    use super::*;

    #[test]
    fn one_byte_is_open(rt: HostRuntime) {
        for commit in 0..=255u8 {
            assert_eq!(rt; is_open(commit), commit == 0xA7);
        }
        assert!(rt; is_open(COMMIT_OPEN) && !is_open(COMMIT_CLOSED));
        commits_differ();
    }
}
