// The disk of a copy, whose reads end with the server.
ghost use Rattle.silt.specs.Copies.{copy_gave};

use silt_device::{BufferFault, FileDisk, FileFault};
use silt_disk::Disk;
use silt_session::Board;

/// Why a call of a copy's disk failed.
#[derive(Drop)]
pub enum CopyFault {
    /// The server ends, so nothing was read.
    Ended,
    /// A call of the file failed.
    File(BufferFault<FileFault>),
}

/// The disk of a copy in a file. Once the server ends it reads nothing more, so that the examination of a large copy ends soon.
#[derive(Drop)]
pub struct CopyDisk<'a> {
    disk: FileDisk,
    board: &'a Board,
}

impl<'a> CopyDisk<'a> {
    /// The disk of a copy that this server makes.
    pub fn new(disk: FileDisk, board: &'a Board) -> CopyDisk<'a> {
        CopyDisk { disk, board }
    }
}

impl Disk for CopyDisk<'_> {
    ghost use Rattle.silt_device.specs.File.{file_content};
    ghost use Rattle.silt_device.specs.Buffered.{buffered_content};

    type Fault = CopyFault;

    ghost content = { λ copy. buffered_content file_content copy.disk.inner };

    ghost failures = { λ copy. copy.disk.inner.calls.failures };

    ghost writes = { λ copy. copy.disk.inner.calls.writes };

    ghost syncs = { λ copy. copy.disk.inner.calls.syncs };

    ghost gave = { copy_gave };

    fn len(&self) -> u64 {
        self.disk.len()
    }

    fn read(&self, at: u64, buf: &mut [u8]) -> Result<(), CopyFault> {
        if self.board.has_ended() {
            return Err(CopyFault::Ended);
        }
        match self.disk.read(at, buf) {
            Ok(()) => Ok(()),
            Err(fault) => Err(CopyFault::File(fault)),
        }
    }

    fn write(&mut self, at: u64, buf: &[u8]) -> Result<(), CopyFault> {
        match self.disk.write(at, buf) {
            Ok(()) => Ok(()),
            Err(fault) => Err(CopyFault::File(fault)),
        }
    }

    fn sync(&mut self) -> Result<(), CopyFault> {
        match self.disk.sync() {
            Ok(()) => Ok(()),
            Err(fault) => Err(CopyFault::File(fault)),
        }
    }
}
