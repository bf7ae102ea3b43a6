// What a call begins with. Only contracts see it, and it has no bytes.
ghost use Rattle.std.specs.Prelude.{◌≡◌};
ghost use Rattle.silt_store_set.specs.Basis.{basis_of};

use crate::remembered::Remembered;
use silt_disk::Disk;
use silt_engine::Engine;
use std::marker::Model;

// The map that a store's possible crash images represent, and the commands that wait, as they were when this was taken.
#[derive(Drop)]
pub struct Basis<D: Disk> {
    disk: Remembered<D>,
    engine: Remembered<Engine>,
}

impl<D: Disk> Model for Basis<D> {
    ghost use Rattle.std.specs.Coded.{codes};
    ghost use Rattle.silt_event.specs.Commands.{map_code};
    ghost use Rattle.silt_store_set.specs.Basis.{BasisState, basis_of};

    ghost Value = { BasisState };

    ghost coded = { Prim.hlevel (codes, map_code) };

    ghost view = { λ b. basis_of (D.content b.disk.value) b.engine.value };
}

impl<D: Disk> Basis<D> {
    // Takes the basis of a disk and of what memory holds of it.
    pub fn of(disk: &D, engine: &Engine) -> Basis<D>
        ensures { result ≡ basis_of (D.content disk.now) engine.now }
    {
        Basis {
            disk: Remembered::of(disk),
            engine: Remembered::of(engine),
        }
    }
}
