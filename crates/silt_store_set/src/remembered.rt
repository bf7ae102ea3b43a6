// A value as it was. Only contracts see it.
ghost use Rattle.std.specs.Prelude.{◌≡◌};
ghost use base.Fml.{ftrue};

use std::marker::{Model, PhantomData};

// A `T` as it was when this was taken. It has no bytes and owns nothing. (std's `Snapshot` is the same, but rattle does
// not find that a closure with one may go to another thread.)
#[derive(Drop)]
pub struct Remembered<T> {
    marker: PhantomData<T>,
    pub ghost value: { T },
}

impl<T> Model for Remembered<T> {
    ghost also_owns = { λ _. ftrue };
}

impl<T> Remembered<T> {
    // Takes what the reference shows.
    pub fn of(x: &T) -> Remembered<T>
        ensures { result.value ≡ x.now }
    {
        let _ = x;
        Remembered {
            marker: PhantomData,
        }
    }
}
