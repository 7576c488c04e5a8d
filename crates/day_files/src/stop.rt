// Why a file is not read to its end.
ghost use Rattle.std.specs.Prelude.{◌≡◌};
ghost use Rattle.day_files.specs.declared.stop.Stop.TheVariants.{OutOfMemory, Refused};

use fields::Refusal;
use std::alloc::{AllocError, AllocFailed};

// There is a fault in it, or no memory for what it says. No `Debug`, since `AllocError` has none.
#[derive(Clone, Copy, PartialEq, Eq)]
pub enum Stop {
    Refused(Refusal),
    OutOfMemory(AllocError),
}

impl From<Refusal> for Stop {
    ghost from_gives = { λ refusal stop. stop ≡ Refused refusal };

    fn from(refusal: Refusal) -> Self {
        Stop::Refused(refusal)
    }
}

impl From<AllocError> for Stop {
    ghost from_gives = { λ e stop. stop ≡ OutOfMemory e };

    fn from(e: AllocError) -> Self {
        Stop::OutOfMemory(e)
    }
}

impl<T: Drop> From<AllocFailed<T>> for Stop {
    ghost use Rattle.day_files.specs.Told.{IsOutOfMemory};

    ghost from_gives = { λ _ stop. IsOutOfMemory stop };

    fn from(failed: AllocFailed<T>) -> Self {
        Stop::OutOfMemory(AllocError::from(failed))
    }
}
