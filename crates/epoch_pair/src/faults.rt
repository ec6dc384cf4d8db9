//! Why two files are refused.
ghost use Rattle.std.specs.Prelude.{◌≡◌};
ghost use Rattle.epoch_pair.specs.declared.faults.SessionFault.TheVariants.{NoMemory};

use std::alloc::AllocError;
use thiserror::Error;

/// What two files lack.
#[derive(Clone, Copy, Debug, PartialEq, Eq)]
pub enum PairWhat {
    /// The base's header has no position, or one that isn't from 6,000 km to 7,000 km from the Earth's centre.
    NoBasePosition,
    /// A band has no code that both receivers track.
    NoSignal,
    /// In one of the files this epoch is at most twice the gap after the one before it.
    Dense { rover: bool, epoch: u32 },
}

#[derive(Clone, Copy, Debug, PartialEq, Eq, Error)]
pub enum SessionFault {
    #[error("the files are refused")]
    Refused(PairWhat),
    #[error("no memory")]
    NoMemory,
}

impl From<AllocError> for SessionFault {
    ghost from_gives = { λ _ fault. fault ≡ NoMemory };

    fn from(_: AllocError) -> SessionFault {
        SessionFault::NoMemory
    }
}
