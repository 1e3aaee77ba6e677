//! Why a round breaks off.
ghost use Rattle.std.specs.Prelude.{◌≡◌};
ghost use Rattle.pg_round.specs.declared.fault.RoundFault.TheVariants.{OutOfMemory, Sink};

use pg_plan::SinkFault;
use std::alloc::AllocError;
use thiserror::Error;

/// Why a round broke off.
#[derive(Clone, Copy, Debug, PartialEq, Eq, Error)]
pub enum RoundFault {
    /// A request for memory was refused.
    #[error("out of memory")]
    OutOfMemory,
    /// A write failed, or took no byte of a text that isn't empty.
    #[error("write failed")]
    Sink,
}

impl From<AllocError> for RoundFault {
    ghost from_gives = { λ _ fault. fault ≡ OutOfMemory };

    fn from(_error: AllocError) -> RoundFault {
        RoundFault::OutOfMemory
    }
}

impl From<SinkFault> for RoundFault {
    ghost from_gives = { λ _ fault. fault ≡ Sink };

    fn from(_fault: SinkFault) -> RoundFault {
        RoundFault::Sink
    }
}
