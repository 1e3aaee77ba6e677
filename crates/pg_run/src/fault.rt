//! Why a run doesn't end with a status.
ghost use Rattle.std.specs.Prelude.{◌≡◌};
ghost use Rattle.pg_run.specs.Faults.{fault_of_cut, fault_of_round};
ghost use Rattle.pg_run.specs.declared.fault.RunFault.TheVariants.{OutOfMemory, Sink};

use pg_blocks::CutFault;
use pg_round::RoundFault;
use pg_seq::SinkFault;
use std::alloc::AllocError;
use thiserror::Error;

/// Why a run doesn't end with a status.
#[derive(Clone, Copy, Debug, PartialEq, Eq, Error)]
pub enum RunFault {
    /// A request for memory was refused.
    #[error("out of memory")]
    OutOfMemory,
    /// A sink failed, or took no byte of a text that isn't empty.
    #[error("write failed")]
    Sink,
    /// More than 2^32 - 1 files were given.
    #[error("too many files")]
    TooManyFiles,
    /// A line of a file is longer than the setup allows, or the file has more than 2^62 bytes.
    #[error("line too long")]
    TooLong,
}

impl From<AllocError> for RunFault {
    ghost from_gives = { λ _ fault. fault ≡ OutOfMemory };

    fn from(_error: AllocError) -> RunFault {
        RunFault::OutOfMemory
    }
}

impl From<SinkFault> for RunFault {
    ghost from_gives = { λ _ fault. fault ≡ Sink };

    fn from(_fault: SinkFault) -> RunFault {
        RunFault::Sink
    }
}

impl From<RoundFault> for RunFault {
    ghost from_gives = { λ round fault. fault ≡ fault_of_round round };

    fn from(fault: RoundFault) -> RunFault {
        match fault {
            RoundFault::OutOfMemory => RunFault::OutOfMemory,
            RoundFault::Sink => RunFault::Sink,
        }
    }
}

impl From<CutFault> for RunFault {
    ghost from_gives = { λ cut fault. fault ≡ fault_of_cut cut };

    fn from(fault: CutFault) -> RunFault {
        match fault {
            CutFault::OutOfMemory => RunFault::OutOfMemory,
            CutFault::LineTooLong | CutFault::FileTooLong => RunFault::TooLong,
        }
    }
}
