//! Why a search doesn't end with a status.
ghost use Rattle.std.specs.Prelude.{◌≡◌};
ghost use Rattle.pg_search.specs.Faults.{search_fault_of};
ghost use Rattle.pg_search.specs.declared.fault.SearchFault.TheVariants.{Run};
ghost use Rattle.pg_run.specs.declared.fault.RunFault.TheVariants.{OutOfMemory};

use pg_lines::QueryFault;
use pg_run::RunFault;
use std::alloc::AllocError;
use thiserror::Error;

/// Why a search doesn't end with a status.
#[derive(Clone, Copy, Debug, PartialEq, Eq, Error)]
pub enum SearchFault {
    /// The patterns can't be searched for. Nothing was asked for or written, and it isn't for want of memory.
    #[error("{0}")]
    Query(QueryFault),
    /// The run broke off, or memory was lacking before it.
    #[error("{0}")]
    Run(RunFault),
}

impl From<QueryFault> for SearchFault {
    ghost from_gives = { λ query fault. fault ≡ search_fault_of query };

    fn from(fault: QueryFault) -> SearchFault {
        match fault {
            QueryFault::OutOfMemory => SearchFault::Run(RunFault::OutOfMemory),
            fault => SearchFault::Query(fault),
        }
    }
}

impl From<AllocError> for SearchFault {
    ghost from_gives = { λ _ fault. fault ≡ Run OutOfMemory };

    fn from(_error: AllocError) -> SearchFault {
        SearchFault::Run(RunFault::OutOfMemory)
    }
}

impl From<RunFault> for SearchFault {
    ghost from_gives = { λ run fault. fault ≡ Run run };

    fn from(fault: RunFault) -> SearchFault {
        SearchFault::Run(fault)
    }
}
