//! The faults of a search as those of the program.
ghost use Rattle.std.specs.Prelude.{◌≡◌};
ghost use Rattle.pg_command.specs.Faults.{fault_of_query, fault_of_run, fault_of_search};

use pg_lines::QueryFault;
use pg_request::Fault;
use pg_run::RunFault;
use pg_search::SearchFault;

/// The fault of a query as one of the program.
fn fault_of_query<'a>(fault: QueryFault) -> Fault<'a>
    ensures { result ≡ fault_of_query fault }
{
    match fault {
        QueryFault::Syntax(fault) => Fault::Pattern(fault),
        QueryFault::TooLarge => Fault::TooLarge,
        QueryFault::OutOfMemory => Fault::OutOfMemory,
    }
}

/// The fault of a run as one of the program.
fn fault_of_run<'a>(fault: RunFault) -> Fault<'a>
    ensures { result ≡ fault_of_run fault }
{
    match fault {
        RunFault::OutOfMemory => Fault::OutOfMemory,
        RunFault::Sink => Fault::WriteFailed,
        RunFault::TooManyFiles => Fault::TooManyFiles,
        RunFault::TooLong => Fault::LineTooLong,
    }
}

/// The fault of a search as one of the program.
pub(crate) fn fault_of_search<'a>(fault: SearchFault) -> Fault<'a>
    ensures { result ≡ fault_of_search fault }
{
    match fault {
        SearchFault::Query(fault) => fault_of_query(fault),
        SearchFault::Run(fault) => fault_of_run(fault),
    }
}
