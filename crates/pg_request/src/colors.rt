//! What a terminal changes: whether rows are colored, and when they are sent on.
ghost use Rattle.std.specs.Prelude.{◌≡◌};
ghost use Rattle.pg_request.specs.Asked.{asked_of, asked_on, is_colored, pace_of, paced_on};

use pg_words::{Coloring, Request};

/// A request whose rows are colored as it asks for, where standard output is a terminal or not. On a terminal rows are
/// sent on as each block, or round of blocks, was searched, as with --line-buffered.
pub fn request_on(mut request: Request<'_>, terminal: bool) -> Request<'_>
    ensures asked { asked_of result ≡ asked_on terminal (asked_of request.entry) }
    ensures pace { pace_of result ≡ paced_on terminal (pace_of request.entry) }
{
    request.format.colored = is_colored(request.coloring, terminal);
    request.line_buffered |= terminal;
    request
}

/// Whether rows are colored there.
fn is_colored(coloring: Coloring, terminal: bool) -> bool
    ensures { result ≡ is_colored coloring terminal }
{
    match coloring {
        Coloring::Never => false,
        Coloring::Always => true,
        Coloring::OnTerminal => terminal,
    }
}
