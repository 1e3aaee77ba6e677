//! Pargrep: prints the lines of files that patterns select.
#![tactic(auto)]

use pg_base::Out;
use pg_command::{Call, Fault, report, run, words_of};
use pg_files::OperandFiles;
use pg_prefetch::{PrefetchStore, PrefetchTree};
use std::alloc::Global;
use std::io::{BufWriter, IsTerminal};
use std::process::ExitCode;

/// How many bytes of output are held back until they are written, so that a write goes out for many
/// lines.
const OUT_BUFFER: usize = 65_536;

fn main(rt: HostRuntime) -> ExitCode {
    let alloc = rt.alloc();
    let mut err = Out::new(rt.stderr());
    let stdout = rt.stdout();
    let terminal = stdout.is_terminal();
    let Ok(buffered) = BufWriter::with_capacity(alloc, OUT_BUFFER, stdout) else {
        return ExitCode::from(report(alloc, Fault::OutOfMemory, &mut err));
    };
    let call = words_of(&rt).map(|words| Call { words, terminal });
    let tree = PrefetchTree::new(rt, alloc);
    let mut files = OperandFiles::new(alloc, &tree, PrefetchStore::new(rt, &tree));
    let mut out = Out::new(buffered);
    ExitCode::from(run(&rt, alloc, call, &tree, &mut files, &mut out, &mut err))
}
