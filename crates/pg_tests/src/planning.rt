//! Files that a test plans, block by block.
ghost use Rattle.std.specs.Prelude.{◌≡◌, ℕ, ◌+◌, ◌<◌, ◌≤◌, IsTrue, IfOk, OnOk, false};
ghost use Rattle.pg_rows.specs.Output.{HasRoom};
ghost use Rattle.pg_tests.specs.Reading.{IsBlock, IsBetween, IsReading};

use pg_blocks::Block;
use pg_lines::Query;
use pg_rows::Format;
use pg_seq::Sequencer;
use refusing::Refusing;
use std::alloc::{AllocError, Allocator};
use std::sync::Arc;

/// A sequencer without a file.
pub(crate) fn new_sequencer<A: Allocator + Copy>(
    alloc: A,
    query: &Query<A>,
    format: Format,
) -> Result<Sequencer<A>, AllocError>
    requires room { HasRoom format }
    requires zero { query.now.text.zero ≡ false }
    ensures { IfOk result (λ sequencer. IsBetween sequencer 0) }
{
    // Its contract says that the patterns have trees.
    let _text = query.text();
    let sequencer = Sequencer::new(alloc, Arc::try_clone(query.selector())?, format)?;
    Ok(sequencer)
}

/// Opens the next file, and opens it again where a request for memory is refused. The answer says whether one was.
pub(crate) fn open_file<A: Allocator + Copy>(
    sequencer: &mut Sequencer<A>,
    file: u32,
    name: &[u8],
) -> Result<bool, AllocError>
    requires between { IsBetween sequencer.old file }
    requires few { file ≤ 100 }
    ensures { OnOk result (IsReading sequencer.new file 0) }
{
    match sequencer.open(name) {
        Ok(()) => Ok(false),
        Err(AllocError) => {
            sequencer.open(name)?;
            Ok(true)
        }
    }
}

/// Whether bytes are a block that tests plan: lines with their newlines, of at most 100 bytes together.
pub(crate) fn is_block(bytes: &[u8]) -> bool
    ensures { IsTrue result → IsBlock bytes.now }
{
    bytes.len() <= 100 && bytes.ends_with(b"\n")
}

/// Announces the next block, and announces it again where a request for memory is refused. The answer says whether one
/// was.
pub(crate) fn announce_block<A: Allocator + Copy>(
    alloc: A,
    sequencer: &mut Sequencer<A>,
    file: u32,
    number: u64,
    bytes: &[u8],
) -> Result<bool, AllocError>
    requires reading { IsReading sequencer.old file number }
    requires few { number < 100 }
    requires block { IsBlock bytes.now }
    ensures { OnOk result (IsReading sequencer.new file (number + 1)) }
{
    let block = Block {
        file,
        number,
        bytes: Vec::from_slice(alloc, bytes)?,
    };
    let block = Arc::new(alloc, block)?;
    let again = Arc::try_clone(&block)?;
    match sequencer.announce(block) {
        Ok(()) => Ok(false),
        Err(AllocError) => {
            sequencer.announce(again)?;
            Ok(true)
        }
    }
}

/// Ends the open file.
pub(crate) fn end_file<A: Allocator + Copy>(sequencer: &mut Sequencer<A>, file: u32)
    requires { (count : ℕ) × IsReading sequencer.old file count }
    ensures { IsBetween sequencer.new (file + 1) }
{
    sequencer.end(false);
}

/// Ends the open file and opens the next one, and opens it again where a request for memory is refused. The answer says
/// whether one was.
pub(crate) fn open_next<A: Allocator + Copy>(
    sequencer: &mut Sequencer<A>,
    file: u32,
) -> Result<bool, AllocError>
    requires reading { (count : ℕ) × IsReading sequencer.old file count }
    requires few { file < 100 }
    ensures { OnOk result (IsReading sequencer.new (file + 1) 0) }
{
    end_file(sequencer, file);
    open_file(sequencer, file + 1, b"f")
}

/// Whether the end of the open file asks for no memory.
pub(crate) fn ends_for_free<A: Allocator + Copy>(
    sequencer: &mut Sequencer<A>,
    heap: &Refusing,
    file: u32,
) -> bool
    requires { (count : ℕ) × IsReading sequencer.old file count }
    ensures { IsBetween sequencer.new (file + 1) }
{
    let requests = heap.requests();
    end_file(sequencer, file);
    heap.requests() == requests
}

/// Notes a name that isn't there, where `files` were opened before.
pub(crate) fn miss_name<A: Allocator + Copy>(
    sequencer: &mut Sequencer<A>,
    files: u32,
    name: &[u8],
) -> Result<(), AllocError>
    requires { IsBetween sequencer.old files }
    ensures { OnOk result (IsBetween sequencer.new files) }
{
    sequencer.miss(name)?;
    Ok(())
}
