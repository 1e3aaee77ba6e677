//! The reader of the open file.
ghost use Rattle.std.specs.Prelude.{◌≡◌, ◌≢◌, ◌<◌, vec_len, length, true, false, IfSome, IfNone, OnOk};
ghost use Rattle.pg_blocks.specs.Cutter.{IsCutterAfter, CutterPast, IsDrained, IsNextBlock, AreAllBlocks};
ghost use Rattle.pg_blocks.specs.Cutter.{past_handed, handed_early, HasLinesLeft, KeepsCutter, room_of, unfed};

use crate::reader::Reader;
use pg_blocks::{Block, CutFault, Cutter};
use pg_files::Files;
use std::alloc::{AllocError, Allocator, Global};
use std::mem;

/// What the last read came to.
#[derive(Clone, Copy, PartialEq, Eq)]
pub enum ReadOutcome {
    /// More bytes, or nothing was read yet.
    More,
    /// The file's end.
    End,
    /// It failed.
    Failure,
    /// More bytes, which the cutter didn't take.
    Refused(CutFault),
}

/// How many reads of each file are copied: of a small file the one that gives its bytes and the one that finds its end.
const COPIED_READS: u32 = 2;

/// A read asks for a block and so many bytes more.
const LINE_ROOM: usize = 4_096;

/// The most bytes of a read that is copied.
const MOST_COPIED: usize = 69_632;

/// Reads the open file, and cuts what comes into blocks.
pub struct FileReader<A: Allocator + Copy = Global> {
    alloc: A,
    /// The open file's.
    cutter: Cutter<A>,
    /// The memory of a block that is done with, for the next one.
    spare: Option<Vec<u8, A>>,
    /// What the last read came to.
    came: ReadOutcome,
    /// How many more reads may be made beside a search.
    ahead: u32,
    /// What the first reads of each file are read into: it is cleared once a run, and the cutter's own room, which is
    /// cleared for each file, only where a file is longer. It is empty where memory for it was refused.
    buffer: Vec<u8, A>,
    /// How many more reads of the open file go through the buffer.
    copied_reads: u32,
    /// The most bytes that are taken at once of a file that is in memory already.
    most_taken: usize,
}

impl<A: Allocator + Copy> Drop for FileReader<A> {
    fn drop(self) {
        let FileReader {
            alloc: _,
            cutter: _,
            spare: _,
            came: _,
            ahead: _,
            buffer: _,
            copied_reads: _,
            most_taken: _,
        } = self;
    }
}

/// A cutter that nothing is fed to.
fn no_cutter<A: Allocator + Copy>(alloc: A) -> Cutter<A>
    ensures { IsCutterAfter result (unfed 0 0 1 1) }
{
    Cutter::new(alloc, 0, 1, 1, 0)
}

/// A buffer of so many bytes, but of no more than are copied; an empty one where memory for it is refused.
fn buffer_of<A: Allocator + Copy>(alloc: A, len: usize) -> Vec<u8, A> {
    let mut buffer = Vec::new(alloc);
    match buffer.resize(len.min(MOST_COPIED), 0) {
        Ok(()) => buffer,
        Err(_) => Vec::new(alloc),
    }
}

impl<A: Allocator + Copy> FileReader<A> {
    ghost use Rattle.pg_reader.specs.Reads.{FeedsAllOrNone, HasNoFile, HasReadOn, MayBeRead};
    ghost use Rattle.pg_reader.specs.declared.file_reader.ReadOutcome.TheVariants.{More, End};

    /// A reader that has no file yet, for blocks of `block` bytes. A file that is in memory already and has at most
    /// `most_taken` bytes left is taken as it is. Of others the first two reads ask for 4,096 bytes more than a block
    /// has, but for no more than 69,632, and are copied. Where memory for that is refused, none are.
    pub fn new(alloc: A, block: u32, most_taken: usize) -> FileReader<A>
        ensures came { result.came ≡ End }
        ensures none { HasNoFile result }
    {
        FileReader {
            alloc,
            cutter: no_cutter(alloc),
            spare: None,
            came: ReadOutcome::End,
            ahead: 0,
            buffer: buffer_of(alloc, (block as usize).saturating_add(LINE_ROOM)),
            copied_reads: 0,
            most_taken,
        }
    }

    /// Takes the memory of a block that is done with, if there is any, for the blocks that come.
    pub fn give_back(&mut self, memory: Option<Vec<u8, A>>)
        ensures cutter { self.new.cutter ≡ self.old.cutter }
        ensures came { self.new.came ≡ self.old.came }
    {
        if memory.is_some() {
            self.spare = memory;
        }
    }

    /// Begins with a file of which nothing was read, by a cutter for it.
    pub fn open(&mut self, cutter: Cutter<A>)
        ensures cutter { self.new.cutter ≡ cutter }
        ensures came { self.new.came ≡ More }
    {
        self.cutter = cutter;
        self.came = ReadOutcome::More;
        self.copied_reads = COPIED_READS;
    }

    /// Whether the open file was read once alone: a small one has come whole then.
    pub fn has_read_once(&self) -> bool {
        self.copied_reads.saturating_add(1) == COPIED_READS
    }

    /// What the last read of the open file came to. `More` where none was made, and `End` where no file was opened.
    pub fn came(&self) -> ReadOutcome
        ensures { result ≡ self.now.came }
    {
        self.came
    }

    /// From now on so many more reads may be made beside a search, each by a step.
    pub fn read_ahead(&mut self, reads: u32)
        ensures cutter { self.new.cutter ≡ self.old.cutter }
        ensures came { self.new.came ≡ self.old.came }
    {
        self.ahead = reads;
    }

    /// Sees that the cutter has room for what is read next.
    fn make_room(&mut self) -> Result<(), AllocError>
        ensures came { self.new.came ≡ self.old.came }
        ensures some { OnOk result (0 < length (room_of self.new.cutter)) }
        ensures keeps { KeepsCutter self.old.cutter self.new.cutter }
    {
        if let Some(memory) = self.spare.take() {
            self.cutter.give_back(memory);
        }
        self.cutter.make_room()
    }

    /// Takes what is left of the open file, with its memory, if that is in memory already and isn't too long, and cuts
    /// it. The file may be read further. The answer says whether it was taken.
    fn take_buffered<F: Files<Alloc = A>>(&mut self, files: &mut F) -> bool
        requires { MayBeRead self.old (F.past files.old).given }
        ensures reads { HasReadOn F.past F.list self.old files.old self.new files.new }
        ensures goes { result ≡ true → (F.past files.new).given ≢ (F.past files.old).given }
        ensures refused { FeedsAllOrNone self.old (F.past files.old).given self.new (F.past files.new).given }
        ensures none { result ≡ false
            → (self.new ≡ self.old) × ((F.past files.new).given ≡ (F.past files.old).given) }
    {
        let Some(taken) = files.take_buffered(self.most_taken) else {
            return false;
        };
        if let Err(why) = self.cutter.feed_owned(taken) {
            self.came = ReadOutcome::Refused(why);
        }
        true
    }

    /// Reads once, into the buffer, and cuts what came. The file may be read further.
    fn read_copied<F: Files<Alloc = A>>(&mut self, files: &mut F)
        requires room { 0 < vec_len self.old.buffer }
        requires reading { MayBeRead self.old (F.past files.old).given }
        ensures reads { HasReadOn F.past F.list self.old files.old self.new files.new }
        ensures goes { self.new.came ≡ More → (F.past files.new).given ≢ (F.past files.old).given }
        ensures refused { FeedsAllOrNone self.old (F.past files.old).given self.new (F.past files.new).given }
    {
        let Ok(len) = files.read(self.buffer.as_mut_slice()) else {
            self.came = ReadOutcome::Failure;
            return;
        };
        if len == 0 {
            self.came = ReadOutcome::End;
            return;
        }
        if let Err(why) = self.cutter.feed(&self.buffer[..len]) {
            self.came = ReadOutcome::Refused(why);
        }
    }

    /// Reads once, into the cutter's own room, and cuts what came. The file may be read further.
    fn read_in_place<F: Files<Alloc = A>>(&mut self, files: &mut F)
        requires { MayBeRead self.old (F.past files.old).given }
        ensures reads { HasReadOn F.past F.list self.old files.old self.new files.new }
        ensures goes { self.new.came ≡ More → (F.past files.new).given ≢ (F.past files.old).given }
        ensures refused { FeedsAllOrNone self.old (F.past files.old).given self.new (F.past files.new).given }
    {
        if self.make_room().is_err() {
            self.came = ReadOutcome::Refused(CutFault::OutOfMemory);
            return;
        }
        let Ok(count) = files.read(self.cutter.room()) else {
            self.came = ReadOutcome::Failure;
            return;
        };
        if count == 0 {
            self.came = ReadOutcome::End;
            return;
        }
        if let Err(fault) = self.cutter.fill(count) {
            self.came = ReadOutcome::Refused(fault);
        }
    }

    /// Reads the open file once, and cuts what came; or takes all that is left of it, where that is in memory already
    /// and isn't too long. The file may be read further: it is the newest that was given, all that its reads gave was
    /// fed to the cutter, and none of them met its end or failed.
    ///
    /// `came` says what came of it; at `More` the file gave some bytes. The cutter is fed all that the read gave, or
    /// none of it where it is `Refused`: with `LineTooLong` a line is longer than the cutter allows, with `FileTooLong`
    /// the file has more than 2^62 bytes, and with `OutOfMemory` a request for memory was refused.
    pub fn read<F: Files<Alloc = A>>(&mut self, files: &mut F)
        requires { MayBeRead self.old (F.past files.old).given }
        ensures reads { HasReadOn F.past F.list self.old files.old self.new files.new }
        ensures goes { self.new.came ≡ More → (F.past files.new).given ≢ (F.past files.old).given }
        ensures refused { FeedsAllOrNone self.old (F.past files.old).given self.new (F.past files.new).given }
    {
        if self.take_buffered(files) {
            return;
        }
        if self.copied_reads == 0 || self.buffer.is_empty() {
            self.read_in_place(files);
            return;
        }
        self.copied_reads -= 1;
        self.read_copied(files);
    }

    /// The next block that is cut, if there is one.
    pub fn take(&mut self) -> Option<Block<A>>
        ensures came { self.new.came ≡ self.old.came }
        ensures stands { (past : CutterPast) → IsCutterAfter self.old.cutter past →
            IsCutterAfter self.new.cutter (past_handed past result) }
        ensures next { IfSome result (λ block.
            (past : CutterPast) → IsCutterAfter self.old.cutter past → IsNextBlock past block) }
        ensures none { IfNone result (IsDrained self.new.cutter) }
    {
        self.cutter.take()
    }

    /// The whole lines that came and are in no block yet, as a block, if there are any. Where memory for it is refused,
    /// they stay for a later one. `take` has answered `None` since the last read.
    pub fn take_lines(&mut self) -> Option<Block<A>>
        requires { IsDrained self.old.cutter }
        ensures came { self.new.came ≡ self.old.came }
        ensures drained { IsDrained self.new.cutter }
        ensures stands { (past : CutterPast) → IsCutterAfter self.old.cutter past →
            IsCutterAfter self.new.cutter (handed_early past result) }
        ensures lines { IfSome result (λ block.
            (past : CutterPast) → IsCutterAfter self.old.cutter past → HasLinesLeft past block) }
    {
        match self.cutter.take_lines() {
            Ok(block) => block,
            Err(AllocError) => None,
        }
    }

    /// The last block of a file that can't go on, if there is one. `take` has answered `None` since the last read. The
    /// reader has no file then until another is opened.
    pub fn finish(&mut self) -> Option<Block<A>>
        requires { IsDrained self.old.cutter }
        ensures all { (past : CutterPast) → IsCutterAfter self.old.cutter past
            → AreAllBlocks (past_handed past result) }
        ensures none { HasNoFile self.new }
        ensures came { self.new.came ≡ self.old.came }
    {
        let cutter = mem::replace(&mut self.cutter, no_cutter(self.alloc));
        cutter.finish()
    }
}

impl<A: Allocator + Copy, F: Files<Alloc = A>> Reader<F> for FileReader<A> {
    ghost use Rattle.pg_reader.specs.Reads.{HasFedSome, HasReadOn};

    ghost ready = { λ reader files. HasFedSome reader (F.past files).given };

    ghost reaches = { λ reader files reader' files'. HasReadOn F.past F.list reader files reader' files' };

    ghost left = { λ reader. reader.ahead };

    fn step(&mut self, files: &mut F) -> bool {
        let ahead = self.ahead;
        if ahead == 0 || self.came != ReadOutcome::More {
            return false;
        }
        if self.make_room().is_err() {
            // There may be memory once the threads that search have ended.
            self.ahead = 0;
            return false;
        }
        self.read(files);
        self.ahead = ahead - 1;
        true
    }
}
