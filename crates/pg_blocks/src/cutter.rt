//! Cuts a file that comes in pieces into blocks of whole lines.
ghost use Rattle.std.specs.Prelude.{◌≡◌, ℕ, ◌+◌, ◌-◌, ◌<◌, ◌≤◌, ◌^◌, ◌∷◌, ◌++◌, [], IfSome, IfNone, IfOk};
ghost use Rattle.std.specs.Prelude.{OnOk, OnErr, Some, None, Option, length, take, drop, if◌then◌else◌};
ghost use Rattle.pg_blocks.specs.Blocks.{IsFinished, IsUnfinished, Cuts, AreNumbered};
ghost use Rattle.pg_blocks.specs.Long.{has_long, open_from, CutsOff};
ghost use Rattle.pg_blocks.specs.declared.cutter.CutFault.TheVariants.{OutOfMemory};
ghost use Rattle.std.specs.VecDeque.{deque_len, deque_capacity};

use crate::block::Block;
use memchr::{memchr, memrchr};
use std::alloc::{AllocError, Allocator, Global};
use std::collections::VecDeque;
use std::mem;
use thiserror::Error;

/// The most bytes of a file: 2^62.
const MAX_FILE: u64 = 4_611_686_018_427_387_904;

/// The room behind a block's size for the line that ends it. Longer lines make the block grow.
const LINE_ROOM: usize = 4096;

/// The most bytes that a file's first buffer begins with.
const FIRST_ROOM: usize = 16_384;

/// Why a piece of a file isn't taken.
#[derive(Clone, Copy, Debug, PartialEq, Eq, Error)]
pub enum CutFault {
    /// A line would be longer than the cutter allows.
    #[error("line too long")]
    LineTooLong,
    /// A request for memory was refused.
    #[error("out of memory")]
    OutOfMemory,
    /// The file would have more than 2^62 bytes.
    #[error("file too long")]
    FileTooLong,
}

impl From<AllocError> for CutFault {
    ghost from_gives = { λ _ e. e ≡ OutOfMemory };

    fn from(_error: AllocError) -> CutFault {
        CutFault::OutOfMemory
    }
}

/// What a file is cut by: its number, the least size of its blocks, and the terminator of its lines; and where blocks
/// get their memory from.
#[derive(Clone, Copy)]
struct Cutting<A: Allocator + Copy> {
    alloc: A,
    file: u32,
    size: u32,
    end: u8,
}

/// The open block: its number, and how many bytes it has.
#[derive(Clone, Copy)]
struct OpenBlock {
    number: u64,
    filled: usize,
}

/// How many bytes of a piece finish the block that begins with `rest`, in which no block is finished. A block has at
/// least one byte.
fn first_cut(rest: &[u8], size: u32, end: u8, piece: &[u8]) -> Option<usize>
    requires size { 0 < size }
    requires unfinished { IsUnfinished end size rest.now }
    ensures within { IfSome result (λ n. (0 < n) × (n ≤ length piece.now)) }
    ensures some { IfSome result (λ n. IsFinished end size (rest.now ++ take n piece.now)) }
    ensures none { IfNone result (IsUnfinished end size (rest.now ++ piece.now)) }
{
    let from = (size as usize - 1).saturating_sub(rest.len());
    if piece.len() <= from {
        return None;
    }
    match memchr(end, &piece[from..]) {
        Some(len) => Some(from + len + 1),
        None => None,
    }
}

/// The finished blocks of some bytes, numbered from `first` on, and where the rest begins. A block has at least one
/// byte, and no number reaches 2^64.
fn cut_all<A: Allocator + Copy>(
    cutting: Cutting<A>,
    first: u64,
    bytes: &[u8],
) -> Result<(VecDeque<Block<A>, A>, usize), AllocError>
    requires size { 0 < cutting.size }
    requires first { first + length bytes.now < 2 ^ 64 }
    ensures within { IfOk result (λ cut. cut.1 ≤ length bytes.now) }
    ensures few { IfOk result (λ cut. length cut.0.items ≤ cut.1) }
    ensures cut { IfOk result (λ cut. Cuts cutting.end cutting.size bytes.now cut.0.items (drop cut.1 bytes.now)) }
    ensures numbered { IfOk result (λ cut. AreNumbered cutting.file first cut.0.items) }
{
    let mut blocks = VecDeque::new(cutting.alloc);
    let mut at = 0;
    let mut number = first;
    while let Some(len) = first_cut(&[], cutting.size, cutting.end, &bytes[at..]) {
        let block = Vec::from_slice(cutting.alloc, &bytes[at..at + len])?;
        blocks.push_back(Block {
            file: cutting.file,
            number,
            bytes: block,
        })?;
        at += len;
        number += 1;
    }
    Ok((blocks, at))
}

/// The length of the line that is open behind a piece, unless a line is too long. The one that is open before it,
/// of length `line`, isn't. It looks at each byte.
fn line_by_byte(line: u32, longest: u32, end: u8, piece: &[u8]) -> Option<u32>
    requires { line ≤ longest }
    ensures value { result
        ≡ (if has_long end longest line piece.now then None else Some (open_from end line piece.now)) }
    ensures fits { IfSome result (λ n. n ≤ longest) }
{
    let mut line = line;
    for byte in piece {
        if *byte == end {
            line = 0;
        } else {
            if line == longest {
                return None;
            }
            line += 1;
        }
    }
    Some(line)
}

/// The length of the line that is open behind a piece, unless a line is too long. The one that is open before it,
/// of length `line`, isn't.
fn line_after(line: u32, longest: u32, end: u8, piece: &[u8]) -> Option<u32>
    requires { line ≤ longest }
    ensures value { result
        ≡ (if has_long end longest line piece.now then None else Some (open_from end line piece.now)) }
    ensures fits { IfSome result (λ n. n ≤ longest) }
{
    if piece.len() > (longest - line) as usize {
        return line_by_byte(line, longest, end, piece);
    }
    match memrchr(end, piece) {
        Some(last) => Some((piece.len() - last - 1) as u32),
        None => Some(line + piece.len() as u32),
    }
}

/// Moves the block whose bytes `rest` has to the ready ones, and those behind it, where there is room for them all.
/// Then `rest` has the bytes that are left.
fn hand_over<A: Allocator + Copy>(
    file: u32,
    number: u64,
    rest: &mut Vec<u8, A>,
    left: Vec<u8, A>,
    ready: &mut VecDeque<Block<A>, A>,
    blocks: &mut VecDeque<Block<A>, A>,
)
    requires { deque_len ready.old + (deque_len blocks.old + 1) ≤ deque_capacity ready.old }
    ensures left { rest.new ≡ left }
    ensures ready { ready.new.items
        ≡ (ready.old.items ++ record { file = file; number = number; bytes = rest.old.items } ∷ [])
        ++ blocks.old.items }
{
    ready.push_back_reserved(Block {
        file,
        number,
        bytes: mem::replace(rest, left),
    });
    ready.append(blocks).unwrap();
}

/// How many bytes the buffer of an open block is to have, where it has `len` and the block has `filled` of them: at
/// first those of a block and of the line that ends it, or fewer for a file's first block, since many files are small.
/// A buffer that is full and holds so many doubles.
fn buffer_len(size: u32, is_first: bool, len: usize, filled: usize) -> usize
    requires { (size ≤ 2 ^ 24) × (filled ≤ 2 ^ 62) }
    ensures { filled < result }
{
    let whole = size as usize + LINE_ROOM;
    if is_first && filled < FIRST_ROOM.min(whole) {
        FIRST_ROOM.min(whole)
    } else if filled < whole {
        whole
    } else if filled < len {
        len
    } else {
        2 * filled
    }
}

/// A buffer that begins with these bytes. It is the spare one, and what that has behind them is room, unless it is too
/// short.
fn buffer_behind<A: Allocator + Copy>(
    alloc: A,
    spare: &mut Vec<u8, A>,
    bytes: &[u8],
) -> Result<Vec<u8, A>, AllocError>
    ensures within { IfOk result (λ buffer. length bytes.now ≤ length buffer.items) }
    ensures begins { IfOk result (λ buffer. take (length bytes.now) buffer.items ≡ bytes.now) }
{
    if spare.len() < bytes.len() {
        return Vec::from_slice(alloc, bytes);
    }
    let mut buffer = mem::replace(spare, Vec::new(alloc));
    buffer.slice_mut(..bytes.len()).copy_from_slice(bytes);
    Ok(buffer)
}

/// Takes the first `len` bytes off, of the `filled` ones with which a buffer begins. The buffer begins with the others
/// then. An `Err` leaves it as it was.
fn take_front<A: Allocator + Copy>(
    alloc: A,
    rest: &mut Vec<u8, A>,
    spare: &mut Vec<u8, A>,
    filled: usize,
    len: usize,
) -> Result<Vec<u8, A>, AllocError>
    requires { (len ≤ filled) × (filled ≤ length rest.old.items) }
    ensures front { IfOk result (λ front. front.items ≡ take len rest.old.items) }
    ensures left { OnOk result (take (filled - len) rest.new.items ≡ drop len (take filled rest.old.items)) }
    ensures within { OnOk result (filled - len ≤ length rest.new.items) }
    ensures err { OnErr result (rest.new.items ≡ rest.old.items) }
{
    let mut front = buffer_behind(alloc, spare, &rest[..len])?;
    front.truncate(len);
    rest.copy_within(len..filled, 0);
    Ok(front)
}

/// Cuts the blocks off that `count` bytes behind those of the open block, with which `rest` begins, finish, and leaves
/// there what is behind them. The first `len` of these bytes finish the first of them, whose size is as `Cutter::new`
/// has it. The answer is their count, and how many bytes of `rest` are the open block's then. An `Err` leaves both
/// lists as they were.
fn cut_open<A: Allocator + Copy>(
    cutting: Cutting<A>,
    block: OpenBlock,
    rest: &mut Vec<u8, A>,
    spare: &mut Vec<u8, A>,
    ready: &mut VecDeque<Block<A>, A>,
    count: usize,
    len: usize,
) -> Result<(u64, usize), AllocError>
    requires size { (0 < cutting.size) × (cutting.size ≤ 2 ^ 24) }
    requires number { block.number + count < 2 ^ 63 }
    requires within { block.filled + count ≤ length rest.old.items }
    requires len { (0 < len) × (len ≤ count) }
    requires finished { IsFinished cutting.end cutting.size
        (take block.filled rest.old.items ++ take len (take count (drop block.filled rest.old.items))) }
    ensures ok { IfOk result (λ cut. CutsOff cutting.end cutting.size cutting.file block.number
        (take block.filled rest.old.items ++ take count (drop block.filled rest.old.items))
        ready.old.items ready.new.items (take cut.1 rest.new.items) cut.0) }
    ensures within { IfOk result (λ cut. cut.1 ≤ length rest.new.items) }
    ensures few { IfOk result (λ cut. cut.0 + cut.1 ≤ block.filled + count) }
    ensures err { OnErr result ((rest.new.items ≡ rest.old.items) × (ready.new.items ≡ ready.old.items)) }
{
    let (_, room) = rest.as_slice().split_at(block.filled);
    let piece = &room[..count];
    let (mut blocks, at) = cut_all(cutting, block.number + 1, &piece[len..])?;
    ready.reserve(blocks.len() + 1)?;
    let behind = &piece[len + at..];
    let left = buffer_behind(cutting.alloc, spare, behind)?;
    let cut = (blocks.len() as u64 + 1, behind.len());
    rest.truncate(block.filled + len);
    hand_over(cutting.file, block.number, rest, left, ready, &mut blocks);
    Ok(cut)
}

/// Cuts the blocks off that `count` bytes behind those of the open block, with which `rest` begins, finish, and leaves
/// there what is behind them. The open block isn't finished yet, and sizes are as `Cutter::new` has them. The answer is
/// the count of the blocks, and how many bytes of `rest` are the open block's then. An `Err` leaves both lists as they
/// were.
fn cut_filled<A: Allocator + Copy>(
    cutting: Cutting<A>,
    block: OpenBlock,
    rest: &mut Vec<u8, A>,
    spare: &mut Vec<u8, A>,
    ready: &mut VecDeque<Block<A>, A>,
    count: usize,
) -> Result<(u64, usize), AllocError>
    requires size { (0 < cutting.size) × (cutting.size ≤ 2 ^ 24) }
    requires number { block.number + count < 2 ^ 63 }
    requires within { block.filled + count ≤ length rest.old.items }
    requires unfinished { IsUnfinished cutting.end cutting.size (take block.filled rest.old.items) }
    ensures ok { IfOk result (λ cut. CutsOff cutting.end cutting.size cutting.file block.number
        (take block.filled rest.old.items ++ take count (drop block.filled rest.old.items))
        ready.old.items ready.new.items (take cut.1 rest.new.items) cut.0) }
    ensures within { IfOk result (λ cut. cut.1 ≤ length rest.new.items) }
    ensures few { IfOk result (λ cut. cut.0 + cut.1 ≤ block.filled + count) }
    ensures err { OnErr result ((rest.new.items ≡ rest.old.items) × (ready.new.items ≡ ready.old.items)) }
{
    let (begun, room) = rest.as_slice().split_at(block.filled);
    match first_cut(begun, cutting.size, cutting.end, &room[..count]) {
        Some(len) => cut_open(cutting, block, rest, spare, ready, count, len),
        None => Ok((0, block.filled + count)),
    }
}

/// Cuts a file into blocks of whole lines.
///
/// A block is the shortest beginning of what follows that has at least `size` bytes and ends with the
/// terminator of lines. What is left at the end of the file is its last block, unless it is empty. So
/// the blocks depend on the bytes, the size and the terminator, and not on the pieces that were fed. Only where whole
/// lines are asked for before their block is finished do they come as a block of their own, and the next one begins
/// behind them.
pub struct Cutter<A: Allocator + Copy = Global> {
    alloc: A,
    file: u32,
    size: u32,
    longest: u32,
    end: u8,
    number: u64,
    total: u64,
    line: u32,
    ready: VecDeque<Block<A>, A>,
    /// The bytes of the open block, and the room behind them.
    rest: Vec<u8, A>,
    /// How many bytes the open block has.
    filled: usize,
    /// What the next block's buffer is made of.
    spare: Vec<u8, A>,
    ghost sized: { (0 < size) × (size ≤ 2 ^ 24) },
    ghost within: { filled ≤ length rest.items },
    ghost unfinished: { IsUnfinished end size (take filled rest.items) },
    ghost few: { total ≤ 2 ^ 62 },
    ghost numbers: { number + filled ≤ total },
    ghost line_fits: { line ≤ longest },
}

impl<A: Allocator + Copy> Drop for Cutter<A> {
    fn drop(self) {
        let Cutter {
            alloc: _,
            file: _,
            size: _,
            longest: _,
            end: _,
            number: _,
            total: _,
            line: _,
            ready: _,
            rest: _,
            filled: _,
            spare: _,
        } = self;
    }
}

impl<A: Allocator + Copy> Cutter<A> {
    ghost use Rattle.std.specs.Borrow.{sem};
    ghost use Rattle.pg_blocks.specs.Cutter.{CutterPast, IsCutterAfter, IsDrained, unfed, fed, past_handed};
    ghost use Rattle.pg_blocks.specs.Cutter.{HasNoneLeft};
    ghost use Rattle.pg_blocks.specs.Cutter.{IsNextBlock, AreAllBlocks, FitsBehind, TellsWhy, FeedsPiece, KeepsCutter};
    ghost use Rattle.pg_blocks.specs.Cutter.{blocks_ready, room_of};
    ghost use Rattle.pg_blocks.specs.Cutter.{handed_early, HasLinesLeft, HasNoLineLeft};
    ghost use Rattle.pg_blocks.specs.Lending.{LendsRoom};

    /// A cutter for the file of a number, which was fed nothing.
    ///
    /// Blocks have at least `size` bytes, from 1 to 2^24, and a line at most `longest` bytes without
    /// its terminator, from 1 to 2^30. The terminator `end` may be any byte. The program gives newline,
    /// or byte 0 for `-z`.
    pub fn new(alloc: A, file: u32, size: u32, longest: u32, end: u8) -> Cutter<A>
        requires size { (1 ≤ size) × (size ≤ 2 ^ 24) }
        requires longest { (1 ≤ longest) × (longest ≤ 2 ^ 30) }
        ensures stands { IsCutterAfter result (unfed end file size longest) }
        ensures drained { IsDrained result }
    {
        Cutter {
            alloc,
            file,
            size,
            longest,
            end,
            number: 0,
            total: 0,
            line: 0,
            ready: VecDeque::new(alloc),
            rest: Vec::new(alloc),
            filled: 0,
            spare: Vec::new(alloc),
        }
    }

    /// Takes the next bytes of the file. It makes all requests for memory that `take` and `finish`
    /// would need. An `Err` changes nothing but what the room holds.
    ///
    /// `FileTooLong` comes where more than 2^62 bytes would have been fed, and else `LineTooLong`
    /// where a line of the bytes so far would be too long. `OutOfMemory` comes where neither holds
    /// and a request for memory was refused.
    pub fn feed(&mut self, piece: &[u8]) -> Result<(), CutFault>
        ensures { FeedsPiece self.old self.new piece.now result }
    {
        let line = self.line_behind(piece)?;
        self.write_room(piece)?;
        self.take_in(piece.len(), line)?;
        Ok(())
    }

    /// Takes the next bytes of the file as `feed` does, and with them their memory: where no byte of the open block
    /// came yet, they become its beginning, and nothing is copied but what stands behind it.
    pub fn feed_owned(&mut self, piece: Vec<u8, A>) -> Result<(), CutFault>
        ensures { FeedsPiece self.old self.new piece.items result }
    {
        if self.filled > 0 {
            return self.feed(&piece);
        }
        let count = piece.len();
        self.rest = piece;
        self.fill(count)
    }

    /// The length of the line that is open behind a piece that may come next.
    ///
    /// # Errors
    ///
    /// `FileTooLong` and `LineTooLong` as `feed` has them.
    fn line_behind(&self, piece: &[u8]) -> Result<u32, CutFault>
        ensures ok { IfOk result (λ n. FitsBehind self.now piece.now n) }
        ensures why { TellsWhy self.now piece.now result }
    {
        if piece.len() as u64 > MAX_FILE - self.total {
            return Err(CutFault::FileTooLong);
        }
        match line_after(self.line, self.longest, self.end, piece) {
            Some(line) => Ok(line),
            None => Err(CutFault::LineTooLong),
        }
    }

    /// Has the room behind the open block hold a piece and nothing else. An `Err` may change what the room holds, and
    /// nothing else.
    fn write_room(&mut self, piece: &[u8]) -> Result<(), AllocError>
        ensures room { OnOk result (room_of self.new ≡ piece.now) }
        ensures keeps { KeepsCutter self.old self.new }
        ensures goes_on { (n : ℕ) → FitsBehind self.old piece.now n → FitsBehind self.new piece.now n }
    {
        self.rest.truncate(self.filled);
        self.rest.extend_from_slice(piece)
    }

    /// Takes the first `count` bytes of the room as the next bytes of the file, behind which a line of length `line`
    /// is open. An `Err` changes nothing, and the bytes still stand in the room.
    fn take_in(&mut self, count: usize, line: u32) -> Result<(), AllocError>
        requires within { count ≤ length (room_of self.old) }
        requires goes_on { FitsBehind self.old (take count (room_of self.old)) line }
        ensures ok { (past : CutterPast) → IsCutterAfter self.old past →
            OnOk result (IsCutterAfter self.new (fed past (take count (room_of self.old)))) }
        ensures err { OnErr result (KeepsCutter self.old self.new) }
        ensures same { OnErr result (room_of self.new ≡ room_of self.old) }
    {
        let cutting = Cutting {
            alloc: self.alloc,
            file: self.file,
            size: self.size,
            end: self.end,
        };
        let block = OpenBlock {
            number: self.number,
            filled: self.filled,
        };
        let (blocks, filled) = cut_filled(
            cutting,
            block,
            &mut self.rest,
            &mut self.spare,
            &mut self.ready,
            count,
        )?;
        self.filled = filled;
        self.number += blocks;
        self.total += count as u64;
        self.line = line;
        Ok(())
    }

    /// Sees that there is room behind the open block, of one byte at least. It is that of memory that was given back,
    /// where that serves. What the room held may change, and nothing else does.
    ///
    /// # Errors
    ///
    /// `AllocError` where a request for memory was refused.
    pub fn make_room(&mut self) -> Result<(), AllocError>
        ensures some { OnOk result (0 < length (room_of self.new)) }
        ensures keeps { KeepsCutter self.old self.new }
    {
        self.take_spare();
        let is_first = self.number == 0;
        let len = buffer_len(self.size, is_first, self.rest.len(), self.filled);
        if len <= self.rest.len() {
            return Ok(());
        }
        self.rest.resize(len, 0)
    }

    /// Takes the spare buffer for a block of which nothing came yet, where it is the longer one.
    fn take_spare(&mut self)
        ensures { KeepsCutter self.old self.new }
    {
        if self.filled == 0 && self.rest.len() < self.spare.len() {
            self.rest = mem::replace(&mut self.spare, Vec::new(self.alloc));
        }
    }

    /// The room behind the bytes of the file so far. What is written there counts once `fill` is called.
    pub fn room(&mut self) -> &mut [u8]
        ensures* lends { sem 𝓛 (LendsRoom A.row A.Allocator self.entry result) }
        ensures value { result.now ≡ room_of self.old }
    {
        let filled = self.filled;
        self.rest.slice_mut(filled..)
    }

    /// Takes the first `count` bytes of the room, which has so many, as the next bytes of the file, as `feed` takes a
    /// piece. An `Err` changes nothing, and the bytes still stand in the room.
    ///
    /// # Errors
    ///
    /// `FileTooLong` comes where more than 2^62 bytes would have been fed, and else `LineTooLong`
    /// where a line of the bytes so far would be too long. `OutOfMemory` comes where neither holds
    /// and a request for memory was refused.
    pub fn fill(&mut self, count: usize) -> Result<(), CutFault>
        requires { count ≤ length (room_of self.old) }
        ensures fed { FeedsPiece self.old self.new (take count (room_of self.old)) result }
        ensures same { OnErr result (room_of self.new ≡ room_of self.old) }
    {
        let line = self.line_behind(&self.rest[self.filled..self.filled + count])?;
        self.take_in(count, line)?;
        Ok(())
    }

    /// Takes the memory of a block that is done with, for the room of a later one. Of two such the longer one is kept,
    /// and what is far longer than a block is freed.
    pub fn give_back(&mut self, memory: Vec<u8, A>)
        ensures keeps { KeepsCutter self.old self.new }
        ensures waiting { blocks_ready self.new ≡ blocks_ready self.old }
        ensures room { room_of self.new ≡ room_of self.old }
    {
        let most = 2 * (self.size as usize + LINE_ROOM);
        if self.spare.len() < memory.len() && memory.capacity() <= most {
            self.spare = memory;
        }
    }

    /// The next finished block. `None` comes only where no finished block is left.
    pub fn take(&mut self) -> Option<Block<A>>
        ensures stands { (past : CutterPast) → IsCutterAfter self.old past
            → IsCutterAfter self.new (past_handed past result) }
        ensures next { IfSome result
            (λ block. (past : CutterPast) → IsCutterAfter self.old past → IsNextBlock past block) }
        ensures none { IfNone result (IsDrained self.new × ((past : CutterPast) → IsCutterAfter self.old past
            → HasNoneLeft past)) }
        ensures fewer { IfSome result (λ _. blocks_ready self.new < blocks_ready self.old) }
        ensures room { room_of self.new ≡ room_of self.old }
    {
        self.ready.pop_front()
    }

    /// Hands the whole lines of the open block out, as a block, before it is finished. `None` comes where no line ends
    /// in it. What stands behind them is cut by the size as a file is from its first byte on. `take` has answered
    /// `None` since the last `feed` or `fill`. An `Err` changes nothing.
    ///
    /// # Errors
    ///
    /// `AllocError` where a request for memory was refused.
    pub fn take_lines(&mut self) -> Result<Option<Block<A>>, AllocError>
        requires { IsDrained self.old }
        ensures stands { (past : CutterPast) → IsCutterAfter self.old past →
            IfOk result (λ block. IsCutterAfter self.new (handed_early past block)) }
        ensures some { (past : CutterPast) → IsCutterAfter self.old past →
            IfOk result (λ block. IfSome block (λ block. HasLinesLeft past block)) }
        ensures none { (past : CutterPast) → IsCutterAfter self.old past →
            IfOk result (λ block. IfNone block (HasNoLineLeft past)) }
        ensures drained { IsDrained self.new }
        ensures err { OnErr result (KeepsCutter self.old self.new) }
        ensures same { OnErr result (room_of self.new ≡ room_of self.old) }
    {
        let open = self.line as usize;
        if self.filled <= open {
            return Ok(None);
        }
        let bytes = take_front(
            self.alloc,
            &mut self.rest,
            &mut self.spare,
            self.filled,
            self.filled - open,
        )?;
        let number = self.number;
        self.filled = open;
        self.number += 1;
        Ok(Some(Block {
            file: self.file,
            number,
            bytes,
        }))
    }

    /// The file's last block, where something is left. `take` has answered `None` since the last
    /// `feed`.
    pub fn finish(self) -> Option<Block<A>>
        requires { IsDrained self }
        ensures { (past : CutterPast) → IsCutterAfter self past → AreAllBlocks (past_handed past result) }
    {
        let Cutter {
            alloc: _,
            file,
            size: _,
            longest: _,
            end: _,
            number,
            total: _,
            line: _,
            ready: _,
            mut rest,
            filled,
            spare: _,
        } = self;
        rest.truncate(filled);
        if rest.is_empty() {
            return None;
        }
        Some(Block {
            file,
            number,
            bytes: rest,
        })
    }
}
