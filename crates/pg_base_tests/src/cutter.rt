//! Blocks of a file.
ghost use Rattle.pg_blocks.specs.Cutter.{IsDrained};

use crate::rows::{Question, assert_rows, bytes_of, show_bytes};
use pg_blocks::{Block, CutFault, Cutter};
use refusing::Refusing;
use std::alloc::{AllocError, Allocator, Global};

/// How the bytes of a file come into a cutter.
#[derive(Clone, Copy)]
pub(crate) enum Way {
    /// As pieces that are fed.
    CutterPast,
    /// As what is read into the cutter's room.
    Filled,
    /// As pieces that are fed, behind each of which the whole lines are taken.
    Lined,
}

/// A terminator and the pieces of a file, and what a cutter gives: behind each piece the blocks that are finished then,
/// each as its file, number and bytes, or why the piece isn't taken; and then the last block. Blocks have at least 3
/// bytes, and lines at most 4.
const CUT: &str = "%0A a%0Abc%0A%0Ad => 7.0:a%0Abc%0A 7.1:%0Ad
%0A a %0A b c %0A %0A d => 7.0:a%0Abc%0A 7.1:%0Ad
%0A a%0A bc %0A%0A d => 7.0:a%0Abc%0A 7.1:%0Ad
%0A a%0Ab c%0A%0A d => 7.0:a%0Abc%0A 7.1:%0Ad
%0A a%0Abc %0A%0Ad => 7.0:a%0Abc%0A 7.1:%0Ad
%0A a%0Abc%0A %0Ad => 7.0:a%0Abc%0A 7.1:%0Ad
%0A a%0Abc%0A%0A d => 7.0:a%0Abc%0A 7.1:%0Ad
%0A  =>
%0A a%0A%0Ab%0A%0A%0Acd%0A => 7.0:a%0A%0A 7.1:b%0A%0A 7.2:%0Acd%0A
%0A abcd%0A abcde abcd e => 7.0:abcd%0A (line too long) (line too long) 7.1:abcd
%00 a%00b%0Ac%00%00d => 7.0:a%00b%0Ac%00 7.1:%00d
%00 a %00 b %0A c %00 %00 d => 7.0:a%00b%0Ac%00 7.1:%00d
%00 a%00b%0A c%00%00d => 7.0:a%00b%0Ac%00 7.1:%00d
%0A a%00b%0Ac%00%00d => 7.0:a%00b%0A 7.1:c%00%00d
%00  =>
%00 %0A%0A%0A => 7.0:%0A%0A%0A
%00 ab%0Acd%0A => (line too long)
%0A ab%0Acd%0A => 7.0:ab%0A 7.1:cd%0A
%00 ab%0A cd%0A => (line too long) 7.0:ab%0A
%00 ab%0A c d %00 => (line too long) 7.0:ab%0Ac%00
%FF a%FF%00b%FF%0A => 7.0:a%FF%00b%FF 7.1:%0A";

/// Pieces and the blocks that they give, where the whole lines that are in no block are taken behind each piece.
const LINED: &str = "%0A a%0Abc%0A%0Ad => 7.0:a%0Abc%0A 7.1:%0A 7.2:d
%0A a %0A b c %0A %0A d => 7.0:a%0A 7.1:bc%0A 7.2:%0A 7.3:d
%0A a%0A bc%0A%0Ad => 7.0:a%0A 7.1:bc%0A 7.2:%0A 7.3:d
%0A a%0Ab%0A c%0A => 7.0:a%0Ab%0A 7.1:c%0A
%0A a%0A %0A b%0A => 7.0:a%0A 7.1:%0A 7.2:b%0A
%0A  =>
%0A a => 7.0:a
%0A abcd%0A abcde abcd e => 7.0:abcd%0A (line too long) (line too long) 7.1:abcd
%0A a%0Abcd e f %0A => 7.0:a%0A (line too long) 7.1:bcde%0A
%00 a%00b%0Ac%00%00d => 7.0:a%00b%0Ac%00 7.1:%00 7.2:d";

/// Shows a block.
fn show_block(block: &Block, out: &mut String) {
    let file = block.file;
    let number = block.number;
    let _ = write!(out, " {file}.{number}:");
    show_bytes(block.bytes.as_slice(), out);
}

/// Takes a piece of at most 4,096 bytes by way of the cutter's room.
fn fill<A: Allocator + Copy>(cutter: &mut Cutter<A>, piece: &[u8]) -> Result<(), CutFault> {
    cutter.make_room()?;
    let room = cutter.room();
    let count = piece.len().min(room.len());
    room[..count].copy_from_slice(&piece[..count]);
    cutter.fill(count)
}

/// Takes a piece, and shows the blocks that are given then, or why the piece isn't taken, and the whole lines that are
/// in no block where these are taken too.
fn show_taken(cutter: &mut Cutter, way: Way, piece: &[u8], out: &mut String)
    ensures { IsDrained cutter.new }
{
    let taken = match way {
        Way::CutterPast | Way::Lined => cutter.feed(piece),
        Way::Filled => fill(cutter, piece),
    };
    if let Err(fault) = taken {
        let _ = write!(out, " ({fault})");
    }
    while let Some(block) = cutter.take() {
        show_block(&block, out);
    }
    if matches!(way, Way::Lined) {
        show_lines(cutter, out);
    }
}

/// Takes the whole lines that are in no block, and shows them.
fn show_lines(cutter: &mut Cutter, out: &mut String)
    requires { IsDrained cutter.old }
    ensures { IsDrained cutter.new }
{
    if let Ok(Some(block)) = cutter.take_lines() {
        show_block(&block, out);
    }
}

/// Shows what a cutter gives of a file in pieces, which spaces part.
pub(crate) fn show_blocks(alloc: Global, way: Way, end: &str, pieces: &str, out: &mut String) {
    let end = bytes_of(alloc, end).first().copied().unwrap_or(b'?');
    let mut cutter = Cutter::new(alloc, 7, 3, 4, end);
    for piece in pieces.split(' ') {
        show_taken(&mut cutter, way, &bytes_of(alloc, piece), out);
    }
    if let Some(block) = cutter.finish() {
        show_block(&block, out);
    }
}

#[test]
fn a_file_is_cut_at_its_terminator(rt: HostRuntime) {
    assert_rows(&rt, rt.alloc(), Question::Blocks(Way::CutterPast), CUT);
    assert_rows(&rt, rt.alloc(), Question::Blocks(Way::Filled), CUT);
    assert_rows(&rt, rt.alloc(), Question::Blocks(Way::Lined), LINED);
}

/// Whether a cutter takes a file by way of the room, at a second call where a request for memory is refused.
fn is_taken<A: Allocator + Copy>(cutter: &mut Cutter<A>, heap: &Refusing, file: &[u8]) -> bool {
    let was_refused = heap.has_refused();
    match fill(cutter, file) {
        Ok(()) => heap.has_refused() == was_refused,
        Err(_) => !was_refused && heap.has_refused() && fill(cutter, file).is_ok(),
    }
}

/// Whether a cutter gives `a` and its terminator as the first block, and makes room once the block's memory was given
/// back, by at most so many requests.
fn gives_first<A: Allocator + Copy>(cutter: &mut Cutter<A>, heap: &Refusing, most: u64) -> bool {
    let requests = heap.requests();
    let Some(block) = cutter.take() else {
        return false;
    };
    let is_first = block.bytes.as_slice() == b"a\n".as_slice();
    cutter.give_back(block.bytes);
    let has_room = cutter.make_room().is_ok() || heap.has_refused();
    is_first && has_room && heap.requests().wrapping_sub(requests) <= most
}

/// Whether a file comes and its first block is given.
fn is_cut(heap: &Refusing, file: &[u8], most: u64) -> bool {
    let mut cutter = Cutter::new(heap, 0, 2, 100, b'\n');
    is_taken(&mut cutter, heap, file) && gives_first(&mut cutter, heap, most)
}

/// Whether there is a block with this number and these bytes.
fn is_block<A: Allocator>(block: Option<Block<A>>, number: u64, bytes: &[u8]) -> bool {
    match block {
        Some(block) => block.number == number && block.bytes.as_slice() == bytes,
        None => false,
    }
}

/// Whether a cutter gives the block `a` and its terminator, and `b` as the last one, and asks for no memory meanwhile.
fn gives_both<A: Allocator + Copy>(cutter: Cutter<A>, heap: &Refusing) -> bool {
    let mut cutter = cutter;
    let requests = heap.requests();
    let are_taken = is_block(cutter.take(), 0, b"a\n") && cutter.take().is_none();
    are_taken && is_block(cutter.finish(), 1, b"b") && heap.requests() == requests
}

/// Whether a file of two blocks comes in two pieces, of which the first finishes no block, and both blocks are given.
fn is_given(heap: &Refusing) -> bool {
    let mut cutter = Cutter::new(heap, 0, 2, 100, b'\n');
    is_taken(&mut cutter, heap, b"a")
        && is_taken(&mut cutter, heap, b"\nb")
        && gives_both(cutter, heap)
}

/// Whether a file of two blocks comes, and one of a block, whose memory is used again.
pub(crate) fn is_filled(heap: &Refusing) -> bool {
    is_cut(heap, b"a\nb", u64::MAX) && is_cut(heap, b"a\n", 0) && is_given(heap)
}

/// Whether a cutter from which no block waits gives the line `a` as the first block, at a second call where a request
/// for memory is refused.
fn gives_line<A: Allocator + Copy>(cutter: &mut Cutter<A>, heap: &Refusing) -> bool
    requires { IsDrained cutter.old }
    ensures { IsDrained cutter.new }
{
    let was_refused = heap.has_refused();
    let given = match cutter.take_lines() {
        Err(AllocError) if !was_refused && heap.has_refused() => cutter.take_lines(),
        given => given,
    };
    match given {
        Ok(block) => is_block(block, 0, b"a\n"),
        Err(AllocError) => false,
    }
}

/// Whether a line is given before its block is finished, and what stands behind it as the last block.
pub(crate) fn is_lined(heap: &Refusing) -> bool {
    let mut cutter = Cutter::new(heap, 0, 4, 100, b'\n');
    if !is_taken(&mut cutter, heap, b"a\nb") || cutter.take().is_some() {
        return false;
    }
    gives_line(&mut cutter, heap) && is_block(cutter.finish(), 1, b"b")
}
