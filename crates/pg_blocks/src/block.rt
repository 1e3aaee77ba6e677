//! A block of a file.
use std::alloc::{Allocator, Global};
use std::marker::Model;

/// Some whole lines of a file. Only a file's last block may end with an incomplete line.
#[derive(Drop)]
pub struct Block<A: Allocator = Global> {
    /// The file's number in its run, from 0.
    pub file: u32,
    /// The block's number in its file, from 0.
    pub number: u64,
    /// The lines with their terminators.
    pub bytes: Vec<u8, A>,
}

impl<A: Allocator> Model for Block<A> {
    ghost use Rattle.pg_blocks.specs.Blocks.{BlockData};

    ghost Value = { BlockData };

    ghost view = { λ b. record { file = b.file; number = b.number; bytes = b.bytes.items } };
}
