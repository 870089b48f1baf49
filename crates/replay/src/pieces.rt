//! A capture as it is read, piece by piece.
ghost use Rattle.std.specs.Prelude.{◌≤◌, vec_len};

use capture::{LONGEST_FRAME, RECORD_HEADER};
use std::alloc::Global;
use std::fs::File;
use std::io;
use std::io::Read;

/// How many bytes are read at once, at most, beside the longest record.
const PIECE: usize = 1 << 20;

/// The bytes of a capture that were read and are not yet used.
#[derive(Drop)]
pub struct Pieces {
    file: File,
    buffer: Vec<u8>,
    start: usize,
    end: usize,
    /// Where in the file the first of them stands.
    offset: u64,
    ghost within: { (start ≤ end) × (end ≤ vec_len buffer) },
}

impl Pieces {
    /// A capture of which nothing was read.
    pub fn new(alloc: Global, file: File) -> io::Result<Pieces> {
        Ok(Pieces {
            file,
            buffer: vec![in alloc; 0; RECORD_HEADER + LONGEST_FRAME + PIECE]?,
            start: 0,
            end: 0,
            offset: 0,
        })
    }

    /// The bytes at hand.
    pub fn bytes(&self) -> &[u8] {
        &self.buffer[self.start..self.end]
    }

    /// Where in the file they begin.
    pub fn offset(&self) -> u64 {
        self.offset
    }

    /// So many of the bytes at hand are used.
    pub fn advance(&mut self, count: usize) {
        let used = count.min(self.end - self.start);
        self.start += used;
        self.offset = self.offset.saturating_add(used as u64);
    }

    /// Reads more bytes behind those at hand; false where the file ends.
    pub fn fill(&mut self) -> io::Result<bool> {
        let left = self.end - self.start;
        self.buffer.copy_within(self.start..self.end, 0);
        self.start = 0;
        self.end = left;
        let got = self.file.read(&mut self.buffer[left..])?;
        self.end = left + got;
        Ok(got > 0)
    }
}
