//! The system's files, of which some were read ahead.
ghost use Rattle.pg_files.specs.DiskStore.{IsUnopened};

use crate::tree::PrefetchTree;
use pg_files::{DiskStore, OpenFault, ReadFault, Store};
use std::alloc::Global;
use std::rt::Files;
use std::sync::Wait;

/// The system's files and standard input, as a [`DiskStore`] opens them. A file that the tree has read ahead isn't
/// opened again.
pub struct PrefetchStore<'t, R: Files + Input + Drop> {
    tree: &'t PrefetchTree<R>,
    disk: DiskStore<R>,
}

impl<R: Files + Input + Drop> Drop for PrefetchStore<'_, R> {
    fn drop(self) {
        let PrefetchStore { tree: _, disk: _ } = self;
    }
}

impl<'t, R: Files + Input + Wait + Copy + Drop> PrefetchStore<'t, R> {
    /// No file is open. What standard output goes to is looked at now.
    pub fn new(rt: R, tree: &'t PrefetchTree<R>) -> PrefetchStore<'t, R>
        ensures { IsUnopened result.disk }
    {
        PrefetchStore {
            tree,
            disk: DiskStore::new(rt),
        }
    }
}

impl<R: Files + Input + Wait + Copy + Drop> Store for PrefetchStore<'_, R> {
    type Alloc = Global;

    ghost past = { λ s. s.disk.past };

    fn open(&mut self, path: &str, spares_output: bool) -> Result<(), OpenFault> {
        match self.tree.take_file(path) {
            Some(file) => self.disk.open_whole(path, spares_output, file),
            None => self.disk.open(path, spares_output),
        }
    }

    fn may_wait(&self) -> bool {
        self.disk.may_wait()
    }

    fn read(&mut self, into: &mut [u8]) -> Result<usize, ReadFault> {
        self.disk.read(into)
    }

    fn take_buffered(&mut self, most: usize) -> Option<Vec<u8>> {
        self.disk.take_buffered(most)
    }
}
