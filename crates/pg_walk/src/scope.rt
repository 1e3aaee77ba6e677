//! What a walk is asked for.
ghost use Rattle.std.specs.Prelude.{◌≡◌, IfOk, None, true, false, not, []};
ghost use Rattle.pg_walk.specs.Scopes.{are_read, are_skipped, is_left_out, may_leave_out, scope_of};
ghost use Rattle.pg_walk.specs.Scopes.{seen_as, sights, TellsSight};
ghost use Rattle.pg_walk.specs.declared.scope.Devices.TheVariants.{ReadOperands};

use crate::tree::{FileKind, FileTree, LookFault};
use pg_glob::Filter;
use std::alloc::{Allocator, Global};

/// What is done with devices, FIFOs and sockets.
#[derive(Clone, Copy, Debug, PartialEq, Eq)]
pub enum Devices {
    /// Operands are read, and those below operands give nothing.
    ReadOperands,
    /// They are read as regular files are.
    Read,
    /// They are left out, operands too.
    Skip,
}

impl Devices {
    /// Whether they are read wherever they stand.
    fn are_read(self) -> bool
        ensures { result ≡ are_read self }
    {
        match self {
            Devices::Read => true,
            Devices::ReadOperands | Devices::Skip => false,
        }
    }

    /// Whether they are left out wherever they stand.
    fn are_skipped(self) -> bool
        ensures { result ≡ are_skipped self }
    {
        match self {
            Devices::Skip => true,
            Devices::ReadOperands | Devices::Read => false,
        }
    }
}

/// What a walk is asked for: whether it goes into directories, where it follows links, what is done with devices, and
/// which files and directories it leaves out.
pub struct Scope<A: Allocator = Global> {
    /// Whether directories are visited.
    pub recursive: bool,
    /// Whether links are followed below operands too. At operands they always are.
    pub follows: bool,
    /// Whether all directories are left out, operands too.
    pub skips_directories: bool,
    /// What is done with devices, FIFOs and sockets.
    pub devices: Devices,
    /// Which files are left out, links, pipes and devices among them.
    pub files: Filter<A>,
    /// Which directories are left out, with all that is in them.
    pub directories: Filter<A>,
}

impl<A: Allocator> Drop for Scope<A> {
    fn drop(self) {
        let Scope {
            recursive: _,
            follows: _,
            skips_directories: _,
            devices: _,
            files: _,
            directories: _,
        } = self;
    }
}

impl<A: Allocator> Scope<A> {
    /// Nothing is left out, and directories are visited or not. Links are followed at operands alone, and devices are
    /// read where they are operands.
    pub fn all(alloc: A, recursive: bool) -> Scope<A>
    where
        A: Copy,
        ensures { scope_of result ≡ record {
          recursive = recursive;
          follows = false;
          skips_directories = false;
          devices = ReadOperands;
          files = [];
          directories = [];
        } }
    {
        Scope {
            recursive,
            follows: false,
            skips_directories: false,
            devices: Devices::ReadOperands,
            files: Filter::new(alloc),
            directories: Filter::new(alloc),
        }
    }

    /// Whether something of a kind is left out at a path.
    fn leaves_out(&self, operand: bool, path: &str, kind: FileKind) -> bool
        ensures { result ≡ is_left_out (scope_of self.now) operand path.now kind }
    {
        match kind {
            FileKind::Directory => {
                self.skips_directories || self.directories.leaves_out(operand, path)
            }
            FileKind::Other => self.devices.are_skipped() || self.files.leaves_out(operand, path),
            FileKind::Regular | FileKind::Link => self.files.leaves_out(operand, path),
        }
    }

    /// Whether an entry of a kind is not left out at its path.
    pub fn keeps_entry(&self, path: &str, kind: FileKind) -> bool
        ensures { result ≡ not (is_left_out (scope_of self.now) false path.now kind) }
    {
        !self.leaves_out(false, path, kind)
    }

    /// As what something of a kind is seen: a device that is read wherever it stands as a regular file.
    fn seen_as(&self, kind: FileKind) -> FileKind
        ensures { result ≡ seen_as self.now.devices kind }
    {
        match kind {
            FileKind::Other => {
                if self.devices.are_read() {
                    FileKind::Regular
                } else {
                    FileKind::Other
                }
            }
            FileKind::Regular | FileKind::Directory | FileKind::Link => kind,
        }
    }
}

/// The kind that what stands at a path is seen as, unless it is left out. Links are followed at operands, and below
/// them where the scope does so. An entry whose kind can't be told, as a link to nothing, is left out as files are.
pub(crate) fn look<A: Allocator, T: FileTree>(
    tree: &T,
    scope: &Scope<A>,
    path: &str,
    operand: bool,
) -> Result<Option<FileKind>, LookFault>
    ensures tells { T.tells tree.now →
        TellsSight ((sights (scope_of scope.now) (T.answers tree.now)).kind path.now operand) result }
    ensures left_out { operand ≡ true → IfOk result (λ kind. kind ≡ None →
        may_leave_out (scope_of scope.now) path.now ≡ true) }
{
    match tree.kind(path, operand || scope.follows) {
        Ok(kind) if scope.leaves_out(operand, path, kind) => Ok(None),
        Ok(kind) => Ok(Some(scope.seen_as(kind))),
        Err(LookFault::Failed) if !operand && scope.files.leaves_out(false, path) => Ok(None),
        Err(fault) => Err(fault),
    }
}
