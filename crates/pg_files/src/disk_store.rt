//! The system's files.
ghost use Rattle.std.specs.Prelude.{◌≡◌, ◌≢◌, ◌⊎◌, ◌∷◌, ◌↔◌, length, true, OnOk, IfErr, IsErr, IsOk, IsSome, IsTrue};
ghost use Rattle.std.specs.Prelude.{◌≤◌, [], codes, length, option_map, IfNone, IfSome, Some};
ghost use Rattle.std.specs.Io.KnownBytes.{ReadConsumes};
ghost use Rattle.pg_files.specs.Asking.{ReadGives, TakesBuffered};
ghost use Rattle.pg_files.specs.Store.{Opens};

use crate::files::ReadFault;
use crate::past::StorePast;
use crate::store::{OpenFault, Store};
use crate::whole_file::WholeFile;
use pg_base::Cause;
use pg_walk::Identity;
use std::alloc::Global;
use std::fs::{Metadata, OpenFile};
use std::io::{ErrorKind, Read};
use std::marker::Model;
use std::os::unix::fs::MetadataExt;
use std::rt::Files;
use std::{fs, io};

#[derive(Drop)]
enum Source<I: Read + Drop, F: Read + OpenFile + Drop> {
    Closed,
    Standard(I),
    Open(F),
    /// One that was read ahead, of whose bytes so many were given.
    Whole(WholeFile, usize),
}

/// What tells a regular file from all others. Other things have none.
pub(crate) fn regular_id(metadata: io::Result<Metadata>) -> Option<Identity> {
    let metadata = metadata.ok()?;
    if metadata.is_file() {
        Some(Identity {
            device: metadata.dev(),
            number: metadata.ino(),
        })
    } else {
        None
    }
}

/// The system's files and standard input. A directory can be opened, and its first read fails.
#[derive(Drop)]
pub struct DiskStore<R: Files + Input + Drop> {
    rt: R,
    source: Source<R::Reader, R::File>,
    /// Whether a read of the open file may wait: it is no regular file, as far as could be found out.
    waits: bool,
    /// The regular file that standard output goes to.
    output: Option<Identity>,
    past: StorePast,
}

impl<R: Files + Input + Drop> Model for DiskStore<R> {
    ghost use Rattle.pg_files.specs.DiskStore.{DiskData, disk_left, source_kind};

    ghost Value = { DiskData };

    ghost view = { λ s. record {
      past = s.past;
      reads = source_kind s.source;
      left = disk_left R.Reader.remaining R.File.remaining s.source;
      output = s.output;
    } };
}

impl<R: Files + Input + Drop> DiskStore<R> {
    ghost use Rattle.std.specs.Prelude.{Some, OnErr};
    ghost use Rattle.pg_files.specs.DiskStore.{Nothing, AWholeFile, IsUnopened};
    ghost use Rattle.pg_files.specs.Given.{NoFile};
    ghost use Rattle.pg_base.specs.declared.cause.Cause.TheVariants.{IsOutput};
    ghost use Rattle.pg_files.specs.declared.store.OpenFault.TheVariants.{Refused};

    /// No file is open. What standard output goes to is looked at now.
    pub fn new(rt: R) -> DiskStore<R>
        ensures { IsUnopened result }
    {
        let output = regular_id(fs::metadata(&rt, "/dev/stdout"));
        DiskStore {
            rt,
            source: Source::Closed,
            waits: false,
            output,
            past: StorePast::new(),
        }
    }

    /// Whether this is the file that standard output goes to.
    fn is_output(&self, id: Option<Identity>) -> bool
        ensures { IsTrue result ↔ (IsSome self.now.output × (self.now.output ≡ id)) }
    {
        self.output.is_some() && self.output == id
    }

    /// Makes a file that was read ahead the one that `read` gives, as [`Store::open`] does. It has to be one that was
    /// opened under this path.
    ///
    /// # Errors
    ///
    /// `Refused` where `spares_output` is true and this is the file that the output goes to. None is open then.
    pub fn open_whole(
        &mut self,
        path: &str,
        spares_output: bool,
        file: WholeFile,
    ) -> Result<(), OpenFault>
        requires { file.path.items ≡ path.now }
        ensures opens { Opens spares_output path.now self.old.past self.new.past result }
        ensures reads { OnOk result (self.new.reads ≡ AWholeFile) }
        ensures left { OnOk result (self.new.left ≡ Some file.bytes.items) }
        ensures closed { OnErr result (self.new.reads ≡ Nothing) }
        ensures cause { IfErr result (λ fault. fault ≡ Refused IsOutput) }
        ensures refused { IsErr result ↔ ((spares_output ≡ true) × (self.old.output ≡ Some file.id)) }
        ensures output { self.new.output ≡ self.old.output }
    {
        if spares_output && self.is_output(Some(file.id)) {
            return Err(self.refuse(path, Cause::IsOutput));
        }
        self.waits = false;
        self.source = Source::Whole(file, 0);
        self.past.open(path);
        Ok(())
    }

    /// Notes that a path gives no file. None is open then.
    fn refuse(&mut self, path: &str, cause: Cause) -> OpenFault
        ensures past { self.new.past ≡ NoFile path.now cause ∷ self.old.past }
        ensures closed { self.new.reads ≡ Nothing }
        ensures output { self.new.output ≡ self.old.output }
        ensures fault { result ≡ Refused cause }
    {
        self.source = Source::Closed;
        self.past.refuse(path, cause);
        OpenFault::Refused(cause)
    }
}

impl<R: Files + Input + Drop> Store for DiskStore<R> {
    ghost use Rattle.pg_files.specs.DiskStore.{Nothing, AWholeFile, opened_by};
    ghost use Rattle.pg_files.specs.declared.store.OpenFault.TheVariants.{Refused, OutOfMemory};
    ghost use Rattle.pg_base.specs.declared.cause.Cause.TheVariants.{CannotOpen, IsOutput};

    type Alloc = Global;

    ghost past = { λ s. s.past };

    /// Which file the system opens for a path no contract can say.
    fn open(&mut self, path: &str, spares_output: bool) -> Result<(), OpenFault>
        ensures opens { Opens spares_output path.now self.old.past self.new.past result }
        ensures reads { OnOk result (self.new.reads ≡ opened_by path.now) }
        ensures closed { IfErr result (λ fault. fault ≢ OutOfMemory → self.new.reads ≡ Nothing) }
        ensures same { IfErr result (λ fault. fault ≡ OutOfMemory → self.new ≡ self.old) }
        ensures cause { IfErr result (λ fault. (fault ≡ OutOfMemory) ⊎ ((fault ≡ Refused CannotOpen)
            ⊎ ((fault ≡ Refused IsOutput) × (spares_output ≡ true)))) }
        ensures standard { path.now ≡ codes "-"
            → IfErr result (λ fault. (fault ≡ Refused IsOutput) × (spares_output ≡ true)) }
        ensures known { IfErr result (λ fault. fault ≡ Refused IsOutput → IsSome self.old.output) }
        ensures output { self.new.output ≡ self.old.output }
    {
        if path == "-" {
            let standard = regular_id(fs::metadata(&self.rt, "/dev/stdin"));
            if spares_output && self.is_output(standard) {
                return Err(self.refuse(path, Cause::IsOutput));
            }
            self.waits = standard.is_none();
            self.source = Source::Standard(self.rt.reader());
            self.past.open(path);
            return Ok(());
        }
        match fs::open(&self.rt, path) {
            Ok(file) => {
                let id = regular_id(file.metadata());
                if spares_output && self.is_output(id) {
                    return Err(self.refuse(path, Cause::IsOutput));
                }
                self.waits = id.is_none();
                self.source = Source::Open(file);
                self.past.open(path);
                Ok(())
            }
            Err(error) if error.kind() == ErrorKind::OutOfMemory => Err(OpenFault::OutOfMemory),
            Err(_) => Err(self.refuse(path, Cause::CannotOpen)),
        }
    }

    fn may_wait(&self) -> bool {
        self.waits
    }

    fn read(&mut self, into: &mut [u8]) -> Result<usize, ReadFault>
        ensures given { ReadGives into.new self.old.past self.new.past result }
        ensures size { length into.new ≡ length into.old }
        ensures reads { self.new.reads ≡ self.old.reads }
        ensures output { self.new.output ≡ self.old.output }
        ensures closed { self.old.reads ≡ Nothing → IsErr result }
        // All of such a file was read before.
        ensures whole { self.old.reads ≡ AWholeFile → IsOk result }
        // What is known to be left loses exactly the bytes that were given; none come only at its end.
        ensures consumes { ReadConsumes self.old.left self.new.left result into.new }
    {
        let read = match &mut self.source {
            Source::Closed => {
                self.past.end(true);
                return Err(ReadFault);
            }
            Source::Standard(input) => input.read(into),
            Source::Open(file) => file.read(into),
            Source::Whole(file, given) => Ok(file.read(given, into)),
        };
        match read {
            Ok(0) => {
                self.past.end(false);
                Ok(0)
            }
            Ok(count) => {
                self.past.give(&into[..count]);
                Ok(count)
            }
            Err(_) => {
                self.past.end(true);
                Err(ReadFault)
            }
        }
    }

    fn take_buffered(&mut self, most: usize) -> Option<Vec<u8>>
        ensures taken { TakesBuffered (option_map (λ taken. taken.items) result) self.old.past self.new.past }
        ensures few { IfSome result (λ taken. length taken.items ≤ most) }
        ensures all { IfSome result (λ taken. self.old.left ≡ Some taken.items) }
        ensures left { IfSome result (λ _. self.new.left ≡ Some []) }
        ensures whole { IfSome result (λ _. self.old.reads ≡ AWholeFile) }
        ensures none { IfNone result (self.new.left ≡ self.old.left) }
        ensures reads { self.new.reads ≡ self.old.reads }
        ensures output { self.new.output ≡ self.old.output }
    {
        let Source::Whole(file, given) = &mut self.source else {
            return None;
        };
        let taken = file.take_bytes(*given, most)?;
        self.past.give(taken.as_slice());
        Some(taken)
    }
}
