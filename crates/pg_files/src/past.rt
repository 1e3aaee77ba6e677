//! What a store gave, for contracts alone.
ghost use Rattle.std.specs.Prelude.{◌≡◌, List, [], ◌∷◌};
ghost use Rattle.pg_files.specs.Given.{FileOutcome, NoFile, File, gave_bytes, gave_end};
ghost use Rattle.pg_files.specs.Accesses.{reading_ended, given_as};
ghost use Rattle.pg_base.specs.Entries.{Left};

use pg_base::{Cause, History};
use std::marker::Model;

/// How far a path was read.
#[derive(Clone, Copy)]
pub(crate) enum Reading {
    /// It gave no file.
    Refused(Cause),
    /// Its end wasn't met yet.
    Unfinished,
    /// Its end was met.
    Finished,
    /// A read failed.
    Broken,
}

impl Reading {
    fn ended(self, failed: bool) -> Reading
        ensures { result ≡ reading_ended failed self }
    {
        match self {
            Reading::Refused(cause) => Reading::Refused(cause),
            Reading::Broken => Reading::Broken,
            _ if failed => Reading::Broken,
            _ => Reading::Finished,
        }
    }
}

/// A path that was opened, and what it gave.
#[derive(Drop)]
pub(crate) struct Access {
    path: History<u8>,
    bytes: History<u8>,
    reading: Reading,
}

/// What a store gave, the newest first. Paths and bytes take no memory, and nothing is copied when the
/// methods run.
pub struct StorePast {
    earlier: History<Access>,
    newest: Option<Access>,
}

impl Drop for StorePast {
    fn drop(self) {
        let StorePast {
            earlier: _,
            newest: _,
        } = self;
    }
}

impl Model for StorePast {
    ghost use Rattle.std.specs.Prelude.{List};
    ghost use Rattle.pg_files.specs.Given.{FileOutcome};
    ghost use Rattle.pg_files.specs.Accesses.{outcomes_of};

    ghost Value = { List FileOutcome };

    ghost view = { λ p. outcomes_of p.earlier.items p.newest };
}

impl StorePast {
    /// Nothing was opened.
    pub fn new() -> StorePast
        ensures { result ≡ [] }
    {
        StorePast {
            earlier: History::new(),
            newest: None,
        }
    }

    /// The file at a path was opened.
    pub fn open(&mut self, path: &str)
        ensures { self.new ≡ File path.now [] Left ∷ self.old }
    {
        self.begin(path, Reading::Unfinished);
    }

    /// The path gives no file.
    pub fn refuse(&mut self, path: &str, cause: Cause)
        ensures { self.new ≡ NoFile path.now cause ∷ self.old }
    {
        self.begin(path, Reading::Refused(cause));
    }

    fn begin(&mut self, path: &str, reading: Reading)
        ensures { self.new ≡ given_as path.now [] reading ∷ self.old }
    {
        match &self.newest {
            Some(newest) => self.earlier.push(newest),
            None => self.earlier = History::new(),
        }
        let mut name = History::new();
        name.extend(path.as_bytes());
        self.newest = Some(Access {
            path: name,
            bytes: History::new(),
            reading,
        });
    }

    /// The newest file gave bytes.
    pub fn give(&mut self, bytes: &[u8])
        ensures { self.new ≡ gave_bytes bytes.now self.old }
    {
        if let Some(newest) = &mut self.newest {
            newest.bytes.extend(bytes);
        }
    }

    /// The newest file's end was met, or a read of it failed. What failed once stays so.
    pub fn end(&mut self, failed: bool)
        ensures { self.new ≡ gave_end failed self.old }
    {
        if let Some(newest) = &mut self.newest {
            newest.reading = newest.reading.ended(failed);
        }
    }
}
