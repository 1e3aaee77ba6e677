//! Why names give no file.
ghost use Rattle.std.specs.Prelude.{◌≡◌};
ghost use Rattle.pg_base.specs.Causes.{cause_text};

/// Why a name gives no file.
#[derive(Clone, Copy, Debug, PartialEq, Eq)]
pub enum Cause {
    /// Nothing could be told of it, or it couldn't be opened.
    CannotOpen,
    /// Its reading failed.
    ReadFailed,
    /// A directory, where those aren't searched.
    IsDirectory,
    /// A directory that couldn't be listed.
    CannotList,
    /// A directory with an entry whose name isn't UTF-8.
    BadName,
    /// A directory more than 256 levels below its operand.
    TooDeep,
    /// A directory that is one of those that it lies in, where links are followed below operands.
    InCircle,
    /// The file that the output goes to.
    IsOutput,
}

impl Cause {
    /// What is told of the name.
    pub fn text(self) -> &'static str
        ensures { result.now ≡ cause_text self }
    {
        match self {
            Cause::CannotOpen => "cannot open",
            Cause::ReadFailed => "read failed",
            Cause::IsDirectory => "is a directory",
            Cause::CannotList => "cannot list",
            Cause::BadName => "holds a name that is not UTF-8",
            Cause::TooDeep => "too deep",
            Cause::InCircle => "links in a circle",
            Cause::IsOutput => "is also the output",
        }
    }
}
