//! The items of a walk, given as files.
ghost use Rattle.std.specs.Prelude.{◌≡◌, [], map, take, false, true, None, IfOk, OnErr, OnOk};
ghost use Rattle.std.specs.Option.{option_map};
ghost use Rattle.std.specs.String.{string_bytes};
ghost use Rattle.pg_walk.specs.Items.{found, path_in};
ghost use Rattle.pg_walk.specs.Scopes.{scope_of};
ghost use Rattle.pg_walk.specs.Left.{BeginsWalk, HasGiven, IsWalk, shown, spots_in};
ghost use Rattle.pg_files.specs.Given.{shown_name};
ghost use Rattle.pg_files.specs.Listed.{asked_for, AreOpened, AreSpared, Reaches};

use crate::files::{Files, ReadFault, Step};
use crate::store::{OpenFault, Store};
use pg_base::History;
use pg_walk::{FileTree, Item, Scope, Walker, what_is_given};
use std::alloc::{AllocError, Global};

/// What standard input is called where no other name is asked for.
pub const STANDARD_INPUT: &str = "(standard input)";

/// A walk, and the items of it that were asked for.
pub struct FileWalk<'t, T: FileTree> {
    /// What is walked over. This takes no memory.
    pub operands: History<String>,
    /// What is left of the walk.
    pub walker: Walker<'t, T>,
    /// The items that were asked for, in their order. This takes no memory.
    pub asked: History<Item>,
    /// The last of them.
    pub newest: Option<Item>,
}

impl<T: FileTree> Drop for FileWalk<'_, T> {
    fn drop(self) {
        let FileWalk {
            operands: _,
            walker: _,
            asked: _,
            newest: _,
        } = self;
    }
}

impl<'t, T: FileTree> FileWalk<'t, T> {
    /// A walk over operands of which nothing was asked.
    fn new(
        alloc: Global,
        tree: &'t T,
        operands: &[String],
        scope: Scope,
    ) -> Result<FileWalk<'t, T>, AllocError>
        ensures walk { IfOk result (λ walk. (walk.walker.tree.now ≡ tree.now) × (walk.walker.scope ≡ scope)
            × (walk.operands.items ≡ operands.now)) }
        ensures fresh { IfOk result (λ walk. (walk.asked.items ≡ []) × (walk.newest ≡ None)) }
        ensures given { IfOk result (λ walk. HasGiven (T.tells walk.walker.tree.now) (T.answers walk.walker.tree.now)
            (map string_bytes walk.operands.items) (scope_of walk.walker.scope) []
            (spots_in walk.walker.waiting.items)) }
    {
        let walker = Walker::new(alloc, tree, operands, scope)?;
        let mut named = History::new();
        named.extend(operands);
        Ok(FileWalk {
            operands: named,
            walker,
            asked: History::new(),
            newest: None,
        })
    }
}

/// The items of a walk, each asked of the walk when its turn comes and its file then opened in a store.
pub struct OperandFiles<'t, T: FileTree, S: Store + Drop> {
    /// What is given.
    pub walk: FileWalk<'t, T>,
    /// Memory was lacking, and so the walk can't go on.
    pub broken: bool,
    /// It was told that there is no more.
    pub done: bool,
    /// The file that the output goes to isn't opened.
    pub spares_output: bool,
    /// What standard input is called.
    pub input_name: String,
    /// Where files are opened. It opened those that were asked for, and none since.
    pub store: S,
    ghost begins: { ∥ BeginsWalk (T.tells walk.walker.tree.now) (T.answers walk.walker.tree.now)
        (map string_bytes walk.operands.items) (scope_of walk.walker.scope) (map found walk.asked.items) ∥₁ },
    ghost goes_on: { broken ≡ false → ∥ HasGiven (T.tells walk.walker.tree.now) (T.answers walk.walker.tree.now)
        (map string_bytes walk.operands.items) (scope_of walk.walker.scope) (map found walk.asked.items)
        (spots_in walk.walker.waiting.items) ∥₁ },
    ghost all_asked: { done ≡ true → ∥ IsWalk (T.tells walk.walker.tree.now) (T.answers walk.walker.tree.now)
        (map string_bytes walk.operands.items) (scope_of walk.walker.scope) (map found walk.asked.items) ∥₁ },
    ghost is_newest: { shown (option_map found walk.newest) ≡ take 1 (asked_for walk.asked.items) },
    ghost are_opened: { AreOpened (asked_for walk.asked.items) (S.past store) },
    ghost are_spared: { AreSpared spares_output (asked_for walk.asked.items) (S.past store) },
}

impl<T: FileTree, S: Store + Drop> Drop for OperandFiles<'_, T, S> {
    fn drop(self) {
        let OperandFiles {
            walk: _,
            broken: _,
            done: _,
            spares_output: _,
            input_name: _,
            store: _,
        } = self;
    }
}

impl<'t, T: FileTree, S: Store + Drop> OperandFiles<'t, T, S> {
    /// A list over no operands: its first `next` answers `Done`.
    pub fn new(alloc: Global, tree: &'t T, store: S) -> OperandFiles<'t, T, S>
        ensures nothing { result.walk.operands.items ≡ [] }
        ensures fresh { (result.walk.asked.items ≡ []) × (result.done ≡ false) × (result.broken ≡ false) }
        ensures store { result.store ≡ store }
    {
        let walker = Walker::over_nothing(alloc, tree);
        what_is_given(&walker);
        let walk = FileWalk {
            operands: History::new(),
            walker,
            asked: History::new(),
            newest: None,
        };
        OperandFiles {
            walk,
            broken: false,
            done: false,
            spares_output: false,
            input_name: String::new(alloc),
            store,
        }
    }

    /// From now on the items of a walk over operands in a tree are given, as far as a scope asks for them, where
    /// `spares_output` is true without the file that the output goes to. Standard input is called `input_name`.
    /// Nothing was asked of the tree yet.
    ///
    /// # Errors
    ///
    /// `AllocError` where a request for memory was refused. What was listed before stays so.
    pub fn list(
        &mut self,
        alloc: Global,
        tree: &'t T,
        operands: &[String],
        scope: Scope,
        spares_output: bool,
        input_name: String,
    ) -> Result<(), AllocError>
        ensures walk { OnOk result ((self.new.walk.walker.tree.now ≡ tree.now)
            × (self.new.walk.walker.scope ≡ scope) × (self.new.walk.operands.items ≡ operands.now)) }
        ensures fresh { OnOk result ((self.new.walk.asked.items ≡ []) × (self.new.done ≡ false)
            × (self.new.broken ≡ false)) }
        ensures spares { OnOk result (self.new.spares_output ≡ spares_output) }
        ensures named { OnOk result (self.new.input_name ≡ input_name) }
        ensures store { self.new.store ≡ self.old.store }
        ensures err { OnErr result (self.new ≡ self.old) }
    {
        let walk = FileWalk::new(alloc, tree, operands, scope)?;
        what_is_given(&walk.walker);
        self.done = false;
        self.walk = walk;
        self.broken = false;
        self.spares_output = spares_output;
        self.input_name = input_name;
        Ok(())
    }
}

impl<T: FileTree, S: Store + Drop> Files for OperandFiles<'_, T, S> {
    type Alloc = S::Alloc;

    ghost use Rattle.std.specs.Prelude.{List, map};
    ghost use Rattle.std.specs.String.{string_bytes};
    ghost use Rattle.pg_walk.specs.Items.{Found};
    ghost use Rattle.pg_walk.specs.Left.{IsWalk};
    ghost use Rattle.pg_walk.specs.Scopes.{scope_of};
    ghost use Rattle.pg_files.specs.Given.{names_in};
    ghost use Rattle.pg_files.specs.Listed.{Sought, asked_for, files_past, sought};

    ghost Request = { Sought T };

    ghost list = { λ s. sought s.walk.walker.tree.now (map string_bytes s.walk.operands.items)
        (scope_of s.walk.walker.scope) s.spares_output (string_bytes s.input_name) (asked_for s.walk.asked.items)
        (S.past s.store) };

    ghost finds = { λ sought names. (items : List Found)
        × ∥ IsWalk (T.tells sought.tree) (T.answers sought.tree) sought.operands sought.scope items ∥₁
        × (names ≡ names_in sought.input_name items) };

    ghost past = { λ s. files_past (string_bytes s.input_name) s.done (asked_for s.walk.asked.items)
        (S.past s.store) };

    fn next(&mut self) -> Result<Step, AllocError> {
        if self.broken {
            return Err(AllocError);
        }
        self.broken = true;
        let Some(item) = self.walk.walker.next()? else {
            what_is_given(&self.walk.walker);
            self.broken = false;
            self.done = true;
            return Ok(Step::Done);
        };
        let step = reach(&mut self.store, &item, self.spares_output)?;
        what_is_given(&self.walk.walker);
        self.walk.asked.push(&item);
        self.walk.newest = Some(item);
        self.broken = false;
        Ok(step)
    }

    fn name(&self) -> &[u8] {
        match &self.walk.newest {
            None => &[],
            Some(item) => shown_name(self.input_name.as_str(), path_in(item)).as_bytes(),
        }
    }

    fn may_wait(&self) -> bool {
        self.store.may_wait()
    }

    fn read(&mut self, into: &mut [u8]) -> Result<usize, ReadFault> {
        self.store.read(into)
    }

    fn take_buffered(&mut self, most: usize) -> Option<Vec<u8, S::Alloc>> {
        self.store.take_buffered(most)
    }
}

/// Opens an item's file. A fault is there already.
fn reach<S: Store>(store: &mut S, item: &Item, spares_output: bool) -> Result<Step, AllocError>
    ensures ok { IfOk result
        (λ step. Reaches spares_output (found item.now) step (S.past store.old) (S.past store.new)) }
    ensures err { OnErr result (S.past store.new ≡ S.past store.old) }
{
    match item {
        Item::Fault(_, cause) => Ok(Step::Miss(*cause)),
        Item::File(path) => match store.open(path.as_str(), spares_output) {
            Ok(()) => Ok(Step::File),
            Err(OpenFault::Refused(cause)) => Ok(Step::Miss(cause)),
            Err(OpenFault::OutOfMemory) => Err(AllocError),
        },
    }
}

fn path_in(item: &Item) -> &str
    ensures { result.now ≡ path_in (found item.now) }
{
    match item {
        Item::File(path) | Item::Fault(path, _) => path.as_str(),
    }
}

/// How a path is called in rows and fault lines, where standard input is called `input`.
pub fn shown_name<'a>(input: &'a str, path: &'a str) -> &'a str
    ensures { result.now ≡ shown_name input.now path.now }
{
    if path == "-" {
        return input;
    }
    path
}
