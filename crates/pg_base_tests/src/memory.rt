//! Walks over trees in memory.
use crate::rows::halves;
use pg_walk::{
    FileKind, FileTree, Identity, Item, Listing, LookFault, MemTree, Node, Scope, Walker,
};
use refusing::Refusing;
use std::alloc::{AllocError, Allocator, Global};
use std::cell::Cell;

/// What stands at a path, by a word of the trees below, and the names that are listed there. Nothing stands for another
/// word.
fn node_of(alloc: Global, kind: &str, names: &[&str]) -> Option<Node> {
    let mut node = match kind {
        "file" => Node::new(FileKind::Regular),
        "device" => Node::new(FileKind::Other),
        "unlisted" => Node::new(FileKind::Directory),
        "link-to-itself" | "link-to-nothing" => Node::new(FileKind::Link),
        "directory" | "nameless" | "link-to-directory" => Node::directory(alloc, names).ok()?,
        _ => return None,
    };
    if kind.starts_with("link") {
        node.kind = Some(FileKind::Link);
    }
    if kind == "link-to-nothing" {
        node.target = None;
    }
    if let Some(listing) = &mut node.listing {
        listing.nameless = kind == "nameless";
    }
    Some(node)
}

/// Adds a node by a line: a path, a word for what stands there, behind a `=` the number of the file if that can be
/// told, and the names that are listed there. Answers whether it can be read, and there is memory.
fn add_node(alloc: Global, tree: &mut MemTree, line: &str) -> bool {
    let (path, rest) = line.split_once(' ').unwrap_or_default();
    let mut words = rest.split(' ');
    let (kind, number) = told(words.next().unwrap_or_default());
    let Ok(names) = words.collect::<Vec<&str>>(alloc) else {
        return false;
    };
    let Some(mut node) = node_of(alloc, kind, names.as_slice()) else {
        return false;
    };
    node.identity = number;
    tree.add(path, node).is_ok()
}

/// The word for what stands at a path, and which file it is, by its number behind a `=`, if that can be told.
fn told(word: &str) -> (&str, Option<Identity>) {
    match word.split_once('=') {
        Some((kind, number)) => {
            let number = number.parse().unwrap_or_default();
            (kind, Some(Identity { device: 0, number }))
        }
        None => (word, None),
    }
}

/// The words of a line.
pub(crate) fn texts(alloc: Global, line: &str) -> Vec<String> {
    let mut texts = Vec::new(alloc);
    for word in line.split_whitespace() {
        let mut text = String::new(alloc);
        let _ = text.push_str(word);
        let _ = texts.push(text);
    }
    texts
}

/// Shows a blank and the path of a file, or the path of a fault and its cause.
fn show_item<A: Allocator>(item: &Item<A>, out: &mut String) {
    let _ = match item {
        Item::File(path) => {
            let path = path.as_str();
            write!(out, " {path}")
        }
        Item::Fault(path, cause) => {
            let path = path.as_str();
            write!(out, " {path}:{cause:?}")
        }
    };
}

/// Shows the items of a walk, which are at most 1,000.
fn show_items<T: FileTree, A: Allocator + Copy>(
    mut walker: Walker<'_, T, A>,
    out: &mut String,
) -> Result<(), AllocError> {
    for _ in 0..1000u32 {
        match walker.next()? {
            Some(item) => show_item(&item, out),
            None => break,
        }
    }
    Ok(())
}

/// Walks over operands with the memory of `heap`, and shows the items. What is shown is of use only where it is `Ok`.
pub(crate) fn show_walk<T: FileTree, A: Allocator + Copy>(
    heap: A,
    tree: &T,
    operands: &[String],
    scope: Scope<A>,
    out: &mut String,
) -> Result<(), AllocError> {
    let walker = Walker::new(heap, tree, operands, scope)?;
    show_items(walker, out)
}

/// Compares what is shown of a walk, or that it wants memory, with what a row wants. Answers whether it is the same.
pub(crate) fn is_walked_as(walked: Result<(), AllocError>, out: &mut String, want: &str) -> bool {
    if walked.is_err() {
        out.clear();
        let _ = out.push_str("out of memory");
    }
    out.trim_start() == want.trim_start()
}

/// A scope of all that is below operands, with links followed there or not.
fn all_below(alloc: Global, follows: bool) -> Scope {
    let mut scope = Scope::all(alloc, true);
    scope.follows = follows;
    scope
}

/// A tree of which one answer fails: the one that comes behind `passes` others.
#[derive(Drop)]
struct Failing<'a> {
    tree: &'a MemTree,
    passes: u32,
    fault: LookFault,
    asked: Cell<u32>,
}

impl Failing<'_> {
    fn check(&self) -> Result<(), LookFault> {
        let asked = self.asked.get();
        self.asked.set(asked.wrapping_add(1));
        if asked == self.passes {
            return Err(self.fault);
        }
        Ok(())
    }
}

impl FileTree for Failing<'_> {
    ghost tells = { λ _. ⊥ };

    ghost answers = { λ t. ⟦<MemTree as FileTree>⟧.answers t.tree.now };

    fn kind(&self, path: &str, follow: bool) -> Result<FileKind, LookFault> {
        self.check()?;
        self.tree.kind(path, follow)
    }

    fn entries<A: Allocator + Copy>(&self, alloc: A, path: &str) -> Result<Listing<A>, LookFault> {
        self.check()?;
        self.tree.entries(alloc, path)
    }

    fn identity(&self, path: &str) -> Result<Identity, LookFault> {
        self.check()?;
        self.tree.identity(path)
    }
}

/// Trees, with an empty line between them, and behind each what walks over its operands give: `walk` with all that is
/// below them, `follow` with links followed there too, `look` without; `fail` with all where the answer of the tree
/// behind so many others fails, and `full` where there is no memory for it, `follow` between with links followed.
const WALKS: &str = "d directory z a.txt a
d/a directory b
d/a/b file
d/a.txt file
d/z file
e/ directory x
e/x file
empty directory
f file
null device
l link-to-directory x
l/x file
dead link-to-nothing
self link-to-itself
- directory x
-/x file
walk  =>
walk d => d/a/b d/a.txt d/z
look d => d:IsDirectory
walk e/ => e/x
walk empty =>
walk f => f
look f => f
walk null => null
walk l => l/x
look l => l:IsDirectory
walk dead self => dead:CannotOpen self:CannotOpen
look missing => missing:CannotOpen
walk - => -
walk z f d - f l => z:CannotOpen f d/a/b d/a.txt d/z - f l/x

d directory a a.txt ab
d/a directory b
d/a/b file
d/a.txt file
d/ab file
walk d => d/a/b d/a.txt d/ab

d directory a ab a.txt
d/a directory b
d/a/b file
d/a.txt file
d/ab file
walk d => d/a/b d/a.txt d/ab

d directory a.txt a ab
d/a directory b
d/a/b file
d/a.txt file
d/ab file
walk d => d/a/b d/a.txt d/ab

d directory a.txt ab a
d/a directory b
d/a/b file
d/a.txt file
d/ab file
walk d => d/a/b d/a.txt d/ab

d directory ab a a.txt
d/a directory b
d/a/b file
d/a.txt file
d/ab file
walk d => d/a/b d/a.txt d/ab

d directory ab a.txt a
d/a directory b
d/a/b file
d/a.txt file
d/ab file
walk d => d/a/b d/a.txt d/ab

d directory ab ab a a.txt a ab
d/a directory b
d/a/b file
d/a.txt file
d/ab file
walk d => d/a/b d/a.txt d/ab

d directory \u{e9} ~ b B 10 9 -
d/\u{e9} file
d/~ file
d/b file
d/B file
d/10 file
d/9 file
d/- file
walk d => d/- d/10 d/9 d/B d/b d/~ d/\u{e9}

d nameless k n u x g i z
d/k link-to-directory y
d/k/y file
d/n device
d/u unlisted
d/x directory up
d/x/up link-to-directory k n u x g i z
d/g link-to-nothing
d/z nameless
walk d => d:BadName d/i:CannotOpen d/u:CannotList d/z:BadName
walk d/u d/k d/z/ => d/u:CannotList d/k/y d/z/:CannotOpen

d directory c b a
d/a nameless x
d/a/x file
d/b link-to-directory
d/c file
f file
fail-0 d f => d:CannotOpen f
fail-1 d f => d:CannotList f
fail-2 d f => d/a:CannotOpen d/c f
fail-3 d f => d/a:CannotList d/c f
fail-4 d f => d/a:BadName d/a/x:CannotOpen d/c f
fail-5 d f => d/a:BadName d/a/x d/b:CannotOpen d/c f
fail-6 d f => d/a:BadName d/a/x d/c:CannotOpen f
fail-7 d f => d/a:BadName d/a/x d/c f:CannotOpen
fail-8 d f => d/a:BadName d/a/x d/c f
full-0 d f => out of memory
full-1 d f => out of memory
full-2 d f => out of memory
full-3 d f => out of memory
full-4 d f => out of memory
full-5 d f => out of memory
full-6 d f => out of memory
full-7 d f => out of memory
full-8 d f => d/a:BadName d/a/x d/c f

d directory=1 a dead one two up
d/ directory=1
d/a directory=2 b f
d/a/ directory=2
d/a/b link-to-directory=2 b f
d/a/f file
d/dead link-to-nothing
d/one link-to-directory=3 x
d/one/x file
d/two link-to-directory=3 x
d/two/x file
d/up link-to-directory=1 a dead one two up
walk d => d/a/f
follow d => d/a/b:InCircle d/a/f d/dead:CannotOpen d/one/x d/two/x d/up:InCircle
look d => d:IsDirectory

d directory e
d/ directory=1
d/e directory=2 f
d/e/f file
fail-follow-3 d => d/e/f
fail-follow-4 d => d/e/f
fail-follow-5 d => d/e:CannotList
full-follow-3 d => out of memory
full-follow-4 d => out of memory
full-follow-7 d => d/e/f";

/// Walks over a tree of which the answer behind so many others fails, as `fail-2`, `fail-follow-2` or `full-2` says,
/// and shows the items. Nothing is shown for another word.
fn show_failing(
    alloc: Global,
    tree: &MemTree,
    how: &str,
    operands: &[String],
    out: &mut String,
) -> Result<(), AllocError> {
    let (word, passes) = how.split_once('-').unwrap_or_default();
    let answers = passes.strip_prefix("follow-");
    let Ok(passes) = answers.unwrap_or(passes).parse() else {
        return Ok(());
    };
    let fault = match word {
        "fail" => LookFault::Failed,
        "full" => LookFault::OutOfMemory,
        _ => return Ok(()),
    };
    let failing = Failing {
        tree,
        passes,
        fault,
        asked: Cell::new(0),
    };
    let scope = all_below(alloc, answers.is_some());
    show_walk(alloc, &failing, operands, scope, out)
}

/// Walks over a tree as a row asks, and shows the items.
fn show_asked(
    alloc: Global,
    tree: &MemTree,
    asked: &str,
    out: &mut String,
) -> Result<(), AllocError> {
    let (how, operands) = asked.split_once(' ').unwrap_or_default();
    let operands = texts(alloc, operands);
    let scope = match how {
        "walk" => all_below(alloc, false),
        "follow" => all_below(alloc, true),
        "look" => Scope::all(alloc, false),
        how => return show_failing(alloc, tree, how, &operands, out),
    };
    show_walk(alloc, tree, &operands, scope, out)
}

/// Adds a node, or walks, as a line says; behind an empty one another tree begins. Answers whether a walk gives what is
/// wanted, and else whether the line can be read.
fn walks_on(alloc: Global, tree: &mut MemTree, line: &str, out: &mut String) -> bool {
    if line.contains("=>") {
        let (asked, want) = halves(line);
        let walked = show_asked(alloc, tree, asked, out);
        is_walked_as(walked, out, want)
    } else if line.is_empty() {
        *tree = MemTree::new(alloc);
        true
    } else {
        add_node(alloc, tree, line)
    }
}

#[test]
fn walks(rt: HostRuntime) {
    let mut tree = MemTree::new(rt.alloc());
    for line in WALKS.lines() {
        let mut out = String::new(rt.alloc());
        let is_right = walks_on(rt.alloc(), &mut tree, line, &mut out);
        assert!(rt; is_right, "{out} of {line}");
    }
}

/// A tree that is walked while requests for memory are refused.
const REFUSED: &str = "d directory b a
d/a nameless x
d/a/x file
d/b unlisted";

/// What walks over `d`, `d`, `-` and `gone` in it give.
const ALLOWED: &str =
    "d/a:BadName d/a/x d/b:CannotList d/a:BadName d/a/x d/b:CannotList - gone:CannotOpen";

/// A tree of a text's lines, as far as they can be read.
fn tree_of(alloc: Global, text: &str) -> MemTree {
    let mut tree = MemTree::new(alloc);
    for line in text.lines() {
        let _ = add_node(alloc, &mut tree, line);
    }
    tree
}

/// Whether a walk gives what it should, or wants memory where a request is refused.
pub(crate) fn is_walked(alloc: Global, heap: &Refusing) -> bool {
    let tree = tree_of(alloc, REFUSED);
    let operands = texts(alloc, "d d - gone");
    let mut out = String::new(alloc);
    match show_walk(heap, &tree, &operands, Scope::all(heap, true), &mut out) {
        Ok(()) => !heap.has_refused() && out.trim_start() == ALLOWED,
        Err(AllocError) => heap.has_refused(),
    }
}

/// Adds a directory with one entry, `d` with `a`.
fn add_directory<A: Allocator + Copy>(alloc: A, tree: &mut MemTree<A>) -> Result<(), AllocError> {
    tree.add("d", Node::directory(alloc, &["a"])?)?;
    tree.add("d/a", Node::new(FileKind::Regular))
}

/// Whether that directory is added to a new tree where no request is refused, and else nothing stands at `d/a`.
pub(crate) fn is_added(heap: &Refusing) -> bool {
    let mut tree = MemTree::new(heap);
    let is_added = add_directory(heap, &mut tree).is_ok();
    let is_right = match tree.kind("d/a", false) {
        Ok(kind) => is_added && kind == FileKind::Regular,
        Err(fault) => !is_added && fault == LookFault::Failed,
    };
    is_right && is_added != heap.has_refused()
}
