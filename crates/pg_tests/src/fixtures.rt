//! What the tests search for, and where.
ghost use Rattle.std.specs.Prelude.{◌≡◌, ◌≤◌, IfOk, false, length};

use pg_blocks::Block;
use pg_lines::{BlockResult, Kind, PatternList, Query, QueryText, Scratch, search_block};
use pg_rows::{Format, Mode};
use std::alloc::{AllocError, Allocator};
use std::sync::Arc;

/// Selected lines and nothing else.
pub(crate) const PLAIN: Format = Format {
    names: false,
    null: false,
    tabs: false,
    separator: None,
    numbers: false,
    mode: Mode::Rows,
    parts: false,
    offsets: false,
    colored: false,
    limit: None,
    before: None,
    after: None,
};

/// What a query is compiled from that has one text and no option.
pub(crate) fn text_of<A: Allocator + Copy>(
    alloc: A,
    kind: Kind,
    pattern: &[u8],
) -> Result<QueryText<A>, AllocError>
    ensures { IfOk result (λ text. text.zero ≡ false) }
{
    let mut lists = Vec::new(alloc);
    lists.push(PatternList::Text(Vec::from_slice(alloc, pattern)?))?;
    Ok(QueryText {
        kind,
        lists,
        fold: false,
        whole: false,
        word: false,
        invert: false,
        with_parts: false,
        zero: false,
    })
}

/// A query for a text. No memory is there for one whose text is no pattern.
pub(crate) fn compile<A: Allocator + Copy>(
    alloc: A,
    text: QueryText<A>,
) -> Result<Query<A>, AllocError>
    ensures { IfOk result (λ query. query.text ≡ text) }
{
    match Query::compile(alloc, text) {
        Ok(query) => Ok(query),
        Err(_) => Err(AllocError),
    }
}

/// A query for one fixed string.
pub(crate) fn query_of<A: Allocator + Copy>(
    alloc: A,
    pattern: &[u8],
) -> Result<Query<A>, AllocError>
    ensures { IfOk result (λ query. query.text.zero ≡ false) }
{
    compile(alloc, text_of(alloc, Kind::Fixed, pattern)?)
}

/// So many requests of a new scratch may be refused, and it only searches more slowly: those for its DFA cache.
pub(crate) const SPARED: u64 = 5;

/// What a search finds in a block of at most 100 bytes.
pub(crate) fn search<A: Allocator + Copy>(
    alloc: A,
    query: &Query<A>,
    file: u32,
    number: u64,
    bytes: &[u8],
) -> Result<BlockResult<A>, AllocError>
    requires { length bytes.now ≤ 100 }
{
    let block = Block {
        file,
        number,
        bytes: Vec::from_slice(alloc, bytes)?,
    };
    let block = Arc::new(alloc, block)?;
    let mut scratch = Scratch::new(alloc, query.machine())?;
    search_block(alloc, query, &mut scratch, block)
}
