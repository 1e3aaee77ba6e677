//! The operands of a command line.
ghost use Rattle.std.specs.Prelude.{◌≡◌, ◌<◌, ◌+◌, IfOk, drop, length, map, take, vec_len};
ghost use Rattle.pg_words.specs.Operands.{searched};

use std::alloc::{AllocError, Global};

/// Where the patterns come from, and what is searched.
#[derive(Clone, Copy)]
pub struct Sources<'w, 'a> {
    /// The -e texts in their order, or PATTERN alone.
    pub texts: &'w [&'a str],
    /// The -f paths in their order.
    pub pattern_files: &'w [&'a str],
    /// Each FILE, in their order.
    pub files: &'w [&'a str],
}

/// Says which operand is PATTERN and which are FILE: beside an -e text or an -f path all of them are FILE, else the
/// first one is PATTERN.
pub fn place_operands<'w, 'a>(
    texts: &'w [&'a str],
    pattern_files: &'w [&'a str],
    operands: &'w [&'a str],
) -> Sources<'w, 'a>
    ensures beside { 0 < length texts.now + length pattern_files.now →
        (result.texts.now ≡ texts.now) × (result.files.now ≡ operands.now) }
    ensures alone { length texts.now + length pattern_files.now ≡ 0 →
        (result.texts.now ≡ take 1 operands.now) × (result.files.now ≡ drop 1 operands.now) }
    ensures pattern_files { result.pattern_files.now ≡ pattern_files.now }
{
    if !texts.is_empty() || !pattern_files.is_empty() {
        return Sources {
            texts,
            pattern_files,
            files: operands,
        };
    }
    if operands.is_empty() {
        return Sources {
            texts: operands,
            pattern_files,
            files: operands,
        };
    }
    let (pattern, files) = operands.split_at(1);
    Sources {
        texts: pattern,
        pattern_files,
        files,
    }
}

/// What is searched: each FILE as it is given, and standard input, `-`, where none is.
///
/// # Errors
///
/// Where a request for memory was refused.
pub fn searched_files<'a>(alloc: Global, files: &[&'a str]) -> Result<Vec<&'a str>, AllocError>
    ensures paths { IfOk result
        (λ paths. map (λ path. path.now) paths.items ≡ searched (map (λ path. path.now) files.now)) }
    ensures some_path { IfOk result (λ paths. 0 < vec_len paths) }
{
    if files.is_empty() {
        let standard_input: [&'a str; 1] = ["-"];
        return Vec::from_slice(alloc, standard_input.as_slice());
    }
    Vec::from_slice(alloc, files)
}
