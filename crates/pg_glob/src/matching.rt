//! Whether the parts of a glob match a name.
ghost use Rattle.std.specs.Prelude.{◌≡◌, ◌∷◌, map};
ghost use Rattle.pg_glob.specs.Globs.{AnyBytes, matches};
ghost use Rattle.pg_glob.specs.Runs.{ComesTo};
ghost use Rattle.pg_glob.specs.Views.{piece_of};

use crate::glob::Part;

/// What came of matching parts up to the first `*` among them.
#[derive(Clone, Copy)]
enum Outcome<'a> {
    /// None was met: whether all is matched.
    Settled(bool),
    /// The parts behind it, and what is left of the name.
    Star(&'a [Part], &'a [u8]),
}

/// Matches parts up to the first `*` among them.
fn match_to_star<'a>(parts: &'a [Part], name: &'a [u8]) -> Outcome<'a>
    ensures { ComesTo (map piece_of parts.now) name.now result }
{
    let mut parts = parts;
    let mut name = name;
    while let Some((first, others)) = parts.split_first() {
        let set = match first {
            Part::AnyBytes => return Outcome::Star(others, name),
            Part::OneOf(set) => set,
        };
        let Some((byte, rest)) = name.split_first() else {
            return Outcome::Settled(false);
        };
        if !set.contains(*byte) {
            return Outcome::Settled(false);
        }
        parts = others;
        name = rest;
    }
    Outcome::Settled(name.is_empty())
}

/// Whether a `*` with parts behind it matches all of a name. Where the parts come to a `*` of their own, no later place
/// for them need be tried: what they could match there, that `*` takes in.
fn matches_behind_star(parts: &[Part], name: &[u8]) -> bool
    ensures { result ≡ matches (AnyBytes ∷ map piece_of parts.now) name.now }
{
    let mut parts = parts;
    let mut name = name;
    loop {
        match match_to_star(parts, name) {
            Outcome::Star(others, rest) => {
                parts = others;
                name = rest;
            }
            Outcome::Settled(true) => return true,
            Outcome::Settled(false) => {
                let Some((_, rest)) = name.split_first() else {
                    return false;
                };
                name = rest;
            }
        }
    }
}

/// Whether parts match all of a name.
pub(crate) fn parts_match(parts: &[Part], name: &[u8]) -> bool
    ensures { result ≡ matches (map piece_of parts.now) name.now }
{
    match match_to_star(parts, name) {
        Outcome::Settled(all) => all,
        Outcome::Star(others, rest) => matches_behind_star(others, rest),
    }
}
