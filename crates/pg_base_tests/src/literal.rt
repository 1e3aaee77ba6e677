//! Literals of expressions.
use crate::machine::bounds_of;
use crate::rows::{Question, assert_rows, bytes_of, repeated, show_bytes};
use pg_literal::{Literal, RowFinder, RowOutcome, reach};
use pg_pattern::{Bounds, Tree};
use pg_syntax::parse_ere;
use std::alloc::{AllocError, Global};

/// Bounds, with `fold-` before them where case is folded, extended expressions, which `;` parts, and their literals,
/// with `only:` before those where each line that holds them has a hit.
const LITERALS: [&str; 7] = [
    r"any foo => only:foo
whole foo => foo
word foo => foo
any  => only:
whole  => none
word  => none
any ^foo => foo
any foo$ => foo
any ^ => none
any [fo]o*r => r
word [fo]o*r => r
whole [fo]o*r => r
any [f][o][o] => only:foo
any [a-c]bar[0-9]+foobarz? => foobar
any fo*bar => bar
any foo*b => fo
any foo+b => foo
any (foo)+ => only:foo
any (foo)+bar => foo
any (foo)+barbar => barbar
any x(foo){2,5} => xfoo
any (foo){0,2} => only:
any (foo)?bar => only:bar
any a{1}b{1,1}c => only:abc
any foo|bar => only:bar;only:foo",
    r"any (foo|bar)baz => baz
any (foo|bar)-baz(x|y) => -baz
any ab.*cd => ab
any ab.*cde => cde
any a.b => b
any . => none
any %00%FF => only:%00%FF
any (a(b(c)d)e) => only:abcde
any (ab)(cd*) => only:abc
any ((a|b)cd)+ => only:acd;only:bcd
any (x*ab)cd => only:abcd
any a++++b => b
any a{0}b => only:b
any ab.cd.ef => ab
any a.cd.ef => cd
any .*needle.* => only:needle
any needle.* => only:needle
any .*needle => only:needle
word .*needle => needle
whole .*needle => needle
any .*needle[0-9] => needle
any (a*)*b => only:b",
    r"any (a|b*)c => only:c
any (a?b?|d)c => only:c
any (a?b|d)c => c
any (^|a)b => b
any (^)*b => only:b
any a*|b => only:b;only:
fold-any .*NEEDLE => only:needle
any err(or|no)?: [0-9]+ => err
any a$b => ab
fold-any FooBar => only:foobar
fold-word FOO => foo
fold-any ^Foo => foo
fold-any @AZ`az1 => only:@az`az1
fold-any %C3%84K => only:%C3%84k
fold-any [k]ey|[kK] => only:k;only:key
fold-any [kK]ey[a-b] => key
fold-any x.*NEEDLE => needle
fold-any (Ab)+[^c]D => ab
any [kK]ey => only:Key;only:key
any foo;bar => only:foo;only:bar
whole foo;bar => foo;bar
word foo;bar => foo;bar",
    r"any ^foo;b+ar;baz => foo;bar;only:baz
any foo;[0-9] => none
any foo|x{0} => only:;only:foo
any ;foo => only:;only:foo
word ;foo => none
any foo|x.z;bar => x;only:foo;only:bar
any foo|[0-9];bar => none
any (a|b)|(c|d) => only:d;only:c;only:b;only:a
any (a|bc)d|e => only:e;d
any (a|b) => only:b;only:a
any ^(a|b) => none
any (a|b)+ => none
any a|a => only:a;only:a
any a;b;c;d;e;f;g;h => only:a;only:b;only:c;only:d;only:e;only:f;only:g;only:h
any a;b;c;d;e;f;g;h;i => only:a;only:b;only:c;only:d;only:e;only:f;only:g;only:h;only:i
any a|b|c|d|e|f|g|h => only:h;only:g;only:f;only:e;only:d;only:c;only:b;only:a
any a|b|c|d|e|f|g|h|i => only:i;only:h;only:g;only:f;only:e;only:d;only:c;only:b;only:a
any a|b|c|d;e|f|g|h|i => only:d;only:c;only:b;only:a;only:i;only:h;only:g;only:f;only:e
any a|b|c;d;e|f|g|h;[0-9] => none
fold-any Foo|BAR;Baz => only:bar;only:foo;only:baz
fold-word Foo|^BAR$ => bar;foo",
    r"any gr[ae]y;b;c;d;e;f;g;h => gr;only:b;only:c;only:d;only:e;only:f;only:g;only:h
any a[0-3][0-7]z.y;b;c;d;e;f;g;h;i => a0;a1;a2;a3;only:b;only:c;only:d;only:e;only:f;only:g;only:h;only:i
any gr[ae]y;b;c;d;e;f;g;h;i => only:gray;only:grey;only:b;only:c;only:d;only:e;only:f;only:g;only:h;only:i
whole [Ff]o;b;c;d;e;f;g;h;i => Fo;fo;b;c;d;e;f;g;h;i
fold-any [Ff]o;b;c;d;e;f;g;h;i => only:fo;only:b;only:c;only:d;only:e;only:f;only:g;only:h;only:i
fold-any [xY]o+z;b;c;d;e;f;g;h;i => oz;only:b;only:c;only:d;only:e;only:f;only:g;only:h;only:i
any w[01]+x;b;c;d;e;f;g;h;i => 0x;1x;only:b;only:c;only:d;only:e;only:f;only:g;only:h;only:i
word aa[0-3][0-7]zzz.y;b;c;d;e;f;g;h;i => 0zzz;1zzz;2zzz;3zzz;4zzz;5zzz;6zzz;7zzz;b;c;d;e;f;g;h;i
any [a-z];b;c;d;e;f;g;h;i => none
any .*[01];b;c;d;e;f;g;h;i => none",
    r"any [1-3][7-9][24]5 => 725;825;925;745;845;945
any [wn][aeiou]t => only:nat;only:wat;only:net;only:wet;only:nit;only:wit;only:not;only:wot;only:nut;only:wut
word [wn][aeiou]t => nat;wat;net;wet;nit;wit;not;wot;nut;wut
any [0-4][0-4]:[0-4][0-4] => :
any [0-4][0-4]e[0-4][0-4] => 00e;10e;20e;30e;40e;01e;11e;21e;31e;41e;02e;12e;22e;32e;42e;03e;13e;23e;33e;43e;04e;14e;24e;34e;44e
any gr[ae]y => only:gray;only:grey
any abcd[0-9] => abcd
any [a-z]q => q
any [0-9] => none
fold-any [kK]ez => only:kez
fold-any T[AB]Z[0-9]+q => taz;tbz
any ab.*zq => zq
any a{200}b => aaaaaaaaaaaaaaaaaaaaaaaaaaaaaaaa
any ={5} => only:=====
word ={5} => =====
any ={5,} => only:=====
any a={2,3}b => a==
any [ab]{2}z => only:aaz;only:baz;only:abz;only:bbz
any a[[:space:]]b => b",
    r"any [0-9]{3}-[a-z]+(foo|bar) => bar;foo
word [0-9]+(foo|bar) => bar;foo
whole [0-9]+(foo|bar) => bar;foo
fold-any [0-9]+(Foo|BAR) => bar;foo
any a.*(foo|bar) => bar;foo
any abc(foo|bar) => abc
any (foo|bar)+ => bar;foo
any ^(foo|bar)$ => bar;foo
any x(foo|bar)(baz|quux) => quux;baz
any a((b(foo|bar))c) => bar;foo
any (x(foo|bar)y|baz)+ => baz;x
any (x(foo|bar)){2,3} => bar;foo
word z(foo|bar){0,3} => z
word z(foo|bar)? => z
word (foo|bar|x{0})x => x
word (foo|a*)x => x
word (foo|[^a])x => x
any x(foo|bar);b;c;d;e;f;g;h;i => bar;foo;only:b;only:c;only:d;only:e;only:f;only:g;only:h;only:i
any x(foo|bar);a[0-9];zoo => bar;foo;only:a0;only:a1;only:a2;only:a3;only:a4;only:a5;only:a6;only:a7;only:a8;only:a9;only:zoo",
];

/// `plain` or `fold`, an expression and a text in parts, and where the row stands in it that is looked for in place of
/// the expression's literals; `later` where it is only once these stand in too many lines in vain.
const ROWS: [&str; 2] = [
    r"plain [A-Z]{3,} xAB:1 xABC:1 => 4
plain [A-Z]{3,} xAB:1 xAB:1 xC:1 => nowhere
plain [A-Z]{3,} ABC:1 => 0
plain [A-Z]{3,} AB:1 => nowhere
plain [^%20-~] x:80 %80:1 => 80
plain [^%20-~] x:80 %0A:1 => nowhere
plain [0-9]+[.][0-9]+ x:40 .x:1 x:40 1.7:1 => 82
plain ([+]|-|[*]|/)= x:33 +=:1 => 33
plain [A-Z]{2}[0-9] x:31 AB1:1 => 31
plain [A-Z]{2}[0-9] x:29 AB1:1 x:40 => 29
plain [A-Z]{2}[0-9] x:30 AB1:1 x:40 => 30
plain [A-Z]{2}[0-9] x:31 AB1:1 x:40 => 31
plain [A-Z]{2}[0-9] x:32 AB1:1 x:40 => 32
plain [A-Z]{2}[0-9] x:63 AB1:1 x:40 => 63
plain [A-Z]{2}[0-9] x:64 AB1:1 x:40 => 64
fold [0-9][a-z][0-9] x:40 1B1:1 => 40
plain [0-9]{4}-[0-9]{2} -:20 1234-x:1 x:40 1234-56:1 => 66
plain [0-9]{4}-[0-9]{2} -:170 1234-56:1 => gave up
plain [A-Z][A-Z][0-9] A:20 1:1 x:40 => 18
plain [A-Z][A-Z][0-9] A:160 1:1 x:40 => 158
plain [A-Z]{3}[0-9]{2} 12x:60 ABC12:1 => gave up",
    r"plain [0-9] x:40 7:1 => 40
plain [A-Z]+ x:40 => nowhere
plain [a-z] x:1 => none
plain [^0-9] x:1 => none
plain [a-z]+ing x:1 => later nowhere
plain (foo|bar)[0-9] x:1 => later nowhere
plain [A-Z][a-z]+[A-Z] Ab.:20 xbC:1 => 61
plain [aeiou]{4} x:1 => none
plain [^,]+, x:40 ,:1 => later 39
plain abc x:1 => none
plain (ab|cd|ef|gh|ij)k x:40 abk:1 => 40
plain level=[0-9]{5} level=1:2 level=12345:1 => later 14
plain a|[A-Z]{3} x:1 => none
plain ([A-Z]{3})? x:1 => none",
];

/// Extended expressions, which `;` parts, and within how many bytes of where a match begins one ends.
const REACHES: &str = r"plain abc => 3
plain  => 0
plain abc;d => 3
plain [0-9]{1,3}[.][0-9]{1,3} => 5
plain a+ => 1
plain a* => 0
plain a? => 0
plain x{3,} => 3
plain x{2,5} => 2
plain (ab?){3} => 5
plain .{0,9}foo => 12
plain .{0,100}word.{0,100} => 104
plain .{0,100}(word|a+) => 104
plain ((a|bcd)e){2,3}f => 13
plain (.{255}){255} => 65025
plain [a-z]+ing => none
plain (ab|c)*d => none
plain (ab*){2} => none
plain ab;(a+)+b => none
plain ^a => none
plain a|b$ => none
plain (^a)*b => none";

/// The trees of expressions, which `;` parts. One that has none is shown.
fn trees_of(alloc: Global, text: &str, fold: bool, out: &mut String) -> Vec<Tree> {
    let mut trees = Vec::new(alloc);
    for pattern in text.split(';') {
        if let Ok(tree) = parse_ere(alloc, &bytes_of(alloc, pattern), fold) {
            let _ = trees.push(tree);
        } else {
            let _ = out.push_str("no expression: ");
        }
    }
    trees
}

/// Shows the literals of expressions.
pub(crate) fn show_literals(alloc: Global, kind: &str, text: &str, out: &mut String) {
    let word = kind.strip_prefix("fold-");
    let fold = word.is_some();
    let Some(bounds) = bounds_of(word.unwrap_or(kind)) else {
        return;
    };
    let trees = trees_of(alloc, text, fold, out);
    match Literal::of(alloc, &trees, bounds, fold) {
        Ok(literals) if literals.is_empty() => {
            let _ = out.push_str("none");
        }
        Ok(literals) => show_all(&literals, out),
        Err(AllocError) => {}
    }
}

/// Shows literals, with a `;` between them.
fn show_all(literals: &[Literal], out: &mut String) {
    for literal in literals {
        let mark = match (out.is_empty(), literal.is_enough) {
            (true, true) => "only:",
            (true, false) => "",
            (false, true) => ";only:",
            (false, false) => ";",
        };
        let _ = out.push_str(mark);
        show_bytes(&literal.text, out);
    }
}

/// Where the row of an expression stands in a text, if one is looked for; shows whether that is later.
fn place_of(
    alloc: Global,
    trees: &[Tree],
    fold: bool,
    text: &[u8],
    out: &mut String,
) -> Result<Option<RowOutcome>, AllocError> {
    let literals = Literal::of(alloc, trees, Bounds::Any, fold)?;
    match RowFinder::of(alloc, trees, Bounds::Any, fold, b'\n', &literals)? {
        Some(finder) => {
            let _ = out.push_str(if finder.is_first { "" } else { "later " });
            Ok(Some(finder.find(text)))
        }
        None => Ok(None),
    }
}

/// Shows where the row of an expression stands in a text.
pub(crate) fn show_row(alloc: Global, kind: &str, asked: &str, out: &mut String) {
    let (pattern, parts) = asked.split_once(' ').unwrap_or_default();
    let fold = kind == "fold";
    let trees = trees_of(alloc, pattern, fold, out);
    let text = repeated(alloc, parts);
    let _ = match place_of(alloc, &trees, fold, &text, out) {
        Ok(Some(RowOutcome::Found(place))) => write!(out, "{place}"),
        Ok(Some(RowOutcome::NotFound)) => write!(out, "nowhere"),
        Ok(Some(RowOutcome::GaveUp)) => write!(out, "gave up"),
        Ok(None) => write!(out, "none"),
        Err(AllocError) => write!(out, "out of memory"),
    };
}

/// Shows within how many bytes of where a match of expressions begins one ends.
pub(crate) fn show_reach(alloc: Global, kind: &str, text: &str, out: &mut String) {
    let trees = trees_of(alloc, text, kind == "fold", out);
    let _ = match reach(&trees) {
        Some(bytes) => write!(out, "{bytes}"),
        None => write!(out, "none"),
    };
}

#[test]
fn reaches(rt: HostRuntime) {
    assert_rows(&rt, rt.alloc(), Question::Reach, REACHES);
}

#[test]
fn rows_of_sets(rt: HostRuntime) {
    for rows in ROWS.iter() {
        assert_rows(&rt, rt.alloc(), Question::Row, rows);
    }
}

#[test]
fn literals(rt: HostRuntime) {
    for rows in LITERALS.iter() {
        assert_rows(&rt, rt.alloc(), Question::Literal, rows);
    }
}
