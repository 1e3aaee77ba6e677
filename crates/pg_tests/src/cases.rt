//! Formats, small files, and what GNU grep writes and answers. `tests/make_cases.py` writes this file.

/// A case is a row of six fields:
/// - six letters: `H` names, `n` numbers, a mode (`c`, `l`, `q`), the limit, and the lines of context before and after;
///   `-` stands for what isn't given;
/// - the pattern: `F`, `G` or `E` for its kind, then `o` for matched parts, `c` for lines in colors, `C` for parts in
///   colors or `v` for lines that aren't matched, and behind a colon the text;
/// - the least bytes of a block;
/// - the seed of the order in which results arrive;
/// - the files `a`, `b`, `c`, a `|` before each, where `!` is one that isn't there;
/// - the status, and behind a colon the output.
///
/// In files and output `/` stands for a newline, and `~` for an ESC. Texts of a few rows are proved sooner than one of
/// all.
pub(crate) const CASES: [&str; 15] = [
    r"H--12- F:m 5 242 :|x//x//x/|/mm/xx/x/ 0:b-/b:mm/
H---22 E:^ 6 241 :|x/mx/x/xm/ 0:a:x/a:mx/a:x/a:xm/
---101 G:^x 9 127 :||x/mm/xm/|x/xx/xm/ 0:x/mm/--/x/xx/
---21- E:m$ 2 202 :|mx/mm/mxm/x/m/|mxm/mxm/|mxm//xm/x//x/ 0:mx/mm/mxm/--/mxm/mxm/--/mxm//xm/
H--1-3 E:^m 4 21 :||mx/xm/|m/mm/mm/xx/xx/m/x/mx/ 0:b:mx/b-xm/--/c:m/c-mm/c-mm/c-xx/
H--2-3 E:^m 8 212 :|xx/xx/m// 0:a:m/a-/
-n-2-0 E:x* 6 2 :|m/mx/ 0:1:m/2:mx/
H--3-1 Ev:m$ 3 206 :|x//xm/|xx/xx/mx//|m/x/mx/mx/x/ 0:a:x/a:/a-xm/--/b:xx/b:xx/b:mx/b-/--/c:x/c:mx/c:mx/c-x/
-n-2-- E:^ 8 160 :|x/mm/x/x/xm/|/xx/x/|m/xx/xx/ 0:1:x/2:mm/1:/2:xx/1:m/2:xx/
---23- F:m 4 203 :|m/ 0:m/",
    r"---302 F:m 2 79 :|x/xx/x/mxm/ 0:mxm/
Hn--1- F:mx 4 43 :|/m/m/mxm/|! 2:a-3-m/a:4:mxm/
H--11- Ev:^$ 3 19 :|x/x/mm//xx/x/|/xx//|/ 0:a:x/--/b-/b:xx/
Hn--01 F:m 2 17 :|x/x/mm/x// 0:a:3:mm/a-4-x/
Hn---- F: 2 206 :|xm/x///xx/x/|!|xx/xx/x/x/ 2:a:1:xm/a:2:x/a:3:/a:4:/a:5:xx/a:6:x/c:1:xx/c:2:xx/c:3:x/c:4:x/
----1- F:m 4 105 :|xx//mm/|mm/x/|mm/x/x/x/x/ 0:/mm/--/mm/--/mm/
Hn---1 F:m 7 185 :|||xx/m/xx/xx/ 0:c:2:m/c-3-xx/
---121 G:^x 2 92 :|x/x/x/x/m/|xx//xx/xm//|xx/mxm/x/mx/x/xx/mxm/ 0:x/x/--/xx//--/xx/mxm/
Hn--1- Fv:m 3 100 :|!|mxm/mxm/mxm/mxm/|mx/x/mx/m/m/ 2:c-1-mx/c:2:x/
H--2-0 G:^x 4 147 :|//xx/x/ 0:a:xx/a:x/",
    r"Hn--10 E:m$ 6 217 :|mxm/x/mxm/x/|!|! 2:a:1:mxm/a-2-x/a:3:mxm/
H----1 F:m 2 23 :|!| 2:
----33 Ev:m$ 3 200 :|x/xx/m/x//|x/mx/xm/xx/xx/ 0:x/xx/m/x//--/x/mx/xm/xx/xx/
Hn-212 E:m$ 4 245 :|xx/x//x/|/x//mm/mxm/x/ 0:b-3-/b:4:mm/b:5:mxm/b-6-x/
-n---0 E:m$ 6 28 :|//xx/x/|/x/xx/x/x/xx/|m///x/ 0:1:m/
-n--2- F:m 8 192 :|mx/||mxm/xx//mxm/x/xx/ 0:1:mx/--/1:mxm/2-xx/3-/4:mxm/
Hn---3 Ev:m+ 3 3 :|m/mxm/mxm/mxm/|m/x/|x/x/m/m/x/xm/ 0:b:2:x/--/c:1:x/c:2:x/c-3-m/c-4-m/c:5:x/c-6-xm/
Hn--21 E:m+ 6 198 :|x/xx/x/mxm/xx/xx/xx/|!|mx/x/x/xx//x/x/xx/ 2:a-2-xx/a-3-x/a:4:mxm/a-5-xx/--/c:1:mx/c-2-x/
Hn--1- F:m 4 75 :|x/m/xx//|x/x/xm/x/xx//x/ 0:a-1-x/a:2:m/--/b-2-x/b:3:xm/
---3-2 G:^x 7 30 :||x/xm//x/|xx/m//xm/ 0:x/xm//x/--/xx/m//xm/",
    r"-n-33- F:mx 6 197 :|xx/|x/xx/mx//x/mm/mxm/x/ 0:1-x/2-xx/3:mx/4-/5-x/6-mm/7:mxm/
---321 G:^x 2 76 :|xx//x/xx/|//x/m/x/mm/ 0:xx//x/xx/--///x/m/x/mm/
Hn-322 E:m+ 9 97 :|xm/xx/mxm/xx/x//x/x/ 0:a:1:xm/a-2-xx/a:3:mxm/a-4-xx/a-5-x/
H----2 F:m 7 47 :|x/mm/x/mxm/m/|mxm/ 0:a:mm/a-x/a:mxm/a:m/--/b:mxm/
Hn-312 E:m|x 9 34 :|m///m/xx/x//|!| 2:a:1:m/a-2-/a-3-/a:4:m/a:5:xx/a-6-x/a-7-/
H---01 E:^m 4 86 :|x/xm/xm/x/xx/|xx/m/x/|x/m/ 0:b:m/b-x/--/c:m/
Hn-1-0 E:m$ 9 164 :|xx/x/xm/xx/|//xx/x/ 0:a:3:xm/
Hn-211 E:^ 3 241 :|!|xx/x//m/x/m/m/ 2:b:1:xx/b:2:x/b-3-/
H----3 F:mx 8 200 :|!|xx/xx/x/|mx/ 2:c:mx/
Hn--0- E:^$ 3 69 :|x/xx//xx/m/mxm/mxm/x/|xm/mx/|mx/m/xx/mx/mm/mx/ 0:a:3:/",
    r"----03 Fv:m 6 51 :|xx/m/x/|xm/xx/m/xx/xx/x//|x/m//mm/x/x/xx/ 0:xx/m/x/--/xx/m/xx/xx/x//--/x/m//mm/x/x/xx/
H----3 F:x 8 83 :|/x/x/mx/|xx/mm/xx///xx/xx/ 0:a:x/a:x/a:mx/--/b:xx/b-mm/b:xx/b-/b-/b:xx/b:xx/
Hn---- Fv:m 8 70 :||mxm/x/xx/mm/m/ 0:b:2:x/b:3:xx/
---1-- E:^ 3 155 :|xx/x/x/x/|! 2:xx/
Hn--01 E:^ 9 148 :|mm/x/m/mxm/x/ 0:a:1:mm/a:2:x/a:3:m/a:4:mxm/a:5:x/
Hn--12 E:m|x 8 91 :|//x/x/|xx/x/x/ 0:a-2-/a:3:x/a:4:x/--/b:1:xx/b:2:x/b:3:x/
Hn---1 F:m 6 249 :|///x//mm/|x/xx/x//xx/x/xx/x/|/x/x/x/x/x/x/ 0:a:6:mm/
Hn---0 E:^$ 4 92 :|/mxm/x/|mx/m///x//xx/x/ 0:a:1:/--/b:3:/b:4:/--/b:6:/
-n--2- E:x* 5 145 :|m/x/x/mm//mxm/ 0:1:m/2:x/3:x/4:mm/5:/6:mxm/
H---3- Fv:m 5 193 :|/mm//x//x/|x/xm/mx/x///x/|! 2:a:/a-mm/a:/a:x/a:/a:x/--/b:x/b-xm/b-mx/b:x/b:/b:/b:x/",
    r"-n---- F:x 3 227 :|x/m/x/|x/mx//xx/ 0:1:x/3:x/1:x/2:mx/4:xx/
------ Gv:^x 6 154 :|xx/xx/x/xx///x/ 0://
-n-21- E:m|x 3 25 :| 1:
-----0 F:m 4 4 :|x/x/mxm//m/x/x/|mm//m/xm//xx/m/x/| 0:mxm/--/m/--/mm/--/m/xm/--/m/
H----2 Gv:^x 8 39 :|xx/|/x/|x/mm//x/ 0:b:/b-x/--/c:mm/c:/c-x/
---232 E:^m 2 157 :|xm/|m/m/x/m/x/m/ 0:m/m/x/m/
H--2-3 E:m+ 2 125 :|mx/|m/mm/xx//xx//|x/m/x/x/ 0:a:mx/--/b:m/b:mm/b-xx/b-/b-xx/--/c:m/c-x/c-x/
H----- F:m 8 50 :|x/x/|xx/mx/mxm/xm//mx/m/mxm/|m/ 0:b:mx/b:mxm/b:xm/b:mx/b:m/b:mxm/c:m/
Hn-1-0 F:mx 2 128 :||! 2:
---1-- F:m 9 158 :|xx/x/ 1:",
    r"----31 G:m* 6 31 :||xm//|! 2:xm//
Hn---1 E:m$ 9 241 :|xx/mm/mxm/x/m/x/x/xx/|/xx/x/xx/x// 0:a:2:mm/a:3:mxm/a-4-x/a:5:m/a-6-x/
H--1-- Fo:mx 5 227 :|x/xm/mxm/|! 2:a:mx/
Hn---- Fo:m 7 46 :|/xx/xx/mxm/|xx/x/| 0:a:4:m/a:4:m/
---1-- Fo:m 8 96 :|!|x/x/xm/xm/m/m//mx/|x/xm//xm/m// 2:m/m/
Hn---- Eo:x* 8 220 :|m/xm/xx/m//m/|xx/xx//x/ 0:a:2:x/a:3:xx/b:1:xx/b:2:xx/b:4:x/
H--3-- Go:^x 9 145 :||x/m/x//xx/x/x/x/ 0:b:x/b:x/b:x/
H--3-- Go:m. 9 3 :||//x/x/x/mm/x/x/|! 2:b:mm/
H--2-- Fo:m 9 60 :|x// 1:
------ Eo:m|x 6 28 :|!|x/mxm/mx/mxm/m/mx/x/m/ 2:x/m/x/m/m/x/m/x/m/m/m/x/x/m/",
    r"------ Eo:x* 6 237 :|!|mm/xm/x/|mm/x//x/xx/m//mx/ 2:x/x/x/x/xx/x/
-n---- Fo:m 9 152 :||x/x/mm/x/xx/x/x/xx/ 0:3:m/3:m/
------ Fo:m 2 57 :|xm//x/x/ 0:m/
------ Fo:m 7 206 :||!|mxm/m/xx/x// 2:m/m/m/
Hn---- Go:m* 4 219 :|xm/mx/x/xx/|m/mx/x/x/m/mx/|m/x/x/ 0:a:1:m/a:2:m/b:1:m/b:2:m/b:5:m/b:6:m/c:1:m/
Hn---- Fo:m 4 216 :|mx//xx/x/|xx/x//xx/x/x//xx/|! 2:a:1:m/
H--3-- Fo:m 5 240 :|!|mm/x/x/x//|mm/m/mx/xx/mx/x/ 2:b:m/b:m/c:m/c:m/c:m/c:m/
------ Fo:x 5 10 :|mxm//x//mm/x/m/m/|! 2:x/x/x/
H----- Fo:m 3 15 :|xx/mm/x/|xx/|x/xx//x/xm/xm// 0:a:m/a:m/c:m/c:m/
Hn---- Fo:m 7 241 :|xx/x/xx/m/x///|x/x/xx/mxm/xx/x/m/xx/|x/x/xx/mm/ 0:a:4:m/b:4:m/b:4:m/b:7:m/c:4:m/c:4:m/",
    r"-n---- Go:m* 7 146 :||/mm/mx/mxm/ 0:2:mm/3:m/4:m/4:m/
------ Eo:(mx)+ 2 162 :|mxm/| 0:mx/
-nc--- Fv:m 8 140 :|m//|mm/x/x/|/xm/mxm//x/x/mm/ 0:1/2/4/
H-c--- F:m 8 35 :|/m/xx/xx//x/|!|mm/xx/xx/m/ 2:a:1/c:2/
-nc--- F:x 8 54 :|/x///xx/x/mx/|m/mxm/x///|! 2:4/2/
--c3-- G:m* 8 166 :|/m/xm/|!|mxm/mx/x/mxm/mx/ 2:3/3/
H-c2-- F:m 6 204 :|xx/|! 2:a:0/
Hnc--- F:m 9 209 :|m/|x/mxm/xm/mm/xm/mxm/x/ 0:a:1/b:5/
Hnc1-- G:^x 8 155 :|!| 2:b:0/
Hnc1-- G:^x 3 171 :|!|xm/xm/ 2:b:1/",
    r"Hnc2-- G:^x 2 43 :|x/xx//|m/|/x/ 0:a:2/b:0/c:1/
H-c--- F:x 7 77 :|x/x/xx/x/ 0:a:4/
H-c33- G:m. 6 159 :|/xx/x/x/xx//x/|! 2:a:0/
--c-1- F:m 9 138 :|mm/m//xm/ 0:3/
H-c3-3 G:m. 7 180 :| 1:a:0/
-nc--- E:^m 6 234 :|//|//x/xx/x/x/|x/x/x/xx/x/xx/x/x/ 1:0/0/0/
--l1-1 E:^m 5 248 :|x/| 1:
Hnl--- F:m 6 178 :|/xm/mx/mx/||mx/xm/xm/x/ 0:a/c/
-nl1-- Ev:^m 3 102 :|mm//xx/x/x/m/x/|x//x/|xx/ 0:a/b/c/
-nl--- F:m 4 96 :|!|!|/x/ 2:",
    r"--l--- F:x 3 140 :|xx/x/ 0:a/
--l1-- E:m$ 7 209 :|x/m/xx/xx//|m/mx//x/m// 0:a/b/
Hnl--- F:m 2 60 :|m/x//|!|! 2:a/
-nl--- G:m* 3 121 :|xm/xx/mx/x/|m/m/x/|mxm/xm/mx/ 0:a/b/c/
--l--- F:x 5 154 :|x/mm/x/xx/xx/|x//xx///xx/mx// 0:a/b/
H-l--- Gv:^x 3 225 :|/x/xx/xx/mx/|xx/x/x/| 0:a/
-nl--- F: 7 70 :|x/mm/xx/mxm/// 0:a/
Hnl--- F:x 8 205 :|mm/mm/xm/|mm/mxm/x/xm/mm/xx/m/m/|! 2:a/b/
H-q-3- F:m 9 220 :|mm/mm/m//mm/mx/m/mm/|m/mx/ 0:
H-q2-0 F:m 4 32 :|xx/mm/x/xx/x/xx/xx/x/|| 0:",
    r"Hnq3-- F:m 5 185 :|xx/x/x/x/x/xx/|m//x//xx/|mx/mx/mxm/x/ 0:
-nq--- Fv:m 8 199 : 1:
--q--3 Ev:(mx)+ 4 1 :|x/x/|! 0:
-nq3-- Ev:^ 2 67 :|xx/x/x/x/xx/|x/mx/x/ 1:
H-q1-- Ev:^$ 7 52 :|/xx/xx/||! 0:
Hnq--- Gv:m* 3 30 :|xx/m/mm/xm/||x/mm/xx/x/mm/mx/mm/ 1:
--q312 F:m 9 210 :|! 2:
-nq--- F:m 7 255 :|mxm/mx/xx/xm/xm/xm/m/|!|x/mm/m/m/xm/mxm/ 0:
-nq--2 G:m. 9 122 :|!|x/xx/x/xm/mx/|! 0:
Hnq23- F:mx 2 90 :|x/x/mm/xx/ 1:",
    r"-nq--- F:x 4 221 :||!|x/x/x/x/x/xx/x/x/ 0:
-nq300 F:m 8 235 :|mxm/x/mm/mm/|mx/ 0:
-n--1- Fc:x 9 109 :|m/ 1:
------ Fc: 6 189 :|!|mxm/mx/x/ 2:mxm/mx/x/
-----0 Ec:^ 5 196 :|x/m/mm//|mm/ 0:x/m/mm//~[36m~[K--~[m~[K/mm/
---31- Ec:^$ 7 4 :|xx/x/mxm/x/x/|x/x/x/x/m//|mxm/xx/m/xx/ 0:m//
-----2 Fc: 8 197 :|xx/mxm//xx/|x/x/|mx//x/mm/x/ 0:xx/mxm//xx/~[36m~[K--~[m~[K/x/x/~[36m~[K--~[m~[K/mx//x/mm/x/
Hn-1-2 Fc:m 7 131 :||xx/x/x/// 1:
Hn---- Fc:m 4 139 :|/m/x///|! 2:~[35m~[Ka~[m~[K~[36m~[K:~[m~[K~[32m~[K2~[m~[K~[36m~[K:~[m~[K~[01;31m~[Km~[m~[K/
H----1 Fc:m 8 178 :|m/ 0:~[35m~[Ka~[m~[K~[36m~[K:~[m~[K~[01;31m~[Km~[m~[K/",
    r"H--3-- Fc:mx 6 139 :|m/x/m/xm/m//|m/m/|/mxm/ 0:~[35m~[Kc~[m~[K~[36m~[K:~[m~[K~[01;31m~[Kmx~[m~[Km/
------ Ec:^ 9 57 :|x/x/|xx//x/x/|m//xm/x/ 0:x/x/xx//x/x/m//xm/x/
H--1-0 Ec:m|x 4 217 :|mm//m/mx//| 0:~[35m~[Ka~[m~[K~[36m~[K:~[m~[K~[01;31m~[Km~[m~[K~[01;31m~[Km~[m~[K/
---222 Gc:m* 3 163 :|x/|!|m/mx/mx/ 2:x/~[36m~[K--~[m~[K/~[01;31m~[Km~[m~[K/~[01;31m~[Km~[m~[Kx/mx/
------ EC:^m 7 75 :|x/x/x/ 1:
Hn-3-- EC:m$ 9 193 :|///|xx/| 1:
---1-- EC:^$ 5 160 :||x//m/x/x/x/x/xx/|xx/x/x/xx/m/x/ 0:
H----- FC:mx 4 77 :|mxm/x/|x/x/xm/x/m/m/x/ 0:~[35m~[Ka~[m~[K~[36m~[K:~[m~[K~[01;31m~[Kmx~[m~[K/
H--3-- EC:^$ 7 19 :|xx/xm/x/|x/mm/xx/m/|m/xm/m/m////mxm/ 0:
-n---- GC:m* 6 4 :|xm/ 0:~[32m~[K1~[m~[K~[36m~[K:~[m~[K~[01;31m~[Km~[m~[K/",
    r"--c--- Ec:m$ 3 187 :|!|mxm/xm/xm/ 2:3/
--c21- Fc:m 9 59 :|m/xx/mm/mx/mx/x/xx/mm/|m/xm/x/x/xm/x/ 0:2/2/",
];
