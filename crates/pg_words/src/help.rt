//! What --help and --version tell.

/// What --version tells.
pub const VERSION: &str = "pargrep 1.1.0\n";

/// What --help tells.
pub const HELP: &str = "\
Usage: pargrep [OPTION ...] [PATTERN] [FILE ...]

Print the lines of each FILE that match PATTERN. Without -e and -f the first
operand is PATTERN. With no FILE, or where FILE is -, read standard input.
After -- every word is an operand.

Patterns, one on each line:
  -G, --basic-regexp         patterns are basic regular expressions (default)
  -E, --extended-regexp      patterns are extended regular expressions
  -F, --fixed-strings        patterns are fixed strings
  -e, --regexp=TEXT          use the patterns in TEXT; can be repeated
  -f, --file=FILE            use the patterns in FILE; can be repeated
  -i, -y, --ignore-case      ignore the case of letters
      --no-ignore-case       respect case (default); the last one counts
  -w, --word-regexp          match only whole words
  -x, --line-regexp          match only whole lines
  -v, --invert-match         select the lines that do not match
  -z, --null-data            lines end with a NUL, not with a newline

Output:
  -c, --count                print the number of selected lines of each file
  -l, --files-with-matches   print the names of files with a selected line
  -L, --files-without-match  print the names of files without one
  -q, --quiet, --silent      print nothing; only the exit status tells
  -o, --only-matching        print the matching parts of selected lines
  -n, --line-number          print each line's number before it
  -b, --byte-offset          print each line's offset before it, or with -o
                             each part's: bytes from the file's start
  -H, --with-filename        print the name of the file before each line
  -h, --no-filename          never print names of files before lines
      --label=NAME           call standard input NAME
  -Z, --null                 print a NUL after each name of a file
  -T, --initial-tab          print a tab after the name, number and offset
  -m, --max-count=N          stop after N selected lines of each file
  -A, --after-context=N      print N lines after each selected line
  -B, --before-context=N     print N lines before each, at most 65,535
  -C, --context=N            print N lines before and after, at most 65,535;
                             -5 is the same as -C 5
      --group-separator=TEXT print TEXT between groups of lines, at most 64
                             bytes (default --)
      --no-group-separator   print nothing between them; the last one counts
      --color[=WHEN], --colour[=WHEN]
                             color matches, names and numbers: always, never
                             (default) or auto (only on a terminal); without
                             =WHEN it is auto
      --line-buffered        print lines as soon as their block is searched

Files:
  -r, --recursive            search the files below each directory
  -R, --dereference-recursive
                             as -r, and follow links below directories too
  -d, --directories=ACTION   read directories (an error), skip them, or recurse
                             (as -r); the last one counts
  -D, --devices=ACTION       read devices, FIFOs and sockets, or skip them; by
                             default only those named are read
      --include=GLOB         search only files whose name matches GLOB
      --exclude=GLOB         leave out files whose name matches GLOB
      --exclude-from=FILE    leave out files whose name a glob in FILE matches
      --exclude-dir=GLOB     leave out directories whose name matches GLOB
  -s, --no-messages          suppress messages about unreadable files
  -a, --text                 no effect: every file is text
  -U, --binary               no effect
      --binary-files=text    no effect; other types are refused

Performance (never changes the output):
      --workers=N            search with up to N threads beside the one that
                             reads, 1 to 64 (default 4)
      --block=N              cut files into blocks of at least N bytes,
                             1 to 16,777,216 (default 65,536)
      --round=N              search up to N blocks together, 1 to 1,024
                             (default 64); with 1 all is done by one thread

      --help                 print this help and exit
  -V, --version              print the version and exit

The exit status is 0 if a line was selected, 1 if none was, and 2 after an
error. Lines can have up to 1,073,741,824 bytes, and patterns up to 4,096.
";
