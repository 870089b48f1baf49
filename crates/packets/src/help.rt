//! The text of `--help`.

/// What the program reads.
pub const HELP: &str = "\
packets [FILE]

Reads a script, one command to a line, from FILE or from standard input, and prints the answer of each.
Blank lines and lines that begin with # are passed over. Numbers are decimal, bytes are hexadecimal,
words are parted by blanks. A line that can't be read as a command is answered: unreadable

  read BYTES    what the packet says, or why it is refused; alone: an empty packet
";
