//! The text of `--help`.

/// What the program reads.
pub const HELP: &str = "\
handler [FILE]

Reads a script, one command to a line, from FILE or from standard input, and prints the answer of each.
Blank lines and lines that begin with # are passed over. Numbers are decimal, bytes are hexadecimal,
words are parted by blanks. A line that can't be read as a command is answered: unreadable

  read BYTES                        what the packet says, or why it is refused; alone: an empty packet
  setup SHELF books=N depth=D rows=R
                                    a closed channel over that shelf, with N books of D levels a side and
                                    R rows of executed volume; what stood before is let go.
                                    SHELF is slots or chain=RECORDS, then any number of quota=LIMIT
  make CHANNEL SOURCE FIRST         opens the channel; SOURCE is a word or hex:BYTES
  offer BYTES                       offers a packet; alone: an empty packet
  claim TIME                        claims the gap above the last number, with the request for it
  settle                            settles the claim in hand
  restart NUMBER                    begins again at a number
  book INDEX                        the levels of a book, best first, buys before sells
  row INDEX                         the executed volume of an index
  state                             last, units on the shelf, loss mark, missed executions and lost numbers
";
