//! The words of a line, parted by blanks.
ghost use Rattle.std.specs.Prelude.{◌≡◌, position, not};
ghost use Rattle.console.specs.Words.{blank, next_word, told_words, words_in, words_of};

// A space, a tab, or the carriage return of a line that ends in two bytes.
fn is_blank(byte: u8) -> bool
    ensures { result ≡ blank byte }
{
    matches!(byte, b' ' | b'\t' | b'\r')
}

// Where the first word of a line begins.
fn word_start(line: &[u8]) -> Option<usize>
    ensures { result ≡ position (λ byte. not (blank byte)) line.now }
{
    line.iter().position(|byte| !is_blank(*byte))
}

// Where the word ends that a line begins with, if blanks follow.
fn word_end(line: &[u8]) -> Option<usize>
    ensures { result ≡ position blank line.now }
{
    line.iter().position(|byte| is_blank(*byte))
}

/// The first word of a line and what stands behind it, if the line has a word.
pub fn next_word(line: &[u8]) -> Option<(&[u8], &[u8])>
    ensures value { told_words result ≡ next_word line.now }
    ensures words { words_of (told_words result) ≡ words_in line.now }
{
    let line = &line[word_start(line)?..];
    Some(line.split_at(word_end(line).unwrap_or(line.len())))
}
