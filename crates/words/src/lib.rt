// Lines and words of a script, and the numbers behind a command.
#![tactic(auto)]

ghost use Rattle.std.specs.Prelude.{◌≡◌, ◌==◌, position};
ghost use Rattle.words.specs.Parts.{end_of, is_silent, words_of, ReadWords, ReadNumbers};

use parts::store;

// So many words that are not all numbers, or more than there is room for.
#[derive(Clone, Copy, Debug, PartialEq, Eq)]
pub struct Unread {
    pub words: usize,
}

const SPACE: u8 = b' ';

const LINE_END: u8 = b'\n';

const COMMENT: u8 = b'#';

// Where the first mark stands.
fn find(text: &[u8], mark: u8) -> Option<usize>
    ensures { result ≡ position (λ b. b == mark) text.now }
{
    text.iter().position(|byte| *byte == mark)
}

// Where the next mark stands, from a place on, or the end of the text.
fn end_of(text: &[u8], from: usize, mark: u8) -> usize
    ensures { result ≡ end_of mark text.now from }
{
    let rest = &text[from.min(text.len())..];
    from + find(rest, mark).unwrap_or(rest.len())
}

// Where the line that begins at a place ends.
// Kept: this and `word_end` are the names of one function at two marks, which their contracts say.
pub fn line_end(text: &[u8], from: usize) -> usize
    ensures { result ≡ end_of 10 text.now from }
{
    end_of(text, from, LINE_END)
}

// Where the word that begins at a place ends.
pub fn word_end(text: &[u8], from: usize) -> usize
    ensures { result ≡ end_of 32 text.now from }
{
    end_of(text, from, SPACE)
}

// A line that says nothing: an empty one, or a comment.
pub fn is_silent(line: &[u8]) -> bool
    ensures { result ≡ is_silent line.now }
{
    line.is_empty() || line[0] == COMMENT
}

// The numbers of all words of a text.
fn numbers_of(text: &[u8], out: &mut [u64]) -> Result<usize, Unread>
    ensures { ReadWords (words_of text.now) out.old result out.new }
{
    // Kept: count is an answer, of the words past the room too; enumerate would give a second number of them.
    let mut count = 0;
    let mut ok = true;
    for word in text.split(|byte| *byte == SPACE) {
        let number = decimal::number_of(word);
        ok = ok & number.is_some();
        store(out, count, number.unwrap_or(0));
        count += 1;
    }
    if ok & (count <= out.len()) {
        Ok(count)
    } else {
        Err(Unread { words: count })
    }
}

// The numbers of the words behind the one that ends at a place, up to the end of the line: how many they are.
pub fn numbers_behind(line: &[u8], end: usize, out: &mut [u64]) -> Result<usize, Unread>
    ensures { ReadNumbers line.now end out.old result out.new }
{
    if end < line.len() {
        numbers_of(&line[end + 1..], out)
    } else {
        Ok(0)
    }
}
