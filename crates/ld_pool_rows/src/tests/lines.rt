// Lines: numbers, words and lines that are appended to a text.

use crate::tests::table::{State, check_script, number, parts, shown};
use ld_base::put_number;
use ld_line::{Word, put_line, put_words};
use std::alloc::Global;
use std::test::Fail;

// A text; then what is appended to it: a number, words, a line of words, or one word as it stands; and the text behind
// each call.
const LINES: &str = "\
x
number 0 => x0
number 10 => x010
number 18446744073709551615 => x01018446744073709551615
x
line end 12 => xend 12/
words 10 a => xend 12/10 a
line => xend 12/10 a/
text a  b => xend 12/10 a/a  b
text => xend 12/10 a/a  b";

// A text that grows.
#[derive(Drop)]
struct Written {
    text: Vec<u8>,
}

impl State for Written {
    fn open(alloc: Global, given: &str) -> Result<Written, Fail> {
        let text = Vec::from_slice(alloc, given.as_bytes())?;
        Ok(Written { text })
    }

    fn call(&mut self, alloc: Global, call: &str) -> Result<String, Fail> {
        let (kind, given) = parts(call, " ");
        match kind {
            "number" => put_number(&mut self.text, number(given))?,
            "text" => put_words(&mut self.text, &[Word::Text(given.as_bytes())])?,
            "words" => put_words(&mut self.text, &words_of(alloc, given)?)?,
            _ => put_line(&mut self.text, &words_of(alloc, given)?)?,
        }
        shown(alloc, &self.text)
    }
}

// The words of a text.
fn words_of(alloc: Global, text: &str) -> Result<Vec<Word<'_>>, Fail> {
    let mut words = Vec::new(alloc);
    for word in text.split_whitespace() {
        words.push(word_of(word))?;
    }
    Ok(words)
}

// A word: a number where it is written as one.
fn word_of(word: &str) -> Word<'_> {
    match number(word) {
        0 => Word::Text(word.as_bytes()),
        number => Word::Number(number),
    }
}

/// Numbers, words and lines.
#[test]
fn lines(rt: HostRuntime) -> Result<(), Fail> {
    check_script::<Written, _>(&rt, LINES)
}
