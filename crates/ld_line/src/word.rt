ghost use Rattle.std.specs.Prelude.{◌≡◌, ◌++◌, OnErr, OnOk, map};
ghost use Rattle.ld_line.specs.Line.{Grows, joined, line, next_text, word_text};

use ld_base::{BaseFault, put_number};

/// One word of a line.
#[derive(Clone, Copy)]
pub enum Word<'a> {
    /// A text, which is written as it stands.
    Text(&'a [u8]),
    /// A number, which is written in decimal digits.
    Number(u64),
}

/// Appends words, joined by one space.
///
/// Fails where the allocator gives no memory for them; `into` has then some more bytes behind those
/// that it had.
pub fn put_words(into: &mut Vec<u8>, words: &[Word]) -> Result<(), BaseFault>
    ensures ok { OnOk result (into.new.items ≡ into.old.items ++ joined (map word_text words.now)) }
    ensures err { OnErr result (Grows into.old.items into.new.items) }
{
    for (place, word) in words.iter().enumerate() {
        put_next(into, word, place > 0)?;
    }
    Ok(())
}

/// Appends a line of words, joined by one space.
///
/// Fails where the allocator gives no memory for it; `into` has then some more bytes behind those
/// that it had.
pub fn put_line(into: &mut Vec<u8>, words: &[Word]) -> Result<(), BaseFault>
    ensures ok { OnOk result (into.new.items ≡ into.old.items ++ line (map word_text words.now)) }
    ensures err { OnErr result (Grows into.old.items into.new.items) }
{
    put_words(into, words)?;
    into.extend_from_slice(b"\n")?;
    Ok(())
}

// Appends a word, behind a space where it follows another.
fn put_next(into: &mut Vec<u8>, word: &Word, follows: bool) -> Result<(), BaseFault>
    ensures ok { OnOk result (into.new.items ≡ into.old.items ++ next_text follows (word_text word.now)) }
    ensures err { OnErr result (Grows into.old.items into.new.items) }
{
    if follows {
        into.extend_from_slice(b" ")?;
    }
    put_word(into, word)
}

// Appends a word.
fn put_word(into: &mut Vec<u8>, word: &Word) -> Result<(), BaseFault>
    ensures ok { OnOk result (into.new.items ≡ into.old.items ++ word_text word.now) }
    ensures err { OnErr result (Grows into.old.items into.new.items) }
{
    match word {
        Word::Text(text) => Ok(into.extend_from_slice(text)?),
        Word::Number(number) => put_number(into, *number),
    }
}
