// Weights among the words of a command line.
ghost use Rattle.std.specs.Prelude.{◌≡◌, ◌↔◌, List, ℕ, Some, IfOk, IsTrue, MatchOption, is_some, map};
ghost use Rattle.std.specs.Borrow.{Bor};
ghost use Rattle.std.specs.List.{list_all};
ghost use Rattle.ld_words.specs.Number.{number_of};
ghost use Rattle.ld_words.specs.Weights.{parts_of, AreWeights};

use crate::number::read_number;
use std::alloc::{AllocError, Global};
use std::marker::Model;

/// Weights, one for each position, as they stand among the words.
#[derive(Drop)]
pub struct Weights {
    numbers: Vec<u64>,
}

impl Model for Weights {
    ghost use Rattle.std.specs.Prelude.{List, ℕ};

    ghost Value = { List ℕ };

    ghost view = { λ w. w.numbers.items };
}

impl Weights {
    /// The weights, in order of positions.
    pub fn as_slice(&self) -> &[u64]
        ensures { result.now ≡ self.now }
    {
        self.numbers.as_slice()
    }

    // The weights that a word is, if it is some: an empty word, or numbers joined by commas.
    pub(crate) fn read(alloc: Global, word: &str) -> Result<Option<Weights>, AllocError>
        ensures { IfOk result (λ found. MatchOption found
            ((weights : List ℕ) → AreWeights word.now weights → ⊥)
            (λ weights. AreWeights word.now weights)) }
    {
        if word.is_empty() {
            let numbers = Vec::new(alloc);
            return Ok(Some(Weights { numbers }));
        }
        let parts = parts(alloc, word)?;
        match read_numbers(alloc, &parts)? {
            Some(numbers) => Ok(Some(Weights { numbers })),
            None => Ok(None),
        }
    }
}

// Whether a word is weights.
pub fn are_weights(word: &str) -> bool
    ensures { IsTrue result ↔ ((weights : List ℕ) × AreWeights word.now weights) }
{
    word.is_empty() || are_numbers(word)
}

// Whether each part of a word between its commas is a number.
fn are_numbers(word: &str) -> bool
    ensures { result ≡ list_all (λ part. is_some (number_of part)) (parts_of word.now) }
{
    word.split(',').all(|part| read_number(part).is_some())
}

// The numbers that the texts are, if each is one.
fn read_numbers(alloc: Global, texts: &[&str]) -> Result<Option<Vec<u64>>, AllocError>
    ensures { IfOk result (λ found. MatchOption found
        ((numbers : List ℕ) → map number_of (map (λ (text : Bor (List ℕ)). text.now) texts.now) ≡ map Some numbers → ⊥)
        (λ numbers. map number_of (map (λ (text : Bor (List ℕ)). text.now) texts.now) ≡ map Some numbers.items)) }
{
    let mut numbers = Vec::new(alloc);
    for text in texts {
        let Some(number) = read_number(text) else {
            return Ok(None);
        };
        numbers.push(number as u64)?;
    }
    Ok(Some(numbers))
}

// The parts of a word between its commas.
fn parts<'a>(alloc: Global, word: &'a str) -> Result<Vec<&'a str>, AllocError>
    ensures { IfOk result (λ parts. map (λ (part : Bor (List ℕ)). part.now) parts.items ≡ parts_of word.now) }
{
    word.split(',').collect(alloc)
}
