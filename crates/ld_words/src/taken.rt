// The values of words that are of a form.
ghost use Rattle.std.specs.Prelude.{◌≡◌, ◌↔◌, ℕ, List, IfErr, IfOk, IsTrue, is_some, map, option_map, slice_get, string_bytes};
ghost use Rattle.clap.specs.Values.{kind_of};
ghost use Rattle.ld_words.specs.Forms.{AreWordsOf};
ghost use Rattle.ld_words.specs.Options.{Given, value_of};
ghost use Rattle.ld_words.specs.Parsed.{flag_value};
ghost use Rattle.ld_words.specs.Taken.{IsTakenOf, text_at};

use crate::form::FormName;
use crate::option::OptionName;
use crate::syntax::{bare_name, command_of_form, place_names};
use clap::error::ErrorKind;
use clap::{ArgMatches, Error};
use std::alloc::Global;
use std::marker::Model;

/// The values that were taken of words: what stands at their places, and what their options are.
#[derive(Drop)]
pub struct TakenValues<'a> {
    matches: ArgMatches<'a>,
}

impl<'a> Model for TakenValues<'a> {
    ghost use Rattle.ld_words.specs.Parsed.{taken_of};
    ghost use Rattle.ld_words.specs.Taken.{Taken};

    ghost Value = { Taken };

    ghost view = { λ t. taken_of t.matches };
}

// The value of a flag: empty where it is true.
fn flag_value(text: Option<&str>) -> Option<&'static str>
    ensures { option_map (λ s. s.now) result ≡ flag_value (option_map (λ s. s.now) text.entry) }
{
    match text {
        Some("true") => Some(""),
        _ => None,
    }
}

impl<'a> TakenValues<'a> {
    /// The value that is given under a name, if the option is given; a flag has the empty value.
    pub fn option(&self, name: OptionName) -> Option<&'a str>
        ensures { option_map (λ s. s.now) result ≡ value_of name self.now.given }
    {
        let text = self.matches.get_str(bare_name(name));
        if name.is_flag() {
            flag_value(text)
        } else {
            text
        }
    }

    /// Whether an option is given, be it a flag or not.
    pub fn is_given(&self, name: OptionName) -> bool
        ensures { result ≡ is_some (value_of name self.now.given) }
    {
        self.option(name).is_some()
    }

    /// What stands at a place behind the command; the first place is 0.
    pub fn place(&self, place: usize) -> Option<&'a str>
        ensures { option_map (λ s. s.now) result ≡ text_at place self.now }
    {
        self.matches.get_str(place_names().get(place)?)
    }
}

/// Takes the values of words, the command's name among them. Of words of the form it takes what
/// stands at their places and what their options are, and it fails only where memory runs out. Of
/// other words it may take anything, or refuse them.
pub fn take_values<'a>(
    alloc: Global,
    form: FormName,
    words: &'a [String],
) -> Result<TakenValues<'a>, Error>
    ensures taken { (places : List (List ℕ)) (given : List Given)
        → AreWordsOf form (map string_bytes words.entry.now) places given
        → IfOk result (IsTakenOf places given) }
    ensures memory { (places : List (List ℕ)) (given : List Given)
        → AreWordsOf form (map string_bytes words.entry.now) places given
        → IfErr result (λ e. kind_of e ≡ ErrorKind.OutOfMemory) }
{
    let matches = command_of_form(alloc, form)?.try_get_matches_from(words)?;
    Ok(TakenValues { matches })
}
