// Options that were read, and what stands under their names.
ghost use Rattle.std.specs.Prelude.{◌≡◌, None, Some, MatchOption};
ghost use Rattle.ld_words.specs.Options.{value_of};
ghost use Rattle.ld_words.specs.OptionWords.{given_by};

use crate::option::OptionName;

/// An option that was read: its name and its value. A flag has the empty value.
#[derive(Clone, Copy)]
pub struct GivenOption<'a> {
    pub name: OptionName,
    pub value: &'a str,
}

// The value that is given under a name, if one is.
pub fn value_under<'a>(given: &[GivenOption<'a>], name: OptionName) -> Option<&'a str>
    ensures { MatchOption result
        (value_of name (given_by given.now) ≡ None)
        (λ value. value_of name (given_by given.now) ≡ Some value.now) }
{
    for option in given {
        if name.text() == option.name.text() {
            return Some(option.value);
        }
    }
    None
}
