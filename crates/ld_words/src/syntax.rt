// The commands that clap is told of: for each form its places and its options.
ghost use Rattle.std.specs.Prelude.{◌≡◌, IfOk, codes, false, map};
ghost use Rattle.clap.specs.Walk.{rule_of};
ghost use Rattle.clap.specs.Simple.{app_of, new_app, new_rule};
ghost use Rattle.ld_words.specs.Forms.{options_of};
ghost use Rattle.ld_words.specs.Syntax.{app_of_form, bare_name, option_rule, place_names, place_names_of, with_rules};

use crate::form::FormName;
use crate::option::OptionName;
use clap::{Arg, ArgAction, Command};
use std::alloc::{AllocError, Global};

// What the places are called, in order.
pub fn place_names() -> &'static [&'static str]
    ensures { map (λ s. s.now) result.now ≡ place_names }
{
    &["place 1", "place 2", "place 3"]
}

// What a form's places are called.
fn place_names_of(form: FormName) -> &'static [&'static str]
    ensures { map (λ s. s.now) result.now ≡ place_names_of form }
{
    match form {
        FormName::StripeWeights => &["place 1", "place 2", "place 3"],
        FormName::StripeSegment | FormName::Plan | FormName::RehearseTest => &["place 1"],
        FormName::RehearseWords | FormName::Help => &[],
    }
}

// An option's name without its dashes.
pub fn bare_name(name: OptionName) -> &'static str
    ensures { result.now ≡ bare_name name }
{
    match name {
        OptionName::Segment => "segment",
        OptionName::Sequence => "sequence",
        OptionName::Rate => "rate",
        OptionName::Unit => "unit",
        OptionName::Duration => "duration",
        OptionName::Pre => "pre",
        OptionName::Max => "max",
        OptionName::Iteration => "iteration",
        OptionName::Journal => "journal",
        OptionName::Entries => "entries",
        OptionName::List => "list",
    }
}

// An option that takes one value, or a flag.
fn option_arg<'a>(alloc: Global, name: OptionName) -> Arg<'a>
    ensures rule { rule_of result ≡ option_rule name }
    ensures local { result.global ≡ false }
{
    let text: &'a str = bare_name(name);
    let arg = Arg::new(alloc, text).long(text);
    if name.is_flag() {
        arg.action(ArgAction::SetTrue)
    } else {
        arg.action(ArgAction::Set)
    }
}

// A form's places behind the arguments of a command.
fn with_places<'a>(
    alloc: Global,
    form: FormName,
    mut command: Command<'a>,
) -> Result<Command<'a>, AllocError>
    ensures { IfOk result (λ c. app_of c ≡ with_rules (app_of command.entry) (map new_rule (place_names_of form))) }
{
    for name in place_names_of(form) {
        let name: &'a str = name;
        command = command.arg(Arg::new(alloc, name))?;
    }
    Ok(command)
}

// A form's options behind the arguments of a command.
fn with_options<'a>(
    alloc: Global,
    form: FormName,
    mut command: Command<'a>,
) -> Result<Command<'a>, AllocError>
    ensures { IfOk result (λ c. app_of c ≡ with_rules (app_of command.entry) (map option_rule (options_of form))) }
{
    for name in form.options() {
        command = command.arg(option_arg(alloc, *name))?;
    }
    Ok(command)
}

// The command of a form, whose words begin with the command's name.
pub fn command_of_form<'a>(alloc: Global, form: FormName) -> Result<Command<'a>, AllocError>
    ensures { IfOk result (λ c. app_of c ≡ app_of_form form) }
{
    let command = Command::new(alloc, "load").disable_help_flag(true);
    let command = with_places(alloc, form, command)?;
    with_options(alloc, form, command)
}
