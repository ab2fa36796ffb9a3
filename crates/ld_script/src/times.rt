// Spans of time in a document.
ghost use Rattle.std.specs.Prelude.{◌≡◌, ◌≢◌, IfErr, IfOk, Result, ok_or, option_copied};
ghost use Rattle.ld_json.specs.Pointer.{member_path};
ghost use Rattle.ld_json.specs.Rules.{Accepts};
ghost use Rattle.ld_script.specs.Fault.{Answers};
ghost use Rattle.ld_script.specs.Fields.{given};
ghost use Rattle.ld_script.specs.Ranges.{IsWithin};
ghost use Rattle.ld_script.specs.Times.{IsSpan, IsTime, RefusesSpan, RefusesTime, span_text as text_of_span};
ghost use Rattle.ld_script.specs.declared.fault.ScriptFault.TheVariants.{Memory, WrongKind};

use crate::fault::ScriptFault;
use crate::fields::{default_text, ranged};
use crate::range::Range;
use ld_base::{Text, put_number};
use ld_json::{JsonFault, Node};
use ld_num::read_duration;
use std::alloc::Global;

/// The range of a span of time, in nanoseconds: up to 30 days.
pub const SPANS: Range = Range {
    least: 0,
    most: 2_592_000_000_000_000,
};

// The span of time of the field of this name, in its range. Without a default it is needed.
pub fn time(
    alloc: Global,
    node: &Node<'_>,
    name: &str,
    default: Option<&str>,
    range: Range,
) -> Result<u64, ScriptFault>
    ensures value { IfOk result (IsTime range (option_copied default.entry) node.now name.now) }
    ensures accepted { IfOk result (λ _. Accepts (RefusesTime range (option_copied default.entry) node.now name.now)) }
    ensures refused { IfErr result (λ f. f ≢ Memory → RefusesTime range (option_copied default.entry) node.now name.now f) }
{
    let text = span_given(alloc, node, name, default)?;
    span(alloc, node, name, range, &text)
}

// The span of time that a text of the field of this name says.
fn span(
    alloc: Global,
    node: &Node<'_>,
    name: &str,
    range: Range,
    text: &Text,
) -> Result<u64, ScriptFault>
    ensures value { IfOk result (λ n. IsSpan text.now n × IsWithin range.least range.most n) }
    ensures accepted { IfOk result (λ _. Accepts (RefusesSpan range (member_path node.now.path name.now) text.now)) }
    ensures refused { IfErr result (λ f. f ≢ Memory → RefusesSpan range (member_path node.now.path name.now) text.now f) }
{
    match read_duration(text.as_slice()) {
        Ok(length) => ranged(alloc, node, name, range, length),
        Err(fault) => {
            let path = node.path_of(alloc, name)?;
            Err(ScriptFault::Number { path, fault })
        }
    }
}

// The text of the span of the field of this name.
fn span_given(
    alloc: Global,
    node: &Node<'_>,
    name: &str,
    default: Option<&str>,
) -> Result<Text, ScriptFault>
    ensures { Answers result (given text_of_span (option_copied default.entry) node.now name.now) }
{
    if let Some(member) = node.may(alloc, name)? {
        return span_text(alloc, &member);
    }
    default_text(alloc, node, name, default)
}

// The text of the span that a value says.
fn span_text(alloc: Global, node: &Node<'_>) -> Result<Text, ScriptFault>
    ensures { Answers result (ok_or (text_of_span node.now.value) (WrongKind node.now.path)) }
{
    match node.text(alloc) {
        Ok(text) => Ok(text),
        Err(JsonFault::WrongKind(_)) => {
            let mut digits = Vec::new(alloc);
            put_number(&mut digits, node.whole(alloc)?)?;
            Ok(Text::of(digits))
        }
        Err(fault) => Err(ScriptFault::from(fault)),
    }
}
