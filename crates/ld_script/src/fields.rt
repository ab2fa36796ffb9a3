// The fields of an object.
ghost use Rattle.std.specs.Prelude.{◌≡◌, ◌≢◌, IfErr, IfOk, None, option_copied};
ghost use Rattle.ld_json.specs.Node.{as_whole};
ghost use Rattle.ld_json.specs.Pointer.{member_path};
ghost use Rattle.ld_script.specs.Fault.{Answers};
ghost use Rattle.ld_script.specs.Fields.{given, held, number as number_of, ranged};
ghost use Rattle.ld_script.specs.Ranges.{IsWithin};
ghost use Rattle.ld_script.specs.declared.fault.ScriptFault.TheVariants as faults;
ghost use Rattle.ld_script.specs.declared.fault.ScriptFault.TheVariants.{Memory};
ghost use Rattle.serde_json.specs.Find.{as_str};

use crate::fault::ScriptFault;
use crate::range::Range;
use ld_base::Text;
use ld_json::Node;
use std::alloc::Global;

// The whole number of the field of this name, in its range. Without a default it is needed.
pub fn number(
    alloc: Global,
    node: &Node<'_>,
    name: &str,
    default: Option<u64>,
    range: Range,
) -> Result<u64, ScriptFault>
    ensures answer { Answers result (number_of range default node.now name.now) }
    ensures within { IfOk result (λ n. IsWithin range.least range.most n) }
{
    let number = whole_given(alloc, node, name, default)?;
    ranged(alloc, node, name, range, number)
}

// The whole number of the field of this name.
pub fn whole_given(
    alloc: Global,
    node: &Node<'_>,
    name: &str,
    default: Option<u64>,
) -> Result<u64, ScriptFault>
    ensures { Answers result (given as_whole default node.now name.now) }
{
    if let Some(member) = node.may(alloc, name)? {
        return Ok(member.whole(alloc)?);
    }
    match default {
        Some(number) => Ok(number),
        None => Err(ScriptFault::Missing(node.path_of(alloc, name)?)),
    }
}

// The number of the field of this name, where it is in its range.
pub fn ranged(
    alloc: Global,
    node: &Node<'_>,
    name: &str,
    range: Range,
    number: u64,
) -> Result<u64, ScriptFault>
    ensures answer { Answers result (ranged range (member_path node.now.path name.now) number) }
    ensures within { IfOk result (λ n. (n ≡ number) × IsWithin range.least range.most number) }
    ensures outside { IfErr result (λ f. f ≢ Memory → (IsWithin range.least range.most number → ⊥) × (f ≡ faults.Range (member_path node.now.path name.now))) }
{
    if number < range.least || number > range.most {
        return Err(ScriptFault::Range(node.path_of(alloc, name)?));
    }
    Ok(number)
}

// The text of the field of this name.
pub fn text_given(
    alloc: Global,
    node: &Node<'_>,
    name: &str,
    default: Option<&str>,
) -> Result<Text, ScriptFault>
    ensures { Answers result (given as_str (option_copied default.entry) node.now name.now) }
{
    if let Some(member) = node.may(alloc, name)? {
        return Ok(member.text(alloc)?);
    }
    default_text(alloc, node, name, default)
}

// The text that stands for the field of this name where it isn't there.
pub fn default_text(
    alloc: Global,
    node: &Node<'_>,
    name: &str,
    default: Option<&str>,
) -> Result<Text, ScriptFault>
    ensures { Answers result (held as_str (option_copied default.entry) (member_path node.now.path name.now) None) }
{
    match default {
        Some(text) => Ok(Text::of(Vec::from_slice(alloc, text.as_bytes())?)),
        None => Err(ScriptFault::Missing(node.path_of(alloc, name)?)),
    }
}
