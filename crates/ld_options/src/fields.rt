// The fields of an object, as scripts have them.
ghost use Rattle.std.specs.Prelude.{◌≡◌, ◌≢◌, IfErr, IfOk, option_copied};
ghost use Rattle.ld_json.specs.Node.{as_whole};
ghost use Rattle.ld_json.specs.Pointer.{member_path};
ghost use Rattle.ld_options.specs.Faults.{Answers};
ghost use Rattle.ld_options.specs.Fields.{given, number as number_of, ranged};
ghost use Rattle.ld_options.specs.Ranges.{IsWithin};
ghost use Rattle.ld_options.specs.declared.fault.OptionsFault.TheVariants as faults;
ghost use Rattle.ld_options.specs.declared.fault.OptionsFault.TheVariants.{Memory};
ghost use Rattle.serde_json.specs.Find.{as_str};

use crate::fault::OptionsFault;
use ld_base::Text;
use ld_json::Node;
use ld_script::Range;
use std::alloc::Global;

// The whole number of the field of this name, in its range. Without a default it is needed.
pub(crate) fn number(
    alloc: Global,
    node: &Node<'_>,
    name: &str,
    default: Option<u64>,
    range: Range,
) -> Result<u64, OptionsFault>
    ensures answer { Answers result (number_of range default node.now name.now) }
    ensures within { IfOk result (λ n. IsWithin range.least range.most n) }
{
    Ok(ld_script::number(alloc, node, name, default, range)?)
}

// The whole number of the field of this name.
pub(crate) fn whole_given(
    alloc: Global,
    node: &Node<'_>,
    name: &str,
    default: Option<u64>,
) -> Result<u64, OptionsFault>
    ensures { Answers result (given as_whole default node.now name.now) }
{
    Ok(ld_script::whole_given(alloc, node, name, default)?)
}

// The number of the field of this name, where it is in its range.
pub(crate) fn ranged(
    alloc: Global,
    node: &Node<'_>,
    name: &str,
    range: Range,
    number: u64,
) -> Result<u64, OptionsFault>
    ensures answer { Answers result (ranged range (member_path node.now.path name.now) number) }
    ensures within { IfOk result (λ n. (n ≡ number) × IsWithin range.least range.most number) }
    ensures outside { IfErr result (λ f. f ≢ Memory → (IsWithin range.least range.most number → ⊥) × (f ≡ faults.Range (member_path node.now.path name.now))) }
{
    Ok(ld_script::ranged(alloc, node, name, range, number)?)
}

// The text of the field of this name.
pub(crate) fn text_given(
    alloc: Global,
    node: &Node<'_>,
    name: &str,
    default: Option<&str>,
) -> Result<Text, OptionsFault>
    ensures { Answers result (given as_str (option_copied default.entry) node.now name.now) }
{
    Ok(ld_script::text_given(alloc, node, name, default)?)
}
