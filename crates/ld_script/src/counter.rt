// What steps add to counters.
ghost use Rattle.std.specs.Prelude.{◌≡◌, ◌≢◌, ◌<◌, IfErr, IfOk, OnOk, length};
ghost use Rattle.ld_json.specs.Rules.{Accepts};
ghost use Rattle.ld_script.specs.Draft.{HasNamed, HasReadOne};
ghost use Rattle.ld_script.specs.Refusal.{RefusesCounterName, RefusesKind};
ghost use Rattle.ld_script.specs.Step.{IsNumberOf};
ghost use Rattle.ld_script.specs.declared.fault.ScriptFault.TheVariants.{Memory};
ghost use Rattle.ld_script.specs.declared.kind.Kind.TheVariants.{Count};

use crate::draft::Draft;
use crate::fault::ScriptFault;
use crate::fields::number;
use crate::range::Range;
use crate::step::Step;
use ld_json::Node;
use std::alloc::Global;

/// The range of what a step adds.
const ADDITIONS: Range = Range {
    least: 0,
    most: 1_000_000,
};

// Reads a step that adds to a counter.
pub fn read_count(alloc: Global, node: &Node<'_>, draft: &mut Draft) -> Result<(), ScriptFault>
    requires { length draft.old.steps < draft.old.known.count }
    ensures read { OnOk result (HasReadOne Count draft.old draft.new node.now) }
    ensures refused { IfErr result (λ f. f ≢ Memory → RefusesKind Count draft.old.known.names 0 node.now f) }
{
    let counter = node.need(alloc, "count")?;
    counter.only(alloc, "name add")?;
    let name = read_name(alloc, &counter, draft)?;
    let add = number(alloc, &counter, "add", Some(1), ADDITIONS)?;
    draft.push(Step::Count { name, add })
}

// The number of a counter's name.
fn read_name(alloc: Global, counter: &Node<'_>, draft: &mut Draft) -> Result<u16, ScriptFault>
    ensures number { IfOk result (IsNumberOf draft.new.known.names.texts counter.now) }
    ensures named { OnOk result (HasNamed draft.old draft.new counter.now) }
    ensures accepted { OnOk result (Accepts (RefusesCounterName draft.old.known.names counter.now)) }
    ensures refused { IfErr result (λ f. f ≢ Memory → RefusesCounterName draft.old.known.names counter.now f) }
{
    let member = counter.need(alloc, "name")?;
    let name = member.str(alloc)?;
    if !draft.may_count(name) {
        return Err(ScriptFault::Range(counter.path_of(alloc, "name")?));
    }
    draft.note(alloc, name)
}
