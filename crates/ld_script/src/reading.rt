// What the steps of scripts say.
ghost use Rattle.std.specs.Prelude.{◌≡◌, ◌≢◌, ◌<◌, IfErr, IfOk, OnOk, codes, length};
ghost use Rattle.ld_json.specs.Rules.{Accepts, Then};
ghost use Rattle.ld_script.specs.Along.{FirstAlong};
ghost use Rattle.ld_script.specs.Draft.{HasRead, HasReadOne};
ghost use Rattle.ld_script.specs.Fault.{Refused};
ghost use Rattle.ld_script.specs.Fields.{text_given};
ghost use Rattle.ld_script.specs.Name.{IsName};
ghost use Rattle.ld_script.specs.Refusal.{RefusesGroup, RefusesKind, RefusesScript, RefusesStep, names_after};
ghost use Rattle.ld_script.specs.Scripts.{IsScriptOf};
ghost use Rattle.ld_script.specs.Step.{all_laid, kind_of, known_after, laid, laid_in};
ghost use Rattle.ld_script.specs.declared.fault.ScriptFault.TheVariants.{BadName, Memory};
ghost use Rattle.ld_script.specs.declared.kind.Kind.TheVariants as kinds;

use crate::counter::read_count;
use crate::draft::Draft;
use crate::fault::ScriptFault;
use crate::kind::Kind;
use crate::members::range_fault;
use crate::name::is_name;
use crate::script::Script;
use crate::step::Step;
use crate::times::{SPANS, time};
use ld_base::Text;
use ld_json::Node;
use std::alloc::Global;

/// How many groups may stand in one another.
const MOST_GROUPS: u8 = 8;

// The script that a member of the object of scripts says.
pub fn read_script(
    alloc: Global,
    name: &Text,
    node: &Node<'_>,
    draft: &mut Draft,
) -> Result<Script, ScriptFault>
    ensures value { IfOk result (IsScriptOf draft.new.known.names.texts (name.now, node.now)) }
    ensures names { OnOk result (draft.new.known.names ≡ names_after draft.old.known.names (name.now, node.now)) }
    ensures named { OnOk result (IsName name.now) }
    ensures accepted { OnOk result (Accepts (RefusesScript draft.old.known.names (name.now, node.now))) }
    ensures refused { IfErr result (λ f. f ≢ Memory → RefusesScript draft.old.known.names (name.now, node.now) f) }
{
    if !is_name(name.as_slice()) {
        return Err(name_fault(alloc, node));
    }
    draft.begin(alloc);
    let nodes = node.list(alloc)?;
    read_steps(alloc, MOST_GROUPS, &nodes, draft)?;
    Ok(draft.end(alloc))
}

// The fault of a script whose name is none, or that memory is missing.
fn name_fault(alloc: Global, node: &Node<'_>) -> ScriptFault
    ensures { result ≢ Memory → result ≡ BadName node.now.path }
{
    match node.path(alloc) {
        Ok(path) => ScriptFault::BadName(path),
        Err(_) => ScriptFault::Memory,
    }
}

// Reads steps, and those in their groups, where there is room for so many groups in one another.
#[cycle(laid)]
fn read_steps(
    alloc: Global,
    room: u8,
    nodes: &[Node<'_>],
    draft: &mut Draft,
) -> Result<(), ScriptFault>
    ensures read { OnOk result (HasRead draft.old draft.new (all_laid room nodes.now)) }
    ensures refused { IfErr result (λ f. f ≢ Memory → FirstAlong RefusesStep known_after draft.old.known (all_laid room nodes.now) f) }
{
    for node in nodes {
        read_step(alloc, room, node, draft)?;
    }
    Ok(())
}

// Reads a step, and those in it.
#[cycle(laid)]
fn read_step(alloc: Global, room: u8, node: &Node<'_>, draft: &mut Draft) -> Result<(), ScriptFault>
    ensures read { OnOk result (HasRead draft.old draft.new (laid room node.now)) }
    ensures refused { IfErr result (λ f. f ≢ Memory → FirstAlong RefusesStep known_after draft.old.known (laid room node.now) f) }
{
    draft.count(alloc, node)?;
    match Kind::of(alloc, node)? {
        Kind::Sleep => read_sleep(alloc, node, draft),
        Kind::Count => read_count(alloc, node, draft),
        Kind::Group => read_group(alloc, room, node, draft),
    }
}

// Reads a step that waits.
fn read_sleep(alloc: Global, node: &Node<'_>, draft: &mut Draft) -> Result<(), ScriptFault>
    requires { length draft.old.steps < draft.old.known.count }
    ensures read { OnOk result (HasReadOne kinds.Sleep draft.old draft.new node.now) }
    ensures refused { IfErr result (λ f. f ≢ Memory → RefusesKind kinds.Sleep draft.old.known.names 0 node.now f) }
{
    let length = time(alloc, node, "sleep", None, SPANS)?;
    draft.push(Step::Sleep(length))
}

// Reads the steps of a group.
#[cycle(laid)]
fn read_group(
    alloc: Global,
    room: u8,
    node: &Node<'_>,
    draft: &mut Draft,
) -> Result<(), ScriptFault>
    requires { kind_of node.now ≡ kinds.Group }
    ensures accepted { OnOk result (Accepts (RefusesGroup room node.now)) }
    ensures read { OnOk result (HasRead draft.old draft.new (laid_in room node.now)) }
    ensures refused { IfErr result (λ f. f ≢ Memory
        → Then (RefusesGroup room node.now) (FirstAlong RefusesStep known_after draft.old.known (laid_in room node.now)) f) }
{
    if room == 0 {
        return Err(range_fault(alloc, node));
    }
    let group = node.need(alloc, "group")?;
    group.only(alloc, "name steps")?;
    check_name(alloc, &group)?;
    let list = group.need(alloc, "steps")?;
    let nodes = list.list(alloc)?;
    read_steps(alloc, room - 1, &nodes, draft)
}

// Whether a group has a name.
fn check_name(alloc: Global, group: &Node<'_>) -> Result<(), ScriptFault>
    ensures accepted { OnOk result (Accepts (Refused (text_given group.now (codes "name")))) }
    ensures refused { IfErr result (λ f. f ≢ Memory → Refused (text_given group.now (codes "name")) f) }
{
    let name = group.need(alloc, "name")?;
    name.str(alloc)?;
    Ok(())
}
