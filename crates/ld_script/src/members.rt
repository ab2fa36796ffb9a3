// The members of the object that holds the scripts.
ghost use Rattle.std.specs.Prelude.{◌≡◌, ◌≢◌, ◌≤◌, All, IfErr, IfOk, OnOk, length, map};
ghost use Rattle.std.specs.List.{AllZip};
ghost use Rattle.ld_json.specs.Rules.{Accepts};
ghost use Rattle.ld_script.specs.Along.{FirstAlong, after};
ghost use Rattle.ld_script.specs.Members.{members_of, name_of};
ghost use Rattle.ld_script.specs.Name.{IsName};
ghost use Rattle.ld_script.specs.Names.{no_names};
ghost use Rattle.ld_script.specs.Refusal.{RefusesScript, RefusesTable, names_after};
ghost use Rattle.ld_script.specs.Scripts.{IsScriptOf};
ghost use Rattle.ld_script.specs.ScriptsView.{AreOrdered, most_scripts};
ghost use Rattle.ld_script.specs.declared.fault.ScriptFault.{ScriptFault};

use crate::draft::Draft;
use crate::fault::ScriptFault;
use crate::reading::read_script;
use crate::script::Script;
use ld_base::Text;
use ld_json::Node;
use std::alloc::{AllocError, Global};

/// The greatest number of scripts.
const MOST_SCRIPTS: usize = 100;

// The members, in byte order of their names.
pub fn members_of<'a>(
    alloc: Global,
    node: &'a Node<'_>,
) -> Result<Vec<(Text, Node<'a>)>, ScriptFault>
    ensures value { IfOk result (λ members. members.items ≡ members_of node.now) }
    ensures ordered { IfOk result (λ members. AreOrdered (map name_of members.items)) }
    ensures few { IfOk result (λ members. length members.items ≤ most_scripts) }
    ensures accepted { IfOk result (λ _. Accepts (RefusesTable node.now)) }
    ensures refused { IfErr result (λ f. f ≢ ScriptFault.Memory → RefusesTable node.now f) }
{
    let members = node.pairs(alloc)?;
    if members.len() > MOST_SCRIPTS {
        return Err(range_fault(alloc, node));
    }
    Ok(members)
}

// The script of each member. The first of them that is refused decides.
pub fn read_each(
    alloc: Global,
    members: &[(Text, Node<'_>)],
    draft: &mut Draft,
) -> Result<Vec<Script>, ScriptFault>
    requires { draft.old.known.names ≡ no_names }
    ensures value { IfOk result (λ scripts. AllZip (IsScriptOf draft.new.known.names.texts) members.now scripts.items) }
    ensures names { OnOk result (draft.new.known.names ≡ after names_after no_names members.now) }
    ensures named { IfOk result (λ _. All IsName (map name_of members.now)) }
    ensures accepted { IfOk result (λ _. Accepts (FirstAlong RefusesScript names_after no_names members.now)) }
    ensures refused { IfErr result (λ f. f ≢ ScriptFault.Memory
        → FirstAlong RefusesScript names_after no_names members.now f) }
{
    let mut scripts = Vec::new(alloc);
    for (name, node) in members {
        let script = read_script(alloc, name, node, draft)?;
        let Ok(()) = scripts.push(script) else {
            return Err(ScriptFault::Memory);
        };
    }
    Ok(scripts)
}

// The names of members.
pub fn names_of(alloc: Global, members: Vec<(Text, Node<'_>)>) -> Result<Vec<Text>, AllocError>
    ensures { IfOk result (λ names. names.items ≡ map name_of members.entry.items) }
{
    let mut names = Vec::new(alloc);
    for (name, _) in members {
        let Ok(()) = names.push(name) else {
            return Err(AllocError);
        };
    }
    Ok(names)
}

// The fault of a value that is out of its range, or that memory is missing.
pub fn range_fault(alloc: Global, node: &Node<'_>) -> ScriptFault
    ensures { result ≢ ScriptFault.Memory → result ≡ ScriptFault.Range node.now.path }
{
    match node.path(alloc) {
        Ok(path) => ScriptFault::Range(path),
        Err(_) => ScriptFault::Memory,
    }
}
