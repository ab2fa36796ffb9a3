ghost use Rattle.std.specs.Prelude.{◌≡◌, IfOk};

use crate::draft::Draft;
use crate::fault::ScriptFault;
use crate::members::{members_of, names_of, read_each};
use crate::names::Names;
use crate::script::Script;
use ld_base::Text;
use ld_json::Node;
use std::alloc::{AllocError, Global};
use std::marker::Model;

/// The scripts of a test, in byte order of their names. They are numbered from 0. There are at most
/// 100.
#[derive(Drop)]
pub struct Scripts {
    names: Vec<Text>,
    scripts: Vec<Script>,
    used: Names,
}

impl Model for Scripts {
    ghost use Rattle.ld_script.specs.ScriptsView.{AreScripts, ScriptsView};

    ghost Value = { ScriptsView };

    ghost view = { λ s. record { names = s.names.items; scripts = s.scripts.items; texts = s.used.texts; specs = s.used.specs } };

    ghost invariant = { λ s. AreScripts s.names.items s.scripts.items };
}

impl Scripts {
    ghost use Rattle.std.specs.Prelude.{◌≡◌, ◌≢◌, ◌<◌, Some, IfErr, IfOk, MatchOption, length, slice_get};
    ghost use Rattle.ld_json.specs.Rules.{Accepts};
    ghost use Rattle.ld_script.specs.Name.{Lacks};
    ghost use Rattle.ld_script.specs.Refusal.{RefusesScripts};
    ghost use Rattle.ld_script.specs.Scripts.{AreScriptsOf};
    ghost use Rattle.ld_script.specs.ScriptsView.{AreScripts};
    ghost use Rattle.ld_script.specs.declared.fault.ScriptFault.{ScriptFault};

    /// Reads the scripts that stand in the value at `scripts`: each member is one, under its name.
    ///
    /// Refused are, in this order, a value that is no object, as `WrongKind`, and an object of more
    /// than 100 members, as `Range`, each at the value's path. Then the first script is refused, in
    /// byte order of names, whose name is none, as `BadName`, or else whose value is no list, as
    /// `WrongKind`, each at the script's path, or else of which a step is refused, in order.
    ///
    /// A step behind the 200th is refused as `Range`, and so is one that is no object of one member,
    /// `sleep`, `count` or `group`, that stands in more than eight groups as a group, or that counts
    /// under a name that it may not have or that would be the 1,001st. What a step says is refused at
    /// its path: as `Missing`, `WrongKind`, `Unknown` or `Range`, and a span of time as `Number`. The
    /// only other error is want of memory.
    pub fn read(alloc: Global, node: &Node<'_>) -> Result<Scripts, ScriptFault>
        ensures value { IfOk result (AreScriptsOf node.now) }
        ensures scripts { IfOk result (λ s. AreScripts s.names s.scripts) }
        ensures accepted { IfOk result (λ _. Accepts (RefusesScripts node.now)) }
        ensures refused { IfErr result (λ f. f ≢ ScriptFault.Memory → RefusesScripts node.now f) }
    {
        let members = members_of(alloc, node)?;
        let mut draft = Draft::new(alloc);
        let scripts = read_each(alloc, &members, &mut draft)?;
        let names = names_of(alloc, members)?;
        Ok(Scripts {
            names,
            scripts,
            used: draft.into_names(),
        })
    }

    /// The number of the script of this name, or None exactly where there is none.
    pub fn find(&self, name: &str) -> Option<u16>
        ensures found { MatchOption result
            (Lacks self.now.names name.now)
            (λ at. slice_get self.now.names at ≡ Some name.now) }
        ensures scripts { AreScripts self.now.names self.now.scripts }
    {
        self.find_bytes(name.as_bytes())
    }

    /// The number of the script whose name has these bytes, or None exactly where there is none.
    pub fn find_bytes(&self, name: &[u8]) -> Option<u16>
        ensures found { MatchOption result
            (Lacks self.now.names name.now)
            (λ at. slice_get self.now.names at ≡ Some name.now) }
        ensures scripts { AreScripts self.now.names self.now.scripts }
    {
        for (at, text) in self.names.iter().enumerate() {
            if text.as_slice() == name {
                return Some(at as u16);
            }
        }
        None
    }

    /// How many scripts there are: at most 100.
    pub fn count(&self) -> u16
        ensures count { result ≡ length self.now.names }
        ensures scripts { AreScripts self.now.names self.now.scripts }
    {
        self.names.len() as u16
    }

    /// The script of this number.
    pub fn script(&self, at: u16) -> &Script
        requires { at < length self.now.names }
        ensures { slice_get self.now.scripts at ≡ Some result.now }
    {
        &self.scripts[at as usize]
    }

    /// The name of the script of this number.
    pub fn name(&self, at: u16) -> &Text
        requires { at < length self.now.names }
        ensures { slice_get self.now.names at ≡ Some result.now }
    {
        &self.names[at as usize]
    }

    /// The names that the steps of all scripts use.
    pub fn names(&self) -> &Names
        ensures { result.now ≡ record { texts = self.now.texts; specs = self.now.specs } }
    {
        &self.used
    }

    /// The same scripts.
    ///
    /// Fails where there is no memory for them.
    pub fn copy(&self, alloc: Global) -> Result<Scripts, ScriptFault>
        ensures value { IfOk result (λ s. s ≡ self.now) }
        ensures memory { IfErr result (λ f. f ≡ ScriptFault.Memory) }
    {
        let names = copy_texts(alloc, &self.names)?;
        let scripts = copy_scripts(alloc, &self.scripts)?;
        let used = self.used.copy(alloc)?;
        Ok(Scripts {
            names,
            scripts,
            used,
        })
    }
}

// The same texts.
fn copy_texts(alloc: Global, texts: &[Text]) -> Result<Vec<Text>, AllocError>
    ensures { IfOk result (λ copies. copies.items ≡ texts.now) }
{
    let mut copies = Vec::new(alloc);
    for text in texts {
        let bytes = Vec::from_slice(alloc, text.as_slice())?;
        let Ok(()) = copies.push(Text::of(bytes)) else {
            return Err(AllocError);
        };
    }
    Ok(copies)
}

// The same scripts.
fn copy_scripts(alloc: Global, scripts: &[Script]) -> Result<Vec<Script>, AllocError>
    ensures { IfOk result (λ copies. copies.items ≡ scripts.now) }
{
    let mut copies = Vec::new(alloc);
    for script in scripts {
        let copy = script.copy(alloc)?;
        let Ok(()) = copies.push(copy) else {
            return Err(AllocError);
        };
    }
    Ok(copies)
}
