ghost use Rattle.std.specs.Prelude.{◌≡◌, ◌<◌, ◌≢◌, ◌+◌, ◌++◌, ◌∷◌, [], IfErr, IfOk, OnOk};

use crate::fault::ScriptFault;
use crate::members::range_fault;
use crate::name::is_counter_name;
use crate::names::Names;
use crate::script::Script;
use crate::step::Step;
use ld_base::NameSpec;
use ld_json::Node;
use std::alloc::Global;
use std::marker::Model;
use std::mem::replace;

/// The most steps of a script, with groups and the steps in them.
const MOST_STEPS: u32 = 200;

/// What is read of scripts so far: the steps of one script, how many they are with groups, and the
/// names that these and the steps of the scripts before it use.
#[derive(Drop)]
pub struct Draft {
    steps: Vec<Step>,
    count: u32,
    names: Names,
}

impl Model for Draft {
    ghost use Rattle.ld_script.specs.Draft.{DraftView, IsDraft};

    ghost Value = { DraftView };

    ghost view = { λ d. record { steps = d.steps.items; known = record { count = d.count; names = d.names } } };

    ghost invariant = { λ d. IsDraft (record { steps = d.steps.items; known = record { count = d.count; names = d.names } }) };
}

impl Draft {
    ghost use Rattle.std.specs.Prelude.{◌↔◌, IsTrue, Some, length, slice_get};
    ghost use Rattle.ld_json.specs.Rules.{Accepts};
    ghost use Rattle.ld_script.specs.Draft.{IsDraft};
    ghost use Rattle.ld_script.specs.Name.{Lacks};
    ghost use Rattle.ld_script.specs.Names.{most_names, no_names, noted};
    ghost use Rattle.ld_script.specs.Refusal.{IsBehind, MayCount, before_script};
    ghost use Rattle.ld_script.specs.Step.{counter_spec, most_steps, sample_count};
    ghost use Rattle.ld_script.specs.declared.fault.ScriptFault.{ScriptFault};

    // Nothing is read. Takes no memory.
    pub fn new(alloc: Global) -> Draft
        ensures { result ≡ record { steps = []; known = before_script no_names } }
    {
        Draft {
            steps: Vec::new(alloc),
            count: 0,
            names: Names::new(alloc),
        }
    }

    // Counts a step, where there may be one more.
    pub fn count(&mut self, alloc: Global, node: &Node<'_>) -> Result<(), ScriptFault>
        ensures counted { OnOk result (self.new ≡ record { steps = self.old.steps; known = record { count = self.old.known.count + 1; names = self.old.known.names } }) }
        ensures room { OnOk result (length self.old.steps < self.new.known.count) }
        ensures accepted { OnOk result (Accepts (IsBehind self.old.known.count node.now)) }
        ensures refused { IfErr result (λ f. f ≢ ScriptFault.Memory → IsBehind self.old.known.count node.now f) }
    {
        if self.count >= MOST_STEPS {
            return Err(range_fault(alloc, node));
        }
        self.count += 1;
        Ok(())
    }

    // Puts a step behind the others, which was counted.
    pub fn push(&mut self, step: Step) -> Result<(), ScriptFault>
        requires { length self.old.steps < self.old.known.count }
        ensures pushed { OnOk result (self.new ≡ record { steps = self.old.steps ++ step ∷ []; known = self.old.known }) }
        ensures memory { IfErr result (λ f. f ≡ ScriptFault.Memory) }
    {
        let Ok(()) = self.steps.push(step) else {
            return Err(ScriptFault::Memory);
        };
        Ok(())
    }

    // Whether a counter may have this name, which has room where it is new.
    pub fn may_count(&self, name: &str) -> bool
        ensures { IsTrue result ↔ MayCount self.now.known.names name.now }
    {
        is_counter_name(name) && self.names.has_room(name)
    }

    // The number of a counter's name, which goes to the end of the names where it is new.
    pub fn note(&mut self, alloc: Global, name: &str) -> Result<u16, ScriptFault>
        requires { Lacks self.old.known.names.texts name.now → length self.old.known.names.texts < most_names }
        ensures number { IfOk result (λ at. slice_get self.new.known.names.texts at ≡ Some name.now) }
        ensures steps { OnOk result (self.new.steps ≡ self.old.steps) }
        ensures count { OnOk result (self.new.known.count ≡ self.old.known.count) }
        ensures names { OnOk result (self.new.known.names ≡ noted self.old.known.names name.now counter_spec) }
        ensures memory { IfErr result (λ f. f ≡ ScriptFault.Memory) }
    {
        let spec = NameSpec {
            counter: true,
            checks: 0,
        };
        self.names.note(alloc, name, spec)
    }

    // Begins a script, behind the names of those that were read.
    pub fn begin(&mut self, alloc: Global)
        ensures { self.new ≡ record { steps = []; known = before_script self.old.known.names } }
    {
        self.steps = Vec::new(alloc);
        self.count = 0;
    }

    // The script of the steps that were read, of which none is left.
    pub fn end(&mut self, alloc: Global) -> Script
        ensures script { result ≡ record { steps = self.old.steps; room = sample_count self.old.steps } }
        ensures names { self.new.known.names ≡ self.old.known.names }
    {
        let steps = replace(&mut self.steps, Vec::new(alloc));
        Script::of(steps)
    }

    // The names that the steps of all scripts use.
    pub fn into_names(self) -> Names
        ensures { result ≡ self.known.names }
    {
        let Draft {
            steps: _,
            count: _,
            names,
        } = self;
        names
    }
}
