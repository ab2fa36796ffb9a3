// The kinds of steps.
ghost use Rattle.std.specs.Prelude.{◌≡◌, ◌≢◌, IfErr, IfOk};
ghost use Rattle.ld_json.specs.Rules.{Accepts};
ghost use Rattle.ld_script.specs.Refusal.{RefusesForm};
ghost use Rattle.ld_script.specs.Step.{kind_named, kind_of};
ghost use Rattle.ld_script.specs.declared.fault.ScriptFault.TheVariants.{Memory};

use crate::fault::ScriptFault;
use crate::members::range_fault;
use ld_json::Node;
use std::alloc::Global;

/// A kind of step.
#[derive(Clone, Copy, PartialEq, Eq)]
pub enum Kind {
    Sleep,
    Count,
    Group,
}

impl Kind {
    // The kind of a step: the name of its one member.
    pub fn of(alloc: Global, node: &Node<'_>) -> Result<Kind, ScriptFault>
        ensures value { IfOk result (λ kind. kind ≡ kind_of node.now) }
        ensures accepted { IfOk result (λ _. Accepts (RefusesForm node.now)) }
        ensures refused { IfErr result (λ f. f ≢ Memory → RefusesForm node.now f) }
    {
        node.only(alloc, "sleep count group")?;
        let members = node.pairs(alloc)?;
        if members.len() != 1 {
            return Err(range_fault(alloc, node));
        }
        Ok(Kind::named(members[0].0.as_slice()))
    }

    // The kind of the step that a member of this name says.
    fn named(name: &[u8]) -> Kind
        ensures { result ≡ kind_named name.now }
    {
        if name == b"sleep".as_slice() {
            Kind::Sleep
        } else if name == b"count".as_slice() {
            Kind::Count
        } else {
            Kind::Group
        }
    }
}
