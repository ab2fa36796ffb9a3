// Documents of tests.
ghost use Rattle.std.specs.Prelude.{◌≡◌, ◌≢◌, ◌<◌, All, IfErr, IfOk, Ok, Err, OnOk, codes, length};
ghost use Rattle.std.specs.List.{AllZip};
ghost use Rattle.ld_json.specs.Node.{paired};
ghost use Rattle.ld_json.specs.Rules.{Accepts, FirstOf};
ghost use Rattle.ld_options.specs.Document.{AreOptionsOf, RefusesDocument, RefusesOptions, RefusesRoot, counted as count_of, inside, object_of, options_in, scripts_in};
ghost use Rattle.ld_options.specs.Faults.{of_node};
ghost use Rattle.ld_options.specs.Ranges.{AreInRange, IsWithin, most_scenarios};
ghost use Rattle.ld_options.specs.Scenarios.{IsScenarioOf, RefusesScenario};
ghost use Rattle.ld_options.specs.declared.fault.OptionsFault.TheVariants.{Memory};
ghost use Rattle.ld_script.specs.Refusal.{members_of};

use crate::fault::OptionsFault;
use crate::fields::ranged;
use crate::member::scenario;
use crate::options::Options;
use crate::scenario::Scenario;
use crate::scenarios::Scenarios;
use ld_base::Text;
use ld_json::Node;
use ld_script::{Range, Scripts};
use std::alloc::Global;

/// How many scripts there may be.
const SCRIPT_COUNTS: Range = Range {
    least: 0,
    most: 100,
};

/// How many scenarios there may be.
const SCENARIO_COUNTS: Range = Range { least: 1, most: 20 };

// How many members the object has that the value is.
fn members_in(alloc: Global, node: &Node<'_>) -> Result<u64, OptionsFault>
    ensures value { IfOk result (λ n. n ≡ length (members_of node.now)) }
    ensures object { OnOk result (paired node.now ≡ Ok (members_of node.now)) }
    ensures refused { IfErr result (λ f. f ≢ Memory → of_node (paired node.now) ≡ Err f) }
{
    let members = node.pairs(alloc)?;
    Ok(members.len() as u64)
}

// The object that the member of this name is.
fn object<'n>(alloc: Global, node: &'n Node<'_>, name: &str) -> Result<Node<'n>, OptionsFault>
    ensures value { IfOk result (λ member. member ≡ inside node.now name.now) }
    ensures object { OnOk result (object_of node.now name.now ≡ Ok (members_of (inside node.now name.now))) }
    ensures paired { OnOk result (paired (inside node.now name.now) ≡ Ok (members_of (inside node.now name.now))) }
    ensures refused { IfErr result (λ f. f ≢ Memory → object_of node.now name.now ≡ Err f) }
{
    let member = node.need(alloc, name)?;
    members_in(alloc, &member)?;
    Ok(member)
}

// The object that the member of this name is, with a number of members in this range.
fn counted<'n>(
    alloc: Global,
    node: &'n Node<'_>,
    name: &str,
    range: Range,
) -> Result<Node<'n>, OptionsFault>
    ensures value { IfOk result (λ member. member ≡ inside node.now name.now) }
    ensures counted { OnOk result (count_of range node.now name.now ≡ Ok (length (members_of (inside node.now name.now)))) }
    ensures paired { OnOk result (paired (inside node.now name.now) ≡ Ok (members_of (inside node.now name.now))) }
    ensures within { OnOk result (IsWithin range.least range.most (length (members_of (inside node.now name.now)))) }
    ensures refused { IfErr result (λ f. f ≢ Memory → count_of range node.now name.now ≡ Err f) }
{
    let member = object(alloc, node, name)?;
    let count = members_in(alloc, &member)?;
    ranged(alloc, node, name, range, count)?;
    Ok(member)
}

// The objects of options and of scripts.
fn root_objects<'n>(alloc: Global, root: &'n Node<'_>) -> Result<(Node<'n>, Node<'n>), OptionsFault>
    ensures value { IfOk result (λ nodes. nodes ≡ (options_in root.now, scripts_in root.now)) }
    ensures accepted { OnOk result (Accepts (RefusesRoot root.now)) }
    ensures refused { IfErr result (λ f. f ≢ Memory → RefusesRoot root.now f) }
{
    root.only(alloc, "options scripts")?;
    let options = object(alloc, root, "options")?;
    let scripts = counted(alloc, root, "scripts", SCRIPT_COUNTS)?;
    Ok((options, scripts))
}

// The object of scenarios, which stands in the options.
fn scenario_object<'n>(alloc: Global, options: &'n Node<'_>) -> Result<Node<'n>, OptionsFault>
    ensures value { IfOk result (λ node. node ≡ inside options.now (codes "scenarios")) }
    ensures paired { IfOk result (λ node. paired node ≡ Ok (members_of node)) }
    ensures counted { IfOk result (λ node. IsWithin 1 most_scenarios (length (members_of node))) }
    ensures accepted { OnOk result (Accepts (RefusesOptions options.now)) }
    ensures refused { IfErr result (λ f. f ≢ Memory → RefusesOptions options.now f) }
{
    options.only(alloc, "scenarios")?;
    counted(alloc, options, "scenarios", SCENARIO_COUNTS)
}

// The scenarios that members say.
fn scenarios(
    alloc: Global,
    members: &[(Text, Node<'_>)],
    scripts: &Scripts,
) -> Result<Vec<Scenario>, OptionsFault>
    ensures value { IfOk result (λ list. AllZip (IsScenarioOf scripts.now.names) members.now list.items) }
    ensures within { IfOk result (λ list. AreInRange list.items) }
    ensures known { IfOk result (λ list. All (λ s. s.script < length scripts.now.names) list.items) }
    ensures accepted { OnOk result (Accepts (FirstOf (RefusesScenario scripts.now.names) members.now)) }
    ensures refused { IfErr result (λ f. f ≢ Memory → FirstOf (RefusesScenario scripts.now.names) members.now f) }
{
    let mut list = Vec::new(alloc);
    for (name, node) in members {
        let scenario = scenario(alloc, name, node, scripts)?;
        let Ok(()) = list.push(scenario) else {
            return Err(OptionsFault::Memory);
        };
    }
    Ok(list)
}

// The scenarios that the members of an object say.
fn read_scenarios(
    alloc: Global,
    node: &Node<'_>,
    scripts: &Scripts,
) -> Result<Scenarios, OptionsFault>
    requires { paired node.now ≡ Ok (members_of node.now) }
    ensures value { IfOk result (λ list. AllZip (IsScenarioOf scripts.now.names) (members_of node.now) list) }
    ensures within { IfOk result (λ list. AreInRange list) }
    ensures known { IfOk result (λ list. All (λ s. s.script < length scripts.now.names) list) }
    ensures accepted { OnOk result (Accepts (FirstOf (RefusesScenario scripts.now.names) (members_of node.now))) }
    ensures refused { IfErr result (λ f. f ≢ Memory → FirstOf (RefusesScenario scripts.now.names) (members_of node.now) f) }
{
    let members = node.pairs(alloc)?;
    let list = scenarios(alloc, members.as_slice(), scripts)?;
    Ok(Scenarios::of(list))
}

// The options that a document says.
pub(crate) fn read_root(alloc: Global, root: &Node<'_>) -> Result<Options, OptionsFault>
    ensures value { IfOk result (AreOptionsOf root.now) }
    ensures within { IfOk result (λ options. AreInRange options.scenarios) }
    ensures accepted { OnOk result (Accepts (RefusesDocument root.now)) }
    ensures refused { IfErr result (λ f. f ≢ Memory → RefusesDocument root.now f) }
{
    let (options, scripts) = root_objects(alloc, root)?;
    let node = scenario_object(alloc, &options)?;
    let scripts = Scripts::read(alloc, &scripts)?;
    let scenarios = read_scenarios(alloc, &node, &scripts)?;
    Ok(Options { scenarios, scripts })
}
