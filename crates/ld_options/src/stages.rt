// Stages of ramps.
ghost use Rattle.std.specs.Prelude.{◌≡◌, ◌≢◌, ◌≤◌, All, Err, IfErr, IfOk, Ok, OnOk, length, sum_by};
ghost use Rattle.std.specs.List.{AllZip};
ghost use Rattle.ld_json.specs.Rules.{Accepts, FirstOf};
ghost use Rattle.ld_options.specs.Ranges.{AreStagesInRange, IsWithin, most_stages};
ghost use Rattle.ld_options.specs.Stages.{AreStagesOf, IsStageOf, RefusesStage, RefusesStages, few_stages, stages_path};
ghost use Rattle.ld_options.specs.declared.fault.OptionsFault.TheVariants.{Memory};

use crate::fault::OptionsFault;
use crate::fields::number;
use crate::times::{DURATIONS, time};
use ld_base::{Stage, Stages};
use ld_json::Node;
use ld_script::Range;
use std::alloc::Global;

/// How many stages there may be.
const MOST_STAGES: usize = 100;

/// The range of a stage's duration, which has none of its own.
const LENGTHS: Range = Range {
    least: 0,
    most: u64::MAX,
};

// The stages of a scenario, with targets of at most `greatest`.
pub(crate) fn stages(alloc: Global, node: &Node<'_>, greatest: u64) -> Result<Stages, OptionsFault>
    ensures value { IfOk result (AreStagesOf greatest node.now) }
    ensures within { IfOk result (AreStagesInRange greatest) }
    ensures accepted { IfOk result (λ _. Accepts (RefusesStages greatest node.now)) }
    ensures refused { IfErr result (λ f. f ≢ Memory → RefusesStages greatest node.now f) }
{
    let list = node.need(alloc, "stages")?;
    let nodes = list.list(alloc)?;
    check_count(alloc, node, &nodes)?;
    let stages = listed(alloc, &nodes, greatest)?;
    if length_of(&stages) > u128::from(DURATIONS.most) {
        return Err(OptionsFault::Range(node.path_of(alloc, "stages")?));
    }
    Ok(Stages::of(stages))
}

// Refuses no stages, and too many.
fn check_count(alloc: Global, node: &Node<'_>, nodes: &[Node<'_>]) -> Result<(), OptionsFault>
    ensures answer { OnOk result (few_stages (stages_path node.now) nodes.now ≡ Ok nodes.now) }
    ensures within { OnOk result (IsWithin 1 most_stages (length nodes.now)) }
    ensures refused { IfErr result (λ f. f ≢ Memory → few_stages (stages_path node.now) nodes.now ≡ Err f) }
{
    if nodes.len() == 0 {
        return Err(OptionsFault::NoStages(node.path_of(alloc, "stages")?));
    }
    if nodes.len() > MOST_STAGES {
        return Err(OptionsFault::Range(node.path_of(alloc, "stages")?));
    }
    Ok(())
}

// The stages that elements say.
fn listed(alloc: Global, nodes: &[Node<'_>], greatest: u64) -> Result<Vec<Stage>, OptionsFault>
    ensures value { IfOk result (λ list. AllZip (IsStageOf greatest) nodes.now list.items) }
    ensures within { IfOk result (λ list. All (λ stage. stage.target ≤ greatest) list.items) }
    ensures accepted { OnOk result (Accepts (FirstOf (RefusesStage greatest) nodes.now)) }
    ensures refused { IfErr result (λ f. f ≢ Memory → FirstOf (RefusesStage greatest) nodes.now f) }
{
    let mut list = Vec::new(alloc);
    for node in nodes {
        let stage = stage(alloc, node, greatest)?;
        let Ok(()) = list.push(stage) else {
            return Err(OptionsFault::Memory);
        };
    }
    Ok(list)
}

// The stage that an element says.
fn stage(alloc: Global, node: &Node<'_>, greatest: u64) -> Result<Stage, OptionsFault>
    ensures value { IfOk result (IsStageOf greatest node.now) }
    ensures within { IfOk result (λ stage. stage.target ≤ greatest) }
    ensures accepted { IfOk result (λ _. Accepts (RefusesStage greatest node.now)) }
    ensures refused { IfErr result (λ f. f ≢ Memory → RefusesStage greatest node.now f) }
{
    node.only(alloc, "duration target")?;
    let length = time(alloc, node, "duration", None, LENGTHS)?;
    let targets = Range {
        least: 0,
        most: greatest,
    };
    let target = number(alloc, node, "target", None, targets)?;
    Ok(Stage { target, length })
}

// How long stages last together.
fn length_of(stages: &[Stage]) -> u128
    requires { length stages.now ≤ most_stages }
    ensures { result ≡ sum_by (λ stage. stage.length) stages.now }
{
    let mut sum = 0;
    for stage in stages {
        sum += u128::from(stage.length);
    }
    sum
}
