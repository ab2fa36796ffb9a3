// Options: what documents ask for, and how they are refused.

use crate::tests::refusals::refusal;
use crate::tests::scripts::scripts_text;
use crate::tests::table::{Call, add, add_behind_comma, check, first_word, text_of};
use ld_base::{Stages, Text};
use ld_options::{Executor, Options, Scenario, Scenarios};
use std::alloc::Global;
use std::test::Fail;

// The members of a good scenario. `env` isn't there, and may not be.
const MEMBERS: &str = r#"executor "constant-arrival-rate"
startTime "1m30s"
gracefulStop 1500
exec "second"
rate 20
timeUnit "2s"
duration "1.5h"
preAllocatedVUs 4
maxVUs 5
env"#;

// Members of a good scenario that have other values or aren't there, with what the document asks for: each member,
// those alone that are needed, and the ends of the ranges.
const READ: &str =
    r#"=> main begin 90000000000 grace 1500000000 script 1 of 2 rate 20 unit 2000000000 duration 5400000000000 users 4 5
startTime, gracefulStop, exec, timeUnit, maxVUs => main begin 0 grace 30000000000 script 0 of 2 rate 20 unit 1000000000 duration 5400000000000 users 4 4
startTime "30d", gracefulStop 0, exec "default", rate 1000000, timeUnit "1d", duration 2592000000, preAllocatedVUs 1000, maxVUs 1000 => main begin 2592000000000000 grace 0 script 0 of 2 rate 1000000 unit 86400000000000 duration 2592000000000000 users 1000 1000
startTime "0s", gracefulStop 2592000000, rate 1, timeUnit "1ns", duration "1ns", preAllocatedVUs 0, maxVUs 1 => main begin 0 grace 2592000000000000 script 1 of 2 rate 1 unit 1 duration 1 users 0 1
startTime "7", gracefulStop "1h30m", timeUnit 86400000, duration 1500, maxVUs 4 => main begin 7000000 grace 5400000000000 script 1 of 2 rate 20 unit 86400000000000 duration 1500000000 users 4 4"#;

// Documents whose root, options or scripts are refused. `@` stands for a good scenario.
const DOCUMENTS: &str = r#"=> NotJson
{ => NotJson
{"limits":1.0} => NotJson
{"options":1e3} => NotJson
[-1] => NotJson
{"options":{"a!":-0}} => NotJson
{"scripts":{"a!":18446744073709551616}} => NotJson
[] => WrongKind
null => WrongKind
{} => Missing /options
{"a~/b":0,"options":[]} => Unknown /a~0~1b
{"options":{"scenarios":{"main":@}},"scripts":{"second":[]},"vus":1} => Unknown /vus
{"scripts":{"second":[]}} => Missing /options
{"options":null,"scripts":{}} => WrongKind /options
{"options":[],"scripts":[]} => WrongKind /options
{"options":[]} => WrongKind /options
{"options":{"vus":1}} => Missing /scripts
{"options":{"scenarios":{"main":@}}} => Missing /scripts
{"options":{},"scripts":[]} => WrongKind /scripts
{"options":{"scenarios":{"main":@}},"scripts":0} => WrongKind /scripts
{"options":{},"scripts":{}} => Missing /options/scenarios
{"options":{"thresholds":{},"scenarios":{"main":@}},"scripts":{"second":[]}} => Unknown /options/thresholds
{"options":{"/~":{}},"scripts":{"a!":1}} => Unknown /options/~1~0
{"options":{"scenarios":[@]},"scripts":{"second":[]}} => WrongKind /options/scenarios
{"options":{"scenarios":"main"},"scripts":{"a!":1}} => WrongKind /options/scenarios
{"options":{"scenarios":{}},"scripts":{"a":1}} => Range /options/scenarios
{"options":{"scenarios":{"a":0,"b":0,"c":0,"d":0,"e":0,"f":0,"g":0,"h":0,"i":0,"j":0,"k":0,"l":0,"m":0,"n":0,"o":0,"p":0,"q":0,"r":0,"s":0,"t":0,"u":0}},"scripts":{"a!":1}} => Range /options/scenarios
{"options":{"scenarios":{"a":0,"b":0,"c":0,"d":0,"e":0,"f":0,"g":0,"h":0,"i":0,"j":0,"k":0,"l":0,"m":0,"n":0,"o":0,"p":0,"q":0,"r":0,"s":0,"t":0}},"scripts":{"a!":1}} => BadName /scripts/a!
{"options":{"scenarios":{"a":0,"b":0,"c":0,"d":0,"e":0,"f":0,"g":0,"h":0,"i":0,"j":0,"k":0,"l":0,"m":0,"n":0,"o":0,"p":0,"q":0,"r":0,"s":0,"t":0}},"scripts":{}} => WrongKind /options/scenarios/a
{"options":{"scenarios":{"a!":1}},"scripts":{"b":[],"a~/":1}} => BadName /scripts/a~0~1
{"options":{"scenarios":{"a!":1}},"scripts":{"a":{}}} => WrongKind /scripts/a
{"options":{"scenarios":{"main":@}},"scripts":{"second":[{"sleep":"1s"},{"wait":"1s"}]}} => Unknown /scripts/second/1/wait
{"options":{"scenarios":{"main":{}}},"scripts":{"b":[1],"a":0}} => WrongKind /scripts/a
{"options":{"scenarios":{"a/b~c":@}},"scripts":{"second":[]}} => BadName /options/scenarios/a~1b~0c
{"options":{"scenarios":{"":[]}},"scripts":{}} => BadName /options/scenarios/
{"options":{"scenarios":{"a b":{"vus":1}}},"scripts":{}} => BadName /options/scenarios/a b
{"options":{"scenarios":{"a":[@]}},"scripts":{"second":[]}} => WrongKind /options/scenarios/a
{"options":{"scenarios":{"a":{}}},"scripts":{}} => Missing /options/scenarios/a/executor
{"options":{"scenarios":{"a":@}},"scripts":{}} => ScriptUnknown /options/scenarios/a/exec
{"options":{"scenarios":{"b!":1,"a!":2}},"scripts":{"b":1}} => WrongKind /scripts/b
{"options":{"scenarios":{"b!":1,"a!":2}},"scripts":{}} => BadName /options/scenarios/a!
{"options":{"scenarios":{"b!":1,"a":@}},"scripts":{"second":[]}} => BadName /options/scenarios/b!
{"options":{"scenarios":{"a":@,"b":{}}},"scripts":{"second":[]}} => Missing /options/scenarios/b/executor
{"options":{"scenarios":{"b":{},"a":0}},"scripts":{"second":[]}} => WrongKind /options/scenarios/a
{"options":{"scenarios":{"b":@,"B":@,"a":0}},"scripts":{"second":[]}} => WrongKind /options/scenarios/a
{"options":{"scenarios":{"b!":1,"a":{"executor":"constant-arrival-rate","rate":1,"duration":"1s","preAllocatedVUs":2,"maxVUs":1}}},"scripts":{"default":[]}} => MaxBelowPre /options/scenarios/a/maxVUs"#;

// Documents of two scenarios, with what they ask for.
const PAIRS: &str =
    r#"{"options":{"scenarios":{"main":@,"other":@}},"scripts":{"second":[]}} => main begin 90000000000 grace 1500000000 script 0 of 1 rate 20 unit 2000000000 duration 5400000000000 users 4 5 other begin 90000000000 grace 1500000000 script 0 of 1 rate 20 unit 2000000000 duration 5400000000000 users 4 5
{"options":{"scenarios":{"b":{"executor":"constant-vus","duration":"1s"},"a":{"executor":"shared-iterations","iterations":2}}},"scripts":{"default":[]}} => a begin 0 grace 30000000000 script 0 of 1 shared-iterations vus 1 iterations 2 maxDuration 600000000000 b begin 0 grace 30000000000 script 0 of 1 constant-vus vus 1 duration 1000000000
{"options":{"scenarios":{"b":{"executor":"per-vu-iterations","vus":1000,"iterations":401},"a":{"executor":"constant-vus"}}},"scripts":{"default":[]}} => Missing /options/scenarios/a/duration
{"options":{"scenarios":{"b":@,"a":{"executor":"constant-arrival-rate","rate":1,"duration":"1s","preAllocatedVUs":1}}},"scripts":{"second":[],"default":[]}} => a begin 0 grace 30000000000 script 0 of 2 rate 1 unit 1000000000 duration 1000000000 users 1 1 b begin 90000000000 grace 1500000000 script 1 of 2 rate 20 unit 2000000000 duration 5400000000000 users 4 5"#;

// The names of good scenarios in the order of the text, of which the first begins at once, and each a millisecond
// behind the one before it; with the scenarios that are read, each with the milliseconds of its begin. Where a name
// stands twice its last value counts.
const ORDERS: &str = "\
=> Range /options/scenarios
main other => main 0 other 1
other main => main 1 other 0
b a B _ - 9 10 => - 4 10 6 9 5 B 2 _ 3 a 1 b 0
a aa a0 a- A => A 4 a 0 a- 3 a0 2 aa 1
a b a => a 2 b 1
t s r q p o n m l k j i h g f e d c b a => a 19 b 18 c 17 d 16 e 15 f 14 g 13 h 12 i 11 j 10 k 9 l 8 m 7 n 6 o 5 p 4 q 3 r 2 s 1 t 0
a b c d e f g h i j k l m n o p q r s t a => a 20 b 1 c 2 d 3 e 4 f 5 g 6 h 7 i 8 j 9 k 10 l 11 m 12 n 13 o 14 p 15 q 16 r 17 s 18 t 19
u t s r q p o n m l k j i h g f e d c b a => Range /options/scenarios";

// Members of a good scenario that have other values or aren't there, with the cause: one change, and then two of which
// the second is looked at first.
const CHANGES: &str = r#"env {} => Unknown /options/scenarios/main/env
executor => Missing /options/scenarios/main/executor
executor null => WrongKind /options/scenarios/main/executor
executor "fast" => BadExecutor /options/scenarios/main/executor
executor "" => BadExecutor /options/scenarios/main/executor
executor "constant-arrival-rates" => BadExecutor /options/scenarios/main/executor
startTime true => WrongKind /options/scenarios/main/startTime
startTime "" => Empty /options/scenarios/main/startTime
startTime "abc" => BadDigit /options/scenarios/main/startTime
startTime "-1s" => BadDigit /options/scenarios/main/startTime
startTime "1x" => BadUnit /options/scenarios/main/startTime
startTime "0.1ns" => NotWhole /options/scenarios/main/startTime
startTime "31d" => TooLarge /options/scenarios/main/startTime
startTime 2592000001 => TooLarge /options/scenarios/main/startTime
gracefulStop [] => WrongKind /options/scenarios/main/gracefulStop
gracefulStop "" => Empty /options/scenarios/main/gracefulStop
gracefulStop "1 s" => BadUnit /options/scenarios/main/gracefulStop
gracefulStop "30d1ns" => TooLarge /options/scenarios/main/gracefulStop
exec 1 => WrongKind /options/scenarios/main/exec
exec null => WrongKind /options/scenarios/main/exec
exec "third" => ScriptUnknown /options/scenarios/main/exec
exec "Second" => ScriptUnknown /options/scenarios/main/exec
exec "" => ScriptUnknown /options/scenarios/main/exec
rate => Missing /options/scenarios/main/rate
rate "20" => WrongKind /options/scenarios/main/rate
rate 0 => Range /options/scenarios/main/rate
rate 1000001 => Range /options/scenarios/main/rate
rate 18446744073709551615 => Range /options/scenarios/main/rate
timeUnit {} => WrongKind /options/scenarios/main/timeUnit
timeUnit "0s" => Range /options/scenarios/main/timeUnit
timeUnit 0 => Range /options/scenarios/main/timeUnit
timeUnit "25h" => Range /options/scenarios/main/timeUnit
timeUnit "1d1ns" => Range /options/scenarios/main/timeUnit
timeUnit 86400001 => Range /options/scenarios/main/timeUnit
timeUnit "31d" => TooLarge /options/scenarios/main/timeUnit
duration => Missing /options/scenarios/main/duration
duration true => WrongKind /options/scenarios/main/duration
duration null => WrongKind /options/scenarios/main/duration
duration "0s" => Range /options/scenarios/main/duration
duration 0 => Range /options/scenarios/main/duration
duration "31d" => TooLarge /options/scenarios/main/duration
duration 18446744073709551615 => TooLarge /options/scenarios/main/duration
duration "" => Empty /options/scenarios/main/duration
duration "1x" => BadUnit /options/scenarios/main/duration
duration "0.1ns" => NotWhole /options/scenarios/main/duration
duration "abc" => BadDigit /options/scenarios/main/duration
preAllocatedVUs => Missing /options/scenarios/main/preAllocatedVUs
preAllocatedVUs "4" => WrongKind /options/scenarios/main/preAllocatedVUs
preAllocatedVUs 1001 => Range /options/scenarios/main/preAllocatedVUs
maxVUs null => WrongKind /options/scenarios/main/maxVUs
maxVUs 0 => MaxBelowPre /options/scenarios/main/maxVUs
maxVUs 3 => MaxBelowPre /options/scenarios/main/maxVUs
maxVUs 1001 => Range /options/scenarios/main/maxVUs
env 1, executor => Missing /options/scenarios/main/executor
env 1, executor 1 => WrongKind /options/scenarios/main/executor
env 1, executor "fast" => BadExecutor /options/scenarios/main/executor
rate, env 1 => Unknown /options/scenarios/main/env
startTime true, env 1 => Unknown /options/scenarios/main/env
gracefulStop true, startTime "31d" => TooLarge /options/scenarios/main/startTime
exec 1, gracefulStop "1x" => BadUnit /options/scenarios/main/gracefulStop
exec 1, startTime "" => Empty /options/scenarios/main/startTime
rate, exec "third" => ScriptUnknown /options/scenarios/main/exec
rate true, exec 1 => WrongKind /options/scenarios/main/exec
timeUnit true, rate 0 => Range /options/scenarios/main/rate
duration, rate 1000001 => Range /options/scenarios/main/rate
duration, timeUnit "25h" => Range /options/scenarios/main/timeUnit
preAllocatedVUs, duration 0 => Range /options/scenarios/main/duration
preAllocatedVUs, rate => Missing /options/scenarios/main/rate
maxVUs true, duration => Missing /options/scenarios/main/duration
maxVUs true, preAllocatedVUs 1001 => Range /options/scenarios/main/preAllocatedVUs
maxVUs 1000, preAllocatedVUs 1001 => Range /options/scenarios/main/preAllocatedVUs
maxVUs 0, preAllocatedVUs => Missing /options/scenarios/main/preAllocatedVUs
preAllocatedVUs 3, maxVUs 2 => MaxBelowPre /options/scenarios/main/maxVUs
preAllocatedVUs 0, maxVUs => Range /options/scenarios/main/maxVUs
preAllocatedVUs 0, maxVUs 0 => Range /options/scenarios/main/maxVUs"#;

// The value at `scripts`, as the number of scripts and the value of each, and that at `scenarios`. A hundred scripts
// are read, and one more isn't, whatever they and the options are.
const MANY: &str =
    r#"100*[] {"main":{"executor":"constant-arrival-rate","rate":1,"duration":"1s","preAllocatedVUs":1,"exec":"s99"}} => main begin 0 grace 30000000000 script 99 of 100 rate 1 unit 1000000000 duration 1000000000 users 1 1
101*[] {"main":{"executor":"constant-arrival-rate","rate":1,"duration":"1s","preAllocatedVUs":1,"exec":"s99"}} => Range /scripts
101*0 {"main":{"executor":"constant-arrival-rate","rate":1,"duration":"1s","preAllocatedVUs":1,"exec":"s99"}} => Range /scripts
101*[] {} => Range /scripts"#;

// The value that a member of this name has among changes, if it is changed.
fn value_changed<'a>(changes: &'a str, name: &str) -> Option<&'a str> {
    for change in changes.split(", ") {
        let (member, value) = first_word(change);
        if member == name {
            return Some(value);
        }
    }
    None
}

// The text of a good scenario, but for the members that have other values. A member without a value isn't there.
fn scenario_text(alloc: Global, changes: &str) -> Result<String, Fail> {
    let mut members = String::new(alloc);
    for member in MEMBERS.lines() {
        let (name, value) = first_word(member);
        let value = value_changed(changes, name).unwrap_or(value);
        if !value.is_empty() {
            add_behind_comma(&mut members, format!(in alloc; "\"{name}\":{value}")?)?;
        }
    }
    Ok(format!(in alloc; "{{{members}}}")?)
}

// The text of an object of good scenarios of these names, each of which begins a millisecond behind the one before.
fn scenarios_text(alloc: Global, names: &str) -> Result<String, Fail> {
    let mut members = String::new(alloc);
    for (at, name) in names.split_whitespace().enumerate() {
        let begin = format!(in alloc; "startTime {at}")?;
        let scenario = scenario_text(alloc, begin.as_str())?;
        add_behind_comma(&mut members, format!(in alloc; "\"{name}\":{scenario}")?)?;
    }
    Ok(format!(in alloc; "{{{members}}}")?)
}

// The text with a scenario in place of each `@`.
fn filled(alloc: Global, text: &str, scenario: &str) -> Result<String, Fail> {
    let mut filled = String::new(alloc);
    for (at, part) in text.split('@').enumerate() {
        if at > 0 {
            filled.push_str(scenario)?;
        }
        filled.push_str(part)?;
    }
    Ok(filled)
}

// The numbers of an executor, behind its name where it has no rate.
fn executor_text(alloc: Global, executor: &Executor) -> Result<String, Fail> {
    let name = executor.name();
    match executor {
        Executor::SharedIterations {
            vus,
            iterations,
            max_duration,
        }
        | Executor::PerVuIterations {
            vus,
            iterations,
            max_duration,
        } => Ok(format!(in alloc;
            "{name} vus {vus} iterations {iterations} maxDuration {max_duration}"
        )?),
        Executor::ConstantVus { vus, duration } => {
            Ok(format!(in alloc; "{name} vus {vus} duration {duration}")?)
        }
        Executor::ConstantArrivals {
            rate,
            unit,
            duration,
            pre,
            max,
        } => Ok(format!(in alloc;
            "rate {rate} unit {unit} duration {duration} users {pre} {max}"
        )?),
        Executor::RampingArrivals {
            start_rate,
            unit,
            stages,
            pre,
            max,
        } => {
            let stages = stages_text(alloc, stages)?;
            Ok(format!(in alloc;
                "{name} start {start_rate} unit {unit}{stages} users {pre} {max}"
            )?)
        }
    }
}

// Stages: the length of each, and its target.
fn stages_text(alloc: Global, stages: &Stages) -> Result<String, Fail> {
    let mut text = String::new(alloc);
    for stage in stages.as_slice() {
        let (length, target) = (stage.length, stage.target);
        write!(text, " {length}:{target}")?;
    }
    Ok(text)
}

// A scenario, and how many scripts there are.
fn scenario_told(alloc: Global, scenario: &Scenario, scripts: u16) -> Result<String, Fail> {
    let name = text_of(scenario.name.as_slice());
    let (begin, grace, script) = (scenario.begin, scenario.grace, scenario.script);
    let mut line = format!(in alloc; "{name} begin {begin} grace {grace}")?;
    add(
        &mut line,
        format!(in alloc; "script {script} of {scripts}")?,
    )?;
    add(&mut line, executor_text(alloc, &scenario.executor)?)?;
    Ok(line)
}

/// What a document asks for, or why it is refused.
pub fn told(alloc: Global, document: &str) -> Result<String, Fail> {
    match Options::read(alloc, document.as_bytes()) {
        Ok(options) => options_told(alloc, &options.copy(alloc)?),
        Err(fault) => refusal(alloc, &fault),
    }
}

// What options ask for.
fn options_told(alloc: Global, options: &Options) -> Result<String, Fail> {
    let mut line = String::new(alloc);
    for scenario in options.scenarios.as_slice() {
        let scripts = options.scripts.count();
        add(&mut line, scenario_told(alloc, scenario, scripts)?)?;
    }
    Ok(line)
}

struct Changed;

impl Call for Changed {
    fn answer(alloc: Global, given: &str) -> Result<String, Fail> {
        let scenario = scenario_text(alloc, given)?;
        let document =
            r#"{"options":{"scenarios":{"main":@}},"scripts":{"default":[],"second":[]}}"#;
        told(alloc, filled(alloc, document, scenario.as_str())?.as_str())
    }
}

struct Document;

impl Call for Document {
    fn answer(alloc: Global, given: &str) -> Result<String, Fail> {
        let scenario = scenario_text(alloc, "")?;
        told(alloc, filled(alloc, given, scenario.as_str())?.as_str())
    }
}

// The scenarios of options, each with the milliseconds of its begin.
fn begins_told(alloc: Global, options: &Options) -> Result<String, Fail> {
    let mut line = String::new(alloc);
    for scenario in options.scenarios.as_slice() {
        let name = text_of(scenario.name.as_slice());
        let begin = scenario.begin / 1_000_000;
        add(&mut line, format!(in alloc; "{name} {begin}")?)?;
    }
    Ok(line)
}

struct Ordered;

impl Call for Ordered {
    fn answer(alloc: Global, given: &str) -> Result<String, Fail> {
        let scenarios = scenarios_text(alloc, given)?;
        let options = r#"{"options":{"scenarios":"#;
        let text = format!(in alloc; "{options}{scenarios}}},\"scripts\":{{\"second\":[]}}}}")?;
        match Options::read(alloc, text.as_bytes()) {
            Ok(options) => begins_told(alloc, &options),
            Err(fault) => refusal(alloc, &fault),
        }
    }
}

struct ManyScripts;

impl Call for ManyScripts {
    fn answer(alloc: Global, given: &str) -> Result<String, Fail> {
        let (scripts, scenarios) = first_word(given);
        let scripts = scripts_text(alloc, scripts)?;
        let options = r#"{"options":{"scenarios":"#;
        let text = format!(in alloc; "{options}{scenarios}}},\"scripts\":{scripts}}}")?;
        told(alloc, text.as_str())
    }
}

/// Good scenarios.
#[test]
fn scenarios(rt: HostRuntime) -> Result<(), Fail> {
    check::<Changed, _>(&rt, READ)
}

/// Scenarios that are refused.
#[test]
fn refused_scenarios(rt: HostRuntime) -> Result<(), Fail> {
    check::<Changed, _>(&rt, CHANGES)
}

/// Documents that are refused.
#[test]
fn refused_documents(rt: HostRuntime) -> Result<(), Fail> {
    check::<Document, _>(&rt, DOCUMENTS)
}

/// Documents of two scenarios.
#[test]
fn pairs(rt: HostRuntime) -> Result<(), Fail> {
    check::<Document, _>(&rt, PAIRS)
}

/// Scenarios in byte order of their names, whatever their order in the text.
#[test]
fn ordered_scenarios(rt: HostRuntime) -> Result<(), Fail> {
    check::<Ordered, _>(&rt, ORDERS)
}

/// Documents of many scripts.
#[test]
fn many_scripts(rt: HostRuntime) -> Result<(), Fail> {
    check::<ManyScripts, _>(&rt, MANY)
}

/// A list of scenarios that is made by hand.
#[test]
fn made_scenarios(rt: HostRuntime) -> Result<(), Fail> {
    let alloc = rt.alloc();
    let mut items = Vec::new(alloc);
    items.push(Scenario {
        name: Text::of(Vec::from_slice(alloc, b"main")?),
        begin: 1,
        grace: 2,
        script: 3,
        executor: Executor::ConstantArrivals {
            rate: 4,
            unit: 5,
            duration: 6,
            pre: 7,
            max: 8,
        },
    })?;
    let list = Scenarios::of(items);
    let mut line = String::new(alloc);
    for scenario in list.as_slice() {
        add(&mut line, scenario_told(alloc, scenario, 4)?)?;
    }
    assert_eq!(rt;
        line.as_str(),
        "main begin 1 grace 2 script 3 of 4 rate 4 unit 5 duration 6 users 7 8"
    );
    Ok(())
}
