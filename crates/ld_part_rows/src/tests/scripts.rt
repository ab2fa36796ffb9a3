// Scripts: their names, and which documents have them.

use crate::tests::refusals::refusal;
use crate::tests::table::{
    Call, add, add_behind_comma, check, first_word, named, number, put, said, text_of,
};
use ld_json::Doc;
use ld_options::OptionsFault;
use ld_script::{Names, ScriptFault, Scripts, Step, is_name};
use std::alloc::Global;
use std::test::Fail;

// Texts, and whether they are names.
const NAMES: &str = "\
default => true
Z => true
0_9-a => true
-- => true
abcdefghijklmnopqrstuvwxyzabcdefghijklmnopqrstuvwxyz0123456789_- => true
abcdefghijklmnopqrstuvwxyzabcdefghijklmnopqrstuvwxyz0123456789_-a => false
a b => false
a.b => false
a/b => false
a: => false
@a => false
[a => false
a` => false
a{ => false
ü => false
=> false";

// Values at `scripts`, with the number of scripts, the number of names that their steps use, and the first scripts,
// each with the room for its samples; or why the value is refused. An object of many scripts is written by their number
// and the value of each.
const SCRIPTS: &str = r#"{} => 0 0
{"b":[],"a":[],"B":[],"_":[],"-":[],"9":[],"10":[]} => 7 0 -:0 10:0 9:0 B:0 _:0 a:0 b:0
100*[] => 100 0 s0:0 s1:0 s10:0 s11:0 s12:0 s13:0 s14:0
101*[] => Range /scripts
101*{} => Range /scripts
[] => WrongKind /scripts
null => WrongKind /scripts
"default" => WrongKind /scripts
{"":[]} => BadName /scripts/
{"a b":[]} => BadName /scripts/a b
{"a/b":[]} => BadName /scripts/a~1b
{"ü":[]} => BadName /scripts/ü
{"a":{}} => WrongKind /scripts/a
{"a":null} => WrongKind /scripts/a
{"a":""} => WrongKind /scripts/a
{"a":[{}]} => Range /scripts/a/0
{"a":[[]]} => WrongKind /scripts/a/0
{"a!":{}} => BadName /scripts/a!
{"a!":[1]} => BadName /scripts/a!
{"b":{},"a":[1]} => WrongKind /scripts/a/0
{"b!":[],"a":{}} => WrongKind /scripts/a
{"a":{},"B!":[]} => BadName /scripts/B!
{"_":[1],"-":[],"a":[1]} => WrongKind /scripts/_/0
{"b":[{"count":{"name":"x"}}],"a":[{"count":{"name":"y"}},{"sleep":1},{"count":{"name":"x"}}]} => 2 2 a:2 b:1
{"b":[{"count":{"name":"x"}},{"count":{"name":"-"}}],"a":[{"sleep":"1s"}]} => Range /scripts/b/1/count/name"#;

// The steps of a script, with how many there are, how many samples they give, and the first six: `sleep` with its
// nanoseconds, and `count` with the number of its name, the name and what is added; or why the script is refused.
// `3*STEP` is a list of three such steps, `3*STEP;OTHER` has one more step behind them, and `3^LIST` is a list in
// three groups, one in another.
const STEPS: &str = r#"[] => 0 0
[{"sleep":"1s"}] => 1 0 sleep:1000000000
[{"sleep":1500}] => 1 0 sleep:1500000000
[{"sleep":0}] => 1 0 sleep:0
[{"sleep":"30d"}] => 1 0 sleep:2592000000000000
[{"sleep":"1m30s"},{"count":{"name":"orders"}},{"count":{"add":0,"name":"Orders_2"}},{"count":{"name":"orders","add":1000000}}] => 4 3 sleep:90000000000 count:0:orders:1 count:1:Orders_2:0 count:0:orders:1000000
[{"group":{"name":"","steps":[]}}] => 0 0
[{"group":{"name":"g","steps":[{"count":{"name":"b"}},{"group":{"name":"g","steps":[{"sleep":1},{"count":{"name":"a"}}]}},{"count":{"name":"b"}}]}},{"sleep":2}] => 5 3 count:0:b:1 sleep:1000000 count:1:a:1 count:0:b:1 sleep:2000000
8^[{"sleep":1},{"count":{"name":"c"}}] => 2 1 sleep:1000000 count:0:c:1
9^[{"sleep":1}] => Range /scripts/a/0/group/steps/0/group/steps/0/group/steps/0/group/steps/0/group/steps/0/group/steps/0/group/steps/0/group/steps/0
8^[{"group":0}] => Range /scripts/a/0/group/steps/0/group/steps/0/group/steps/0/group/steps/0/group/steps/0/group/steps/0/group/steps/0/group/steps/0
7^[{"group":0}] => WrongKind /scripts/a/0/group/steps/0/group/steps/0/group/steps/0/group/steps/0/group/steps/0/group/steps/0/group/steps/0/group
200*{"sleep":1} => 200 0 sleep:1000000 sleep:1000000 sleep:1000000 sleep:1000000 sleep:1000000 sleep:1000000
201*{"sleep":1} => Range /scripts/a/200
200*{"sleep":1};5 => Range /scripts/a/200
199*{"sleep":1};5 => WrongKind /scripts/a/199
200*{"sleep":1};{"group":{}} => Range /scripts/a/200
100*{"group":{"name":"g","steps":[{"sleep":1}]}} => 100 0 sleep:1000000 sleep:1000000 sleep:1000000 sleep:1000000 sleep:1000000 sleep:1000000
101*{"group":{"name":"g","steps":[{"sleep":1}]}} => Range /scripts/a/100
67*{"group":{"name":"g","steps":[{"sleep":1},{"sleep":2}]}} => Range /scripts/a/66/group/steps/1
200*{"count":{"name":"c"}} => 200 200 count:0:c:1 count:0:c:1 count:0:c:1 count:0:c:1 count:0:c:1 count:0:c:1
[1] => WrongKind /scripts/a/0
["sleep"] => WrongKind /scripts/a/0
[[]] => WrongKind /scripts/a/0
[{}] => Range /scripts/a/0
[{"sleep":1,"count":{"name":"c"}}] => Range /scripts/a/0
[{"sleep":1,"group":0}] => Range /scripts/a/0
[{"sleep":1,"wait":1}] => Unknown /scripts/a/0/wait
[{"Sleep":1}] => Unknown /scripts/a/0/Sleep
[{"http":{"url":"http://127.0.0.1/"}}] => Unknown /scripts/a/0/http
[{"sleep":null}] => WrongKind /scripts/a/0/sleep
[{"sleep":["1s"]}] => WrongKind /scripts/a/0/sleep
[{"sleep":""}] => Empty /scripts/a/0/sleep
[{"sleep":"s"}] => BadDigit /scripts/a/0/sleep
[{"sleep":"-1s"}] => BadDigit /scripts/a/0/sleep
[{"sleep":"1x"}] => BadUnit /scripts/a/0/sleep
[{"sleep":"31d"}] => TooLarge /scripts/a/0/sleep
[{"sleep":2592000001}] => TooLarge /scripts/a/0/sleep
[{"sleep":"0.5ns"}] => NotWhole /scripts/a/0/sleep
[{"count":1}] => WrongKind /scripts/a/0/count
[{"count":{}}] => Missing /scripts/a/0/count/name
[{"count":{"add":"1"}}] => Missing /scripts/a/0/count/name
[{"count":{"nam":1}}] => Unknown /scripts/a/0/count/nam
[{"count":{"name":1}}] => WrongKind /scripts/a/0/count/name
[{"count":{"name":""}}] => Range /scripts/a/0/count/name
[{"count":{"name":"a-b"}}] => Range /scripts/a/0/count/name
[{"count":{"name":"a b"}}] => Range /scripts/a/0/count/name
[{"count":{"name":"ü"}}] => Range /scripts/a/0/count/name
[{"count":{"name":"abcdefghijklmnopqrstuvwxyzabcdefghijklmnopqrstuvwxyz0123456789_A"}}] => 1 1 count:0:abcdefghijklmnopqrstuvwxyzabcdefghijklmnopqrstuvwxyz0123456789_A:1
[{"count":{"name":"abcdefghijklmnopqrstuvwxyzabcdefghijklmnopqrstuvwxyz0123456789_AB"}}] => Range /scripts/a/0/count/name
[{"count":{"name":"http_reqs"}}] => Range /scripts/a/0/count/name
[{"count":{"name":"http_req_duration"}}] => Range /scripts/a/0/count/name
[{"count":{"name":"http_req_failed"}}] => Range /scripts/a/0/count/name
[{"count":{"name":"checks"}}] => Range /scripts/a/0/count/name
[{"count":{"name":"iterations"}}] => Range /scripts/a/0/count/name
[{"count":{"name":"iteration_duration"}}] => Range /scripts/a/0/count/name
[{"count":{"name":"dropped_iterations"}}] => Range /scripts/a/0/count/name
[{"count":{"name":"late_iterations"}}] => Range /scripts/a/0/count/name
[{"count":{"name":"data_sent"}}] => Range /scripts/a/0/count/name
[{"count":{"name":"data_received"}}] => Range /scripts/a/0/count/name
[{"count":{"name":"vus"}}] => Range /scripts/a/0/count/name
[{"count":{"name":"vus_max"}}] => Range /scripts/a/0/count/name
[{"count":{"name":"Vus"}},{"count":{"name":"vus_"}}] => 2 2 count:0:Vus:1 count:1:vus_:1
[{"count":{"name":"c","add":1000001}}] => Range /scripts/a/0/count/add
[{"count":{"name":"c","add":"1"}}] => WrongKind /scripts/a/0/count/add
[{"count":{"name":"a-b","add":"1"}}] => Range /scripts/a/0/count/name
[{"group":1}] => WrongKind /scripts/a/0/group
[{"group":{}}] => Missing /scripts/a/0/group/name
[{"group":{"name":1}}] => WrongKind /scripts/a/0/group/name
[{"group":{"name":"g"}}] => Missing /scripts/a/0/group/steps
[{"group":{"name":"g","steps":{}}}] => WrongKind /scripts/a/0/group/steps
[{"group":{"name":"g","steps":[1],"id":1}}] => Unknown /scripts/a/0/group/id
[{"group":{"name":"g","steps":[{"sleep":1},1]}},2] => WrongKind /scripts/a/0/group/steps/1
[{"sleep":1},{"group":{"name":"g","steps":[{}]}},2] => Range /scripts/a/1/group/steps/0
[{"sleep":1},2,{"sleep":"x"}] => WrongKind /scripts/a/1"#;

// The names that scripts use, in the order in which they are first used. A number and a name stand for scripts that
// count under so many names, `n0` on, 200 in each, and for one more script that counts under the name; of these the
// number of names is told.
const USED: &str = r#"{} =>
{"a":[{"sleep":1}]} =>
{"b":[{"count":{"name":"x"}}],"a":[{"count":{"name":"y"}},{"count":{"name":"x"}}]} => y x
{"b":[{"count":{"name":"x"}}],"a":[{"group":{"name":"z","steps":[{"count":{"name":"y"}}]}},{"count":{"name":"X"}}]} => y X x
999 new => 1000
1000 n7 => 1000
1000 new => Range /scripts/s9/0/count/name"#;

// A name, where `_` is the empty one, and a value at `scripts`, with the number of the script of this name.
const FOUND: &str = r#"- {"b":[],"a":[],"B":[],"_":[],"-":[],"9":[],"10":[]} => 0 0
b {"b":[],"a":[],"B":[],"_":[],"-":[],"9":[],"10":[]} => 6 6
c {"b":[],"a":[],"B":[],"_":[],"-":[],"9":[],"10":[]} => none none
_ {"b":[],"a":[],"B":[],"_":[],"-":[],"9":[],"10":[]} => none none
default {} => none none"#;

struct Name;

impl Call for Name {
    fn answer(alloc: Global, given: &str) -> Result<String, Fail> {
        named(alloc, is_name(given.as_bytes()))
    }
}

/// The value at `scripts` that a word stands for: the word, or an object of many scripts where it is a number, a star,
/// and the value of each.
pub fn scripts_text(alloc: Global, word: &str) -> Result<String, Fail> {
    let Some((count, value)) = word.split_once('*') else {
        return said(alloc, word);
    };
    let mut members = String::new(alloc);
    for at in 0..number(count) {
        add_behind_comma(&mut members, format!(in alloc; "\"s{at}\":{value}")?)?;
    }
    Ok(format!(in alloc; "{{{members}}}")?)
}

// The scripts of a document with this value at `scripts`.
fn read(alloc: Global, value: &str) -> Result<Scripts, ScriptFault> {
    let text = format!(in alloc; "{{\"scripts\":{value}}}")?;
    let document = Doc::read(alloc, text.as_bytes())?;
    let root = document.root();
    let node = root.need(alloc, "scripts")?;
    Scripts::read(alloc, &node)
}

// How many scripts there are, how many names they use, and the first scripts.
fn told(alloc: Global, scripts: &Scripts) -> Result<String, Fail> {
    let names = scripts.names().specs().len();
    let mut line = format!(in alloc; "{} {names}", scripts.count())?;
    for at in 0..scripts.count().min(7) {
        let name = text_of(scripts.name(at).as_slice());
        let room = scripts.script(at).sample_room();
        add(&mut line, format!(in alloc; "{name}:{room}")?)?;
    }
    Ok(line)
}

struct ScriptsRead;

impl Call for ScriptsRead {
    fn answer(alloc: Global, given: &str) -> Result<String, Fail> {
        match read(alloc, scripts_text(alloc, given)?.as_str()) {
            Ok(scripts) => told(alloc, &scripts.copy(alloc)?),
            Err(fault) => refusal(alloc, &OptionsFault::from(fault)),
        }
    }
}

/// The list of steps that a word stands for: the word, a list of many steps where it is a number, a star and a step,
/// or a list in groups where it is a number, `^` and the list.
fn list_text(alloc: Global, word: &str) -> Result<String, Fail> {
    if let Some((count, list)) = word.split_once('^') {
        return grouped(alloc, number(count), list);
    }
    let Some((count, steps)) = word.split_once('*') else {
        return said(alloc, word);
    };
    let (step, last) = steps.split_once(';').unwrap_or((steps, ""));
    let mut list = String::new(alloc);
    for _ in 0..number(count) {
        add_behind_comma(&mut list, said(alloc, step)?)?;
    }
    add_behind_comma(&mut list, said(alloc, last)?)?;
    Ok(format!(in alloc; "[{list}]")?)
}

// A list of steps in so many groups, one in another.
fn grouped(alloc: Global, count: u64, list: &str) -> Result<String, Fail> {
    let mut text = said(alloc, list)?;
    for _ in 0..count {
        text = format!(in alloc; "[{{\"group\":{{\"name\":\"g\",\"steps\":{text}}}}}]")?;
    }
    Ok(text)
}

// A step, with the text of its name.
fn step_told(alloc: Global, names: &Names, step: &Step) -> Result<String, Fail> {
    match step {
        Step::Sleep(length) => Ok(format!(in alloc; "sleep:{length}")?),
        Step::Count { name, add } => {
            let text = name_text(names, *name);
            Ok(format!(in alloc; "count:{name}:{text}:{add}")?)
        }
    }
}

// The text of a name, where there is one of this number.
fn name_text(names: &Names, at: u16) -> &str {
    if (at as usize) < names.specs().len() {
        names.text(at)
    } else {
        "no name"
    }
}

// How many steps a script has, how many samples they give, and the first six.
fn steps_told(alloc: Global, scripts: &Scripts) -> Result<String, Fail> {
    if scripts.count() == 0 {
        return said(alloc, "no script");
    }
    let script = scripts.script(0);
    let steps = script.steps();
    let mut line = format!(in alloc; "{} {}", steps.len(), script.sample_room())?;
    for step in steps.iter().take(6) {
        add(&mut line, step_told(alloc, scripts.names(), step)?)?;
    }
    Ok(line)
}

struct StepsRead;

impl Call for StepsRead {
    fn answer(alloc: Global, given: &str) -> Result<String, Fail> {
        let list = list_text(alloc, given)?;
        let value = format!(in alloc; "{{\"a\":{list}}}")?;
        match read(alloc, value.as_str()) {
            Ok(scripts) => steps_told(alloc, &scripts.copy(alloc)?),
            Err(fault) => refusal(alloc, &OptionsFault::from(fault)),
        }
    }
}

// A script of steps that count under so many names, from this number on.
fn counting(alloc: Global, first: u64, count: u64) -> Result<String, Fail> {
    let mut list = String::new(alloc);
    for at in first..first.saturating_add(count) {
        add_behind_comma(
            &mut list,
            format!(in alloc; "{{\"count\":{{\"name\":\"n{at}\"}}}}")?,
        )?;
    }
    Ok(format!(in alloc; "[{list}]")?)
}

// Scripts that count under so many names, and one that counts under one more.
fn counting_scripts(alloc: Global, count: u64, last: &str) -> Result<String, Fail> {
    let mut members = String::new(alloc);
    for at in 0..5 {
        let first = 200 * at;
        let steps = counting(alloc, first, count.saturating_sub(first).min(200))?;
        add_behind_comma(&mut members, format!(in alloc; "\"s{at}\":{steps}")?)?;
    }
    let step = format!(in alloc; "\"s9\":[{{\"count\":{{\"name\":\"{last}\"}}}}]")?;
    add_behind_comma(&mut members, step)?;
    Ok(format!(in alloc; "{{{members}}}")?)
}

// The names that scripts use, in order.
fn names_told(alloc: Global, names: &Names) -> Result<String, Fail> {
    let mut line = String::new(alloc);
    for at in 0..names.specs().len() {
        put(&mut line, name_text(names, at as u16))?;
    }
    Ok(line)
}

struct Used;

impl Call for Used {
    fn answer(alloc: Global, given: &str) -> Result<String, Fail> {
        if given.starts_with('{') {
            return names_told(alloc, read(alloc, given)?.names());
        }
        let (count, last) = first_word(given);
        let value = counting_scripts(alloc, number(count), last)?;
        match read(alloc, value.as_str()) {
            Ok(scripts) => named(alloc, scripts.names().specs().len()),
            Err(fault) => refusal(alloc, &OptionsFault::from(fault)),
        }
    }
}

// The number of a script, if it was found.
fn number_told(alloc: Global, found: Option<u16>) -> Result<String, Fail> {
    match found {
        Some(at) => named(alloc, at),
        None => said(alloc, "none"),
    }
}

struct Found;

impl Call for Found {
    fn answer(alloc: Global, given: &str) -> Result<String, Fail> {
        let (name, value) = first_word(given);
        found_told(alloc, &read(alloc, value)?, name)
    }
}

// The number of the script of a name, as both calls tell it.
fn found_told(alloc: Global, scripts: &Scripts, name: &str) -> Result<String, Fail> {
    let mut line = number_told(alloc, scripts.find(name))?;
    let found = scripts.find_bytes(name.as_bytes());
    add(&mut line, number_told(alloc, found)?)?;
    Ok(line)
}

/// Names, and texts that are none.
#[test]
fn names(rt: HostRuntime) -> Result<(), Fail> {
    check::<Name, _>(&rt, NAMES)
}

/// Scripts in byte order of their names, and values that are refused.
#[test]
fn scripts(rt: HostRuntime) -> Result<(), Fail> {
    check::<ScriptsRead, _>(&rt, SCRIPTS)
}

/// The steps of scripts, and steps that are refused.
#[test]
fn steps(rt: HostRuntime) -> Result<(), Fail> {
    check::<StepsRead, _>(&rt, STEPS)
}

/// The names that scripts use, up to as many as there may be.
#[test]
fn used_names(rt: HostRuntime) -> Result<(), Fail> {
    check::<Used, _>(&rt, USED)
}

/// Scripts that are found by their names.
#[test]
fn found_scripts(rt: HostRuntime) -> Result<(), Fail> {
    check::<Found, _>(&rt, FOUND)
}
