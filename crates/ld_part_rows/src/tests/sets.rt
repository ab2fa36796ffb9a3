// Sets of numbers: what is in them, and which number is the least.
use crate::tests::table::{Call, Steps, add, check, first_word, named, number, played};
use ld_set::NumberSet;
use std::alloc::Global;
use std::marker::Model;
use std::test::Fail;

// A set of the numbers below 130, empty or full at first, and calls, with what they answer. To put a number and to take
// one answers nothing.
const CALLS: &str = "\
empty least count has:0 has:129 has:130 take:5 take:130 count least => None 0 false false false 0 None
empty put:129 least put:64 least put:127 put:0 least count => Some(129) Some(64) Some(0) 4
empty put:0 put:64 put:127 put:129 has:0 has:1 has:63 has:64 has:65 => true false false true false
empty put:0 put:64 put:127 put:129 has:126 has:127 has:128 has:129 has:130 has:192 => false true false true false false
empty put:63 put:64 put:128 take:63 least take:64 least take:128 least count => Some(64) Some(128) None 0
empty put:128 put:63 take:63 least put:0 least put:0 count take:0 count least => Some(128) Some(0) 2 1 Some(128)
empty put:127 put:128 take:128 least take:127 least put:128 least put:63 least => Some(127) None Some(128) Some(63)
empty put:5 take:69 take:133 has:5 count least => true 1 Some(5)
full count least has:0 has:63 has:64 has:127 has:128 has:129 => 130 Some(0) true true true true true true
full has:130 has:131 has:191 has:192 has:4294967295 take:130 take:4294967295 count => false false false false false 130
full put:0 put:129 count take:0 least take:0 least count => 130 Some(1) Some(1) 129
full take:129 count has:129 has:128 take:63 take:64 count has:63 has:64 has:65 least => 129 false true 127 false false true Some(0)";

// A limit, with the count and the least of the full set, and whether the number below the limit and the limit are in it.
const FULL: &str = "\
0 => 0 None false false
1 => 1 Some(0) true false
63 => 63 Some(0) true false
64 => 64 Some(0) true false
65 => 65 Some(0) true false
128 => 128 Some(0) true false
130 => 130 Some(0) true false
400000 => 400000 Some(0) true false";

// A set of numbers below 130.
#[derive(Drop)]
struct Small {
    set: NumberSet,
}

impl Model for Small {
    ghost use Rattle.std.specs.Prelude.{◌≡◌};
    ghost use Rattle.ld_set.specs.SetView.{SetView};

    ghost Value = { SetView };

    ghost view = { λ s. s.set };

    ghost invariant = { λ s. s.set.limit ≡ 130 };
}

// The number that a text writes, or 0.
fn to_u32(text: &str) -> u32 {
    u32::try_from(number(text)).unwrap_or(0)
}

impl Steps for Small {
    fn step(&mut self, alloc: Global, word: &str) -> Result<String, Fail> {
        let (call, rest) = word.split_once(':').unwrap_or((word, ""));
        let number = to_u32(rest);
        if call == "has" {
            return named(alloc, self.set.contains(number));
        }
        if call == "least" {
            return named(alloc, self.set.least());
        }
        if call == "count" {
            return named(alloc, self.set.count());
        }
        if call == "take" {
            self.set.remove(number);
        } else if number < 130 {
            self.set.insert(number);
        }
        Ok(String::new(alloc))
    }
}

struct Called;

impl Call for Called {
    fn answer(alloc: Global, given: &str) -> Result<String, Fail> {
        let (kind, line) = first_word(given);
        let set = if kind == "full" {
            NumberSet::full(alloc, 130)?
        } else {
            NumberSet::new(alloc, 130)?
        };
        played(alloc, &mut Small { set }, line)
    }
}

struct Filled;

impl Call for Filled {
    fn answer(alloc: Global, given: &str) -> Result<String, Fail> {
        let limit = to_u32(given);
        let set = NumberSet::full(alloc, limit)?;
        let mut line = named(alloc, set.count())?;
        add(&mut line, named(alloc, set.least())?)?;
        add(
            &mut line,
            named(alloc, set.contains(limit.saturating_sub(1)))?,
        )?;
        add(&mut line, named(alloc, set.contains(limit))?)?;
        Ok(line)
    }
}

/// What a set answers to calls.
#[test]
fn sets(rt: HostRuntime) -> Result<(), Fail> {
    check::<Called, _>(&rt, CALLS)
}

/// What is in a full set.
#[test]
fn full_sets(rt: HostRuntime) -> Result<(), Fail> {
    check::<Filled, _>(&rt, FULL)
}
