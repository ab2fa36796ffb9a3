// Tables of moments: what a number has, the least moments, and which number is due first.
use crate::tests::table::{Call, Steps, check, named, number, played};
use ld_set::MomentTable;
use std::alloc::Global;
use std::marker::Model;
use std::test::Fail;

// A table of the numbers below 70, which has no moments at first, and calls, with what they answer. To set a number's
// moment and to clear it answers nothing. `due:33,200` asks for the first number from 33 on that is due at 200.
const CALLS: &str = "\
get:0 get:69 get:70 get:4294967295 least above:0 due:0,18446744073709551615 due:70,0 => None None None None None None None None
set:5,300 get:5 get:4 get:6 least => Some(300) None None Some(300)
set:5,300 set:69,200 least set:33,100 least clear:33 least clear:69 least clear:5 least => Some(200) Some(100) Some(200) Some(300) None
set:5,300 set:5,400 least set:5,0 least get:5 => Some(400) Some(0) Some(0)
set:0,100 set:31,200 set:32,150 above:0 above:99 above:100 above:149 above:150 above:199 above:200 => Some(100) Some(100) Some(150) Some(150) Some(200) Some(200) None
set:3,100 set:4,100 set:40,100 above:100 above:99 clear:3 above:99 clear:4 above:99 clear:40 above:99 => None Some(100) Some(100) Some(100) None
set:7,18446744073709551615 least above:18446744073709551614 above:18446744073709551615 => Some(18446744073709551615) Some(18446744073709551615) None
set:2,300 set:31,100 set:32,200 set:69,100 due:0,99 due:0,100 due:31,100 due:32,100 due:69,100 due:70,100 => None Some(31) Some(31) Some(69) Some(69) None
set:2,300 set:31,100 set:32,200 set:69,100 due:0,200 due:0,300 due:3,300 due:32,300 due:33,300 => Some(31) Some(2) Some(31) Some(32) Some(69)
set:2,300 due:2,300 clear:2 due:2,300 set:2,301 due:2,300 due:2,301 due:3,301 due:4294967295,301 => Some(2) None None Some(2) None None";

// A table of the numbers below 70.
#[derive(Drop)]
struct Small {
    table: MomentTable,
}

impl Model for Small {
    ghost use Rattle.std.specs.Prelude.{◌≡◌, ℕ, List, Option, length};

    ghost Value = { List (Option ℕ) };

    ghost view = { λ s. s.table };

    ghost invariant = { λ s. length s.table ≡ 70 };
}

// The number that a text writes, or 0.
fn to_u32(text: &str) -> u32 {
    u32::try_from(number(text)).unwrap_or(0)
}

impl Steps for Small {
    fn step(&mut self, alloc: Global, word: &str) -> Result<String, Fail> {
        let (call, rest) = word.split_once(':').unwrap_or((word, ""));
        let (first, second) = rest.split_once(',').unwrap_or((rest, ""));
        if call == "get" {
            return named(alloc, self.table.get(to_u32(first)));
        }
        if call == "least" {
            return named(alloc, self.table.least());
        }
        if call == "above" {
            return named(alloc, self.table.least_above(number(first)));
        }
        if call == "due" {
            return named(alloc, self.table.first_due(to_u32(first), number(second)));
        }
        let at = to_u32(first);
        if at < 70 {
            let moment = (call == "set").then_some(number(second));
            self.table.set(at, moment);
        }
        Ok(String::new(alloc))
    }
}

struct Called;

impl Call for Called {
    fn answer(alloc: Global, given: &str) -> Result<String, Fail> {
        let table = MomentTable::new(alloc, 70)?;
        played(alloc, &mut Small { table }, given)
    }
}

/// What a table of moments answers to calls.
#[test]
fn moments(rt: HostRuntime) -> Result<(), Fail> {
    check::<Called, _>(&rt, CALLS)
}
