// Texts that rows name: tests, and journals.

use std::test::Fail;

// Tests, each behind its name: three arrivals in a second; four for two users; and two arrivals in each of two
// scenarios, of which the later one begins when the last iteration of the first has to have ended. Then constant users,
// shared iterations and iterations of each user; two scenarios of constant users, of which the second begins after the
// first one's last iteration has ended, or beside it; three scenarios of three executors; and scripts with eleven steps that
// count, and with a group. Then arrivals that come faster and faster, for one user and for two.
const TESTS: &str =
    r#"three {"options":{"scenarios":{"main":{"executor":"constant-arrival-rate","rate":3,"duration":"1s","preAllocatedVUs":1}}},"scripts":{"default":[]}}
four {"options":{"scenarios":{"main":{"executor":"constant-arrival-rate","rate":4,"duration":"1s","preAllocatedVUs":2}}},"scripts":{"default":[]}}
in-turn {"options":{"scenarios":{"second":{"executor":"constant-arrival-rate","startTime":"31s","rate":2,"duration":"1s","preAllocatedVUs":1,"maxVUs":2},"first":{"executor":"constant-arrival-rate","rate":2,"duration":"1s","preAllocatedVUs":1,"maxVUs":2}}},"scripts":{"default":[]}}
three-users {"options":{"scenarios":{"main":{"executor":"constant-vus","vus":3,"duration":"1s"}}},"scripts":{"default":[]}}
ten-shared {"options":{"scenarios":{"main":{"executor":"shared-iterations","vus":1,"iterations":10}}},"scripts":{"default":[]}}
five-shared {"options":{"scenarios":{"main":{"executor":"shared-iterations","vus":2,"iterations":5}}},"scripts":{"default":[]}}
two-each {"options":{"scenarios":{"main":{"executor":"per-vu-iterations","vus":3,"iterations":2}}},"scripts":{"default":[]}}
three-each {"options":{"scenarios":{"main":{"executor":"per-vu-iterations","vus":1,"iterations":3,"maxDuration":"3s"}}},"scripts":{"default":[]}}
graceful {"options":{"scenarios":{"main":{"executor":"constant-vus","vus":1,"duration":"1s","gracefulStop":"500ms"}}},"scripts":{"default":[]}}
steady {"options":{"scenarios":{"main":{"executor":"constant-vus","vus":1,"duration":"10s"}}},"scripts":{"default":[]}}
after {"options":{"scenarios":{"a":{"executor":"constant-vus","vus":2,"duration":"10s","gracefulStop":"5s"},"b":{"executor":"constant-vus","vus":2,"startTime":"15s","duration":"1s"}}},"scripts":{"default":[]}}
beside {"options":{"scenarios":{"a":{"executor":"constant-vus","vus":2,"duration":"10s","gracefulStop":"5s"},"b":{"executor":"constant-vus","vus":2,"startTime":"14s","duration":"1s"}}},"scripts":{"default":[]}}
mixed {"options":{"scenarios":{"a":{"executor":"constant-arrival-rate","rate":2,"duration":"1s","preAllocatedVUs":1},"b":{"executor":"shared-iterations","vus":1,"iterations":2},"c":{"executor":"constant-vus","vus":1,"duration":"1s"}}},"scripts":{"default":[]}}
counting {"options":{"scenarios":{"main":{"executor":"constant-vus","vus":1,"duration":"1s"}}},"scripts":{"default":[{"count":{"name":"made"}},{"count":{"name":"made"}},{"count":{"name":"made"}},{"count":{"name":"made"}},{"count":{"name":"made"}},{"count":{"name":"made"}},{"count":{"name":"made"}},{"count":{"name":"made"}},{"count":{"name":"made"}},{"count":{"name":"made"}},{"count":{"name":"made"}}]}}
grouped {"options":{"scenarios":{"main":{"executor":"constant-vus","vus":1,"duration":"1s"}}},"scripts":{"default":[{"sleep":"1s"},{"group":{"name":"pay","steps":[{"count":{"name":"paid","add":3}},{"sleep":250}]}}]}}
rising {"options":{"scenarios":{"main":{"executor":"ramping-arrival-rate","startRate":0,"preAllocatedVUs":1,"stages":[{"duration":"1s","target":10}]}}},"scripts":{"default":[]}}
rising-for-two {"options":{"scenarios":{"main":{"executor":"ramping-arrival-rate","preAllocatedVUs":2,"stages":[{"duration":"1s","target":10}]}}},"scripts":{"default":[]}}"#;

// Journals, each behind a line with its name:
// - `one-user`: two arrivals with one user; the second is dropped, since the first is under way;
// - `two-users`: two arrivals with two users at most; the second is made for the second arrival;
// - `interrupted`: an iteration that its scenario's hard end interrupts, 30 seconds behind the end;
// - `full`: four arrivals with room for ten entries, that is, for all but the close;
// - `apart`: two arrivals that are 1,500 milliseconds apart;
// - `minute`: two arrivals in a minute, with iterations of 1,500 milliseconds;
// - `first-half` and `second-half`: the halves of the test `four`, with iterations of 100 milliseconds;
// - `in-turn`: the test `in-turn`, with iterations of a second: a second user is made for the first scenario, and the
//   second scenario takes both;
// - `three-each`: three iterations of one user, of two seconds each: the third has no time to begin, and is dropped;
// - `graceful` and `cut-off`: an iteration that ends with its scenario's grace, and one that would end later;
// - `steady`: iterations of a second, with room for ten entries, of which the last is needed for the next return;
// - `after`: the test `after`, with iterations of 8 seconds: the second scenario takes the first one's users;
// - `five-shared` and `half-shared`: five iterations of a second that two users share, and the second half of them;
// - `mixed`: the test `mixed`, with iterations of 400 milliseconds: an arrival is due before the users' next iterations;
// - `counting`: an iteration may give eleven samples, of which ten have room: no iteration begins;
// - `grouped`: an iteration of a second, whatever its steps say;
// - `rising`: four arrivals that come faster and faster, with iterations of 100 milliseconds.
const JOURNALS: &str = r#"# one-user
ldjournal 1
test 188
{"options":{"scenarios":{"main":{"executor":"constant-arrival-rate","rate":2,"timeUnit":"1000000000ns","duration":"1000000000ns","preAllocatedVUs":1,"maxVUs":1}}},"scripts":{"default":[]}}
segment 0:1
sequence 0,1
entries 1000000
1 0 0 take 0 1 0
2 0 0 start 0 1 0 31000000000
3 0 500000000 drop 0 1
4 0 1000000000 return 0 1 0 done 0
5 0 1000000000 release 0 1
6 0 1000000000 close 0
end 6
# two-users
ldjournal 1
test 188
{"options":{"scenarios":{"main":{"executor":"constant-arrival-rate","rate":2,"timeUnit":"1000000000ns","duration":"1000000000ns","preAllocatedVUs":1,"maxVUs":2}}},"scripts":{"default":[]}}
segment 0:1
sequence 0,1
entries 1000000
1 0 0 take 0 1 0
2 0 0 start 0 1 0 31000000000
3 0 500000000 grow 0 2 1
4 0 500000000 start 0 2 1 31000000000
5 0 1000000000 return 0 1 0 done 0
6 0 1000000000 release 0 1
7 0 1500000000 return 0 2 1 done 0
8 0 1500000000 release 0 2
9 0 1500000000 close 0
end 9
# interrupted
ldjournal 1
test 188
{"options":{"scenarios":{"main":{"executor":"constant-arrival-rate","rate":1,"timeUnit":"1000000000ns","duration":"1000000000ns","preAllocatedVUs":1,"maxVUs":1}}},"scripts":{"default":[]}}
segment 0:1
sequence 0,1
entries 1000000
1 0 0 take 0 1 0
2 0 0 start 0 1 0 31000000000
3 0 31000000000 return 0 1 0 interrupted 0
4 0 31000000000 release 0 1
5 0 31000000000 close 0
end 5
# full
ldjournal 1
test 188
{"options":{"scenarios":{"main":{"executor":"constant-arrival-rate","rate":4,"timeUnit":"1000000000ns","duration":"1000000000ns","preAllocatedVUs":1,"maxVUs":1}}},"scripts":{"default":[]}}
segment 0:1
sequence 0,1
entries 10
1 0 0 take 0 1 0
2 0 0 start 0 1 0 31000000000
3 0 100000000 return 0 1 0 done 0
4 0 250000000 start 0 1 1 31000000000
5 0 350000000 return 0 1 1 done 0
6 0 500000000 start 0 1 2 31000000000
7 0 600000000 return 0 1 2 done 0
8 0 750000000 start 0 1 3 31000000000
9 0 850000000 return 0 1 3 done 0
10 0 1000000000 release 0 1
end 10
# apart
ldjournal 1
test 188
{"options":{"scenarios":{"main":{"executor":"constant-arrival-rate","rate":1,"timeUnit":"1500000000ns","duration":"3000000000ns","preAllocatedVUs":1,"maxVUs":1}}},"scripts":{"default":[]}}
segment 0:1
sequence 0,1
entries 1000000
1 0 0 take 0 1 0
2 0 0 start 0 1 0 33000000000
3 0 500000000 return 0 1 0 done 0
4 0 1500000000 start 0 1 1 33000000000
5 0 2000000000 return 0 1 1 done 0
6 0 3000000000 release 0 1
7 0 3000000000 close 0
end 7
# minute
ldjournal 1
test 190
{"options":{"scenarios":{"main":{"executor":"constant-arrival-rate","rate":2,"timeUnit":"60000000000ns","duration":"60000000000ns","preAllocatedVUs":1,"maxVUs":1}}},"scripts":{"default":[]}}
segment 0:1
sequence 0,1
entries 1000000
1 0 0 take 0 1 0
2 0 0 start 0 1 0 90000000000
3 0 1500000000 return 0 1 0 done 0
4 0 30000000000 start 0 1 1 90000000000
5 0 31500000000 return 0 1 1 done 0
6 0 60000000000 release 0 1
7 0 60000000000 close 0
end 7
# first-half
ldjournal 1
test 141
{"options":{"scenarios":{"main":{"executor":"constant-arrival-rate","rate":4,"duration":"1s","preAllocatedVUs":2}}},"scripts":{"default":[]}}
segment 0:1/2
sequence 0,1/2,1
entries 1000000
1 0 0 take 0 1 0
2 0 0 start 0 1 0 31000000000
3 0 100000000 return 0 1 0 done 0
4 0 500000000 start 0 1 2 31000000000
5 0 600000000 return 0 1 2 done 0
6 0 1000000000 release 0 1
7 0 1000000000 close 0
end 7
# second-half
ldjournal 1
test 141
{"options":{"scenarios":{"main":{"executor":"constant-arrival-rate","rate":4,"duration":"1s","preAllocatedVUs":2}}},"scripts":{"default":[]}}
segment 1/2:1
sequence 0,1/2,1
entries 20
1 0 0 take 0 1 0
2 0 250000000 start 0 1 1 31000000000
3 0 350000000 return 0 1 1 done 0
4 0 750000000 start 0 1 3 31000000000
5 0 850000000 return 0 1 3 done 0
6 0 1000000000 release 0 1
7 0 1000000000 close 0
end 7
# in-turn
ldjournal 1
test 273
{"options":{"scenarios":{"second":{"executor":"constant-arrival-rate","startTime":"31s","rate":2,"duration":"1s","preAllocatedVUs":1,"maxVUs":2},"first":{"executor":"constant-arrival-rate","rate":2,"duration":"1s","preAllocatedVUs":1,"maxVUs":2}}},"scripts":{"default":[]}}
segment 0:1
sequence 0,1
entries 1000000
1 0 0 take 0 1 0
2 0 0 start 0 1 0 31000000000
3 0 500000000 grow 0 2 1
4 0 500000000 start 0 2 1 31000000000
5 0 1000000000 return 0 1 0 done 0
6 0 1000000000 release 0 1
7 0 1500000000 return 0 2 1 done 0
8 0 1500000000 release 0 2
9 0 1500000000 close 0
10 0 31000000000 take 1 1 0
11 0 31000000000 start 1 1 0 62000000000
12 0 31500000000 take 1 2 1
13 0 31500000000 start 1 2 1 62000000000
14 0 32000000000 return 1 1 0 done 0
15 0 32000000000 release 1 1
16 0 32500000000 return 1 2 1 done 0
17 0 32500000000 release 1 2
18 0 32500000000 close 1
end 18
# three-each
ldjournal 1
test 134
{"options":{"scenarios":{"main":{"executor":"per-vu-iterations","vus":1,"iterations":3,"maxDuration":"3s"}}},"scripts":{"default":[]}}
segment 0:1
sequence 0,1
entries 1000000
1 0 0 take 0 1 0
2 0 0 start 0 1 0 33000000000
3 0 2000000000 return 0 1 0 done 0
4 0 2000000000 start 0 1 1 33000000000
5 0 3000000000 drop 0 2
6 0 4000000000 return 0 1 1 done 0
7 0 4000000000 release 0 1
8 0 4000000000 close 0
end 8
# graceful
ldjournal 1
test 134
{"options":{"scenarios":{"main":{"executor":"constant-vus","vus":1,"duration":"1s","gracefulStop":"500ms"}}},"scripts":{"default":[]}}
segment 0:1
sequence 0,1
entries 1000000
1 0 0 take 0 1 0
2 0 0 start 0 1 0 1500000000
3 0 1500000000 return 0 1 0 done 0
4 0 1500000000 release 0 1
5 0 1500000000 close 0
end 5
# cut-off
ldjournal 1
test 134
{"options":{"scenarios":{"main":{"executor":"constant-vus","vus":1,"duration":"1s","gracefulStop":"500ms"}}},"scripts":{"default":[]}}
segment 0:1
sequence 0,1
entries 1000000
1 0 0 take 0 1 0
2 0 0 start 0 1 0 1500000000
3 0 1500000000 return 0 1 0 interrupted 0
4 0 1500000000 release 0 1
5 0 1500000000 close 0
end 5
# steady
ldjournal 1
test 112
{"options":{"scenarios":{"main":{"executor":"constant-vus","vus":1,"duration":"10s"}}},"scripts":{"default":[]}}
segment 0:1
sequence 0,1
entries 10
1 0 0 take 0 1 0
2 0 0 start 0 1 0 40000000000
3 0 1000000000 return 0 1 0 done 0
4 0 1000000000 start 0 1 0 40000000000
5 0 2000000000 return 0 1 0 done 0
6 0 2000000000 start 0 1 0 40000000000
7 0 3000000000 return 0 1 0 done 0
8 0 3000000000 start 0 1 0 40000000000
9 0 4000000000 return 0 1 0 done 0
end 9
# after
ldjournal 1
test 203
{"options":{"scenarios":{"a":{"executor":"constant-vus","vus":2,"duration":"10s","gracefulStop":"5s"},"b":{"executor":"constant-vus","vus":2,"startTime":"15s","duration":"1s"}}},"scripts":{"default":[]}}
segment 0:1
sequence 0,1
entries 1000000
1 0 0 take 0 1 0
2 0 0 take 0 2 1
3 0 0 start 0 1 0 15000000000
4 0 0 start 0 2 1 15000000000
5 0 8000000000 return 0 1 0 done 0
6 0 8000000000 return 0 2 1 done 0
7 0 8000000000 start 0 1 0 15000000000
8 0 8000000000 start 0 2 1 15000000000
9 0 15000000000 return 0 1 0 interrupted 0
10 0 15000000000 return 0 2 1 interrupted 0
11 0 15000000000 release 0 1
12 0 15000000000 release 0 2
13 0 15000000000 take 1 1 0
14 0 15000000000 take 1 2 1
15 0 15000000000 start 1 1 0 46000000000
16 0 15000000000 start 1 2 1 46000000000
17 0 15000000000 close 0
18 0 23000000000 return 1 1 0 done 0
19 0 23000000000 return 1 2 1 done 0
20 0 23000000000 release 1 1
21 0 23000000000 release 1 2
22 0 23000000000 close 1
end 22
# five-shared
ldjournal 1
test 115
{"options":{"scenarios":{"main":{"executor":"shared-iterations","vus":2,"iterations":5}}},"scripts":{"default":[]}}
segment 0:1
sequence 0,1
entries 1000000
1 0 0 take 0 1 0
2 0 0 take 0 2 1
3 0 0 start 0 1 0 630000000000
4 0 0 start 0 2 1 630000000000
5 0 1000000000 return 0 1 0 done 0
6 0 1000000000 return 0 2 1 done 0
7 0 1000000000 start 0 1 2 630000000000
8 0 1000000000 start 0 2 3 630000000000
9 0 2000000000 return 0 1 2 done 0
10 0 2000000000 return 0 2 3 done 0
11 0 2000000000 start 0 1 4 630000000000
12 0 2000000000 release 0 2
13 0 3000000000 return 0 1 4 done 0
14 0 3000000000 release 0 1
15 0 3000000000 close 0
end 15
# half-shared
ldjournal 1
test 115
{"options":{"scenarios":{"main":{"executor":"shared-iterations","vus":2,"iterations":5}}},"scripts":{"default":[]}}
segment 1/2:1
sequence 0,1/2,1
entries 1000000
1 0 0 take 0 1 0
2 0 0 start 0 1 1 630000000000
3 0 1000000000 return 0 1 1 done 0
4 0 1000000000 start 0 1 3 630000000000
5 0 2000000000 return 0 1 3 done 0
6 0 2000000000 release 0 1
7 0 2000000000 close 0
end 7
# mixed
ldjournal 1
test 254
{"options":{"scenarios":{"a":{"executor":"constant-arrival-rate","rate":2,"duration":"1s","preAllocatedVUs":1},"b":{"executor":"shared-iterations","vus":1,"iterations":2},"c":{"executor":"constant-vus","vus":1,"duration":"1s"}}},"scripts":{"default":[]}}
segment 0:1
sequence 0,1
entries 1000000
1 0 0 take 0 1 0
2 0 0 take 1 2 0
3 0 0 take 2 3 0
4 0 0 start 0 1 0 31000000000
5 0 0 start 1 2 0 630000000000
6 0 0 start 2 3 0 31000000000
7 0 400000000 return 0 1 0 done 0
8 0 400000000 return 1 2 0 done 0
9 0 400000000 return 2 3 0 done 0
10 0 400000000 start 1 2 1 630000000000
11 0 400000000 start 2 3 0 31000000000
12 0 500000000 start 0 1 1 31000000000
13 0 800000000 return 1 2 1 done 0
14 0 800000000 return 2 3 0 done 0
15 0 800000000 release 1 2
16 0 800000000 start 2 3 0 31000000000
17 0 800000000 close 1
18 0 900000000 return 0 1 1 done 0
19 0 1000000000 release 0 1
20 0 1000000000 close 0
21 0 1200000000 return 2 3 0 done 0
22 0 1200000000 release 2 3
23 0 1200000000 close 2
end 23
# counting
ldjournal 1
test 396
{"options":{"scenarios":{"main":{"executor":"constant-vus","vus":1,"duration":"1s"}}},"scripts":{"default":[{"count":{"name":"made"}},{"count":{"name":"made"}},{"count":{"name":"made"}},{"count":{"name":"made"}},{"count":{"name":"made"}},{"count":{"name":"made"}},{"count":{"name":"made"}},{"count":{"name":"made"}},{"count":{"name":"made"}},{"count":{"name":"made"}},{"count":{"name":"made"}}]}}
segment 0:1
sequence 0,1
entries 10
1 0 0 take 0 1 0
end 1
# grouped
ldjournal 1
test 208
{"options":{"scenarios":{"main":{"executor":"constant-vus","vus":1,"duration":"1s"}}},"scripts":{"default":[{"sleep":"1s"},{"group":{"name":"pay","steps":[{"count":{"name":"paid","add":3}},{"sleep":250}]}}]}}
segment 0:1
sequence 0,1
entries 1000000
1 0 0 take 0 1 0
2 0 0 start 0 1 0 31000000000
3 0 1000000000 return 0 1 0 done 0
4 0 1000000000 release 0 1
5 0 1000000000 close 0
end 5
# rising
ldjournal 1
test 170
{"options":{"scenarios":{"main":{"executor":"ramping-arrival-rate","startRate":0,"preAllocatedVUs":1,"stages":[{"duration":"1s","target":10}]}}},"scripts":{"default":[]}}
segment 0:1
sequence 0,1
entries 1000000
1 0 0 take 0 1 0
2 0 447213596 start 0 1 0 31000000000
3 0 547213596 return 0 1 0 done 0
4 0 632455533 start 0 1 1 31000000000
5 0 732455533 return 0 1 1 done 0
6 0 774596670 start 0 1 2 31000000000
7 0 874596670 return 0 1 2 done 0
8 0 894427191 start 0 1 3 31000000000
9 0 994427191 return 0 1 3 done 0
10 0 1000000000 release 0 1
11 0 1000000000 close 0
end 11
"#;

/// The test of this name, or else the text itself.
pub fn test_named(name: &str) -> &str {
    for row in TESTS.lines() {
        let (known, test) = row.split_once(' ').unwrap_or((row, ""));
        if known == name {
            return test;
        }
    }
    name
}

/// Appends the name of the journal that a text is, or of the first of which it is a front; or else the text itself.
pub fn put_journal(into: &mut String, text: &str) -> Result<(), Fail> {
    for section in JOURNALS.split("# ") {
        let (name, journal) = section.split_once('\n').unwrap_or((section, ""));
        if text == journal {
            into.push_str(name)?;
            return Ok(());
        }
        if journal.starts_with(text) {
            write!(into, "a front of {name}")?;
            return Ok(());
        }
    }
    write!(into, "{text:?}")?;
    Ok(())
}
