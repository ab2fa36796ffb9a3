// The words of one act.
ghost use Rattle.std.specs.Prelude.{◌≡◌, ◌++◌, ◌∷◌, [], codes, decimal, OnErr, OnOk};
ghost use Rattle.ld_line.specs.Line.{Grows, joined, word_text};
ghost use Rattle.ld_journal.specs.Journal.{act_words, command_words, flag_word, outcome_word};

use ld_base::{Act, BaseFault, Command, Outcome};
use ld_line::{Word, put_words};

// Appends the words of an act.
pub fn put_act(act: &Act, into: &mut Vec<u8>) -> Result<(), BaseFault>
    ensures ok { OnOk result (into.new.items ≡ into.old.items ++ joined (act_words act.now)) }
    ensures err { OnErr result (Grows into.old.items into.new.items) }
{
    match act {
        Act::Take {
            scenario,
            user,
            slot,
        } => put_held(b"take", *scenario, *user, *slot, into),
        Act::Grow {
            scenario,
            user,
            slot,
        } => put_held(b"grow", *scenario, *user, *slot, into),
        Act::Start {
            scenario,
            user,
            item,
            until,
        } => put_start(*scenario, *user, *item, *until, into),
        Act::Drop { scenario, item } => put_given_up(b"drop", *scenario, *item, into),
        Act::Late { scenario, item } => put_given_up(b"late", *scenario, *item, into),
        Act::Return {
            scenario,
            user,
            item,
            outcome,
            tally,
        } => put_return(*scenario, *user, *item, *outcome, tally.len(), into),
        Act::Release { scenario, user } => put_release(*scenario, *user, into),
        Act::Stop { scenario } => put_ended(b"stop", *scenario, into),
        Act::Close { scenario } => put_ended(b"close", *scenario, into),
        Act::Control { command } => put_command(*command, into),
    }
}

// Appends the words of an act by which a scenario holds one user more.
fn put_held(
    name: &[u8],
    scenario: u16,
    user: u32,
    slot: u32,
    into: &mut Vec<u8>,
) -> Result<(), BaseFault>
    ensures ok { OnOk result (into.new.items ≡ into.old.items ++ joined (name.now ∷ decimal scenario ∷ decimal user ∷ decimal slot ∷ [])) }
    ensures err { OnErr result (Grows into.old.items into.new.items) }
{
    put_words(
        into,
        &[
            Word::Text(name),
            Word::Number(scenario as u64),
            Word::Number(user as u64),
            Word::Number(slot as u64),
        ],
    )
}

// Appends the words of a Start.
fn put_start(
    scenario: u16,
    user: u32,
    item: u64,
    until: u64,
    into: &mut Vec<u8>,
) -> Result<(), BaseFault>
    ensures ok { OnOk result (into.new.items ≡ into.old.items ++ joined (act_words (Act.Start scenario user item until))) }
    ensures err { OnErr result (Grows into.old.items into.new.items) }
{
    put_words(
        into,
        &[
            Word::Text(b"start"),
            Word::Number(scenario as u64),
            Word::Number(user as u64),
            Word::Number(item),
            Word::Number(until),
        ],
    )
}

// Appends the words of an act by which an item is given up.
fn put_given_up(name: &[u8], scenario: u16, item: u64, into: &mut Vec<u8>) -> Result<(), BaseFault>
    ensures ok { OnOk result (into.new.items ≡ into.old.items ++ joined (name.now ∷ decimal scenario ∷ decimal item ∷ [])) }
    ensures err { OnErr result (Grows into.old.items into.new.items) }
{
    put_words(
        into,
        &[
            Word::Text(name),
            Word::Number(scenario as u64),
            Word::Number(item),
        ],
    )
}

// Appends the words of a Return with so many samples.
fn put_return(
    scenario: u16,
    user: u32,
    item: u64,
    outcome: Outcome,
    samples: u32,
    into: &mut Vec<u8>,
) -> Result<(), BaseFault>
    ensures ok { OnOk result (into.new.items ≡ into.old.items
        ++ joined (codes "return" ∷ decimal scenario ∷ decimal user ∷ decimal item ∷ outcome_word outcome ∷ decimal samples ∷ [])) }
    ensures err { OnErr result (Grows into.old.items into.new.items) }
{
    put_words(
        into,
        &[
            Word::Text(b"return"),
            Word::Number(scenario as u64),
            Word::Number(user as u64),
            Word::Number(item),
            outcome_word(outcome),
            Word::Number(samples as u64),
        ],
    )
}

// Appends the words of a Release.
fn put_release(scenario: u16, user: u32, into: &mut Vec<u8>) -> Result<(), BaseFault>
    ensures ok { OnOk result (into.new.items ≡ into.old.items ++ joined (act_words (Act.Release scenario user))) }
    ensures err { OnErr result (Grows into.old.items into.new.items) }
{
    put_words(
        into,
        &[
            Word::Text(b"release"),
            Word::Number(scenario as u64),
            Word::Number(user as u64),
        ],
    )
}

// Appends the words of an act that ends a scenario's work.
fn put_ended(name: &[u8], scenario: u16, into: &mut Vec<u8>) -> Result<(), BaseFault>
    ensures ok { OnOk result (into.new.items ≡ into.old.items ++ joined (name.now ∷ decimal scenario ∷ [])) }
    ensures err { OnErr result (Grows into.old.items into.new.items) }
{
    put_words(into, &[Word::Text(name), Word::Number(scenario as u64)])
}

// Appends the words of a command.
fn put_command(command: Command, into: &mut Vec<u8>) -> Result<(), BaseFault>
    ensures ok { OnOk result (into.new.items ≡ into.old.items ++ joined (codes "control" ∷ command_words command)) }
    ensures err { OnErr result (Grows into.old.items into.new.items) }
{
    match command {
        Command::Pause(paused) => put_words(
            into,
            &[Word::Text(b"control"), Word::Text(b"pause"), flag(paused)],
        ),
        Command::Stop => put_words(into, &[Word::Text(b"control"), Word::Text(b"stop")]),
        Command::Vus(users) => put_words(
            into,
            &[
                Word::Text(b"control"),
                Word::Text(b"vus"),
                Word::Number(users as u64),
            ],
        ),
        Command::VusMax(users) => put_words(
            into,
            &[
                Word::Text(b"control"),
                Word::Text(b"vus-max"),
                Word::Number(users as u64),
            ],
        ),
    }
}

// The word of an outcome.
fn outcome_word(outcome: Outcome) -> Word<'static>
    ensures { word_text result ≡ outcome_word outcome }
{
    match outcome {
        Outcome::Done => Word::Text(b"done"),
        Outcome::Interrupted => Word::Text(b"interrupted"),
    }
}

// The word of a flag.
pub fn flag(is_set: bool) -> Word<'static>
    ensures { word_text result ≡ flag_word is_set }
{
    if is_set {
        Word::Text(b"1")
    } else {
        Word::Text(b"0")
    }
}
