// Desks: the trait by which a crew thread sees a pool and the pool's board, with two desks of a test.
ghost use Rattle.std.specs.Prelude.{◌≡◌, ℕ, true, false, ◌<◌, ◌++◌, ◌∷◌, [], if◌then◌else◌, IfSome, IsSomeAnd, IsTrue, None, Some, map};
ghost use Rattle.ld_base.specs.Desk.{FitsScript, Glanced, Raised, scenario_count};
ghost use Rattle.ld_base.specs.Stint.{stint_of};

use crate::tests::replies::{Said, told};
use ld_base::{Ask, Command, Desk, Reply, Stint, Tally};
use std::alloc::Global;
use std::test::Fail;

// A desk of one scenario with room for two samples, a name with two checks and a counter's name, and a board of two
// words. It gives one stint at a time, and tells nothing.
#[derive(Drop)]
struct OneStintDesk {
    words: [u64; 2],
    is_out: bool,
}

impl Desk for OneStintDesk {
    ghost seen = { λ d. record {
      words = 2;
      names = record { counter = false; checks = 2 } ∷ record { counter = true; checks = 0 } ∷ [];
      rooms = 2 ∷ [];
      out = (if d.is_out then stint_of 0 1 0 100 ∷ [] else []);
      told = None;
    } };

    fn ask(&mut self, ask: Ask, reading: u64) -> Reply {
        match ask {
            Ask::Act => {
                if self.is_out {
                    Reply::Wait(reading)
                } else {
                    self.is_out = true;
                    Reply::Run(Stint::new(0, 1, 0, 100))
                }
            }
            Ask::Return {
                stint,
                finished: _,
                tally: _,
            } => {
                stint.spend();
                self.is_out = false;
                Reply::Noted
            }
            Ask::Check { scenario: _ } => Reply::Go,
            Ask::Look => Reply::Over,
            Ask::Control(_) => Reply::Denied,
        }
    }

    fn glance(&mut self, word: u16) -> u64 {
        self.words[word as usize]
    }

    fn raise(&mut self, word: u16, level: u64) {
        let held = self.words[word as usize];
        self.words[word as usize] = held.max(level);
    }
}

// One turn that a desk keeps, with its reading.
#[derive(Clone, Copy)]
enum KeptTurn {
    Acted(u64),
    Looked(u64),
    Commanded(Command, u64),
}

// One use of the board that a desk keeps: a word, and the level at which it was found or to which it was raised.
#[derive(Clone, Copy)]
enum KeptUse {
    Found(u16, u64),
    Lifted(u16, u64),
}

// A desk of a test without scenarios, which is over from the start, and a board whose words stay at 0 until they are
// raised. It tells its past as long as its room lasts.
#[derive(Drop)]
struct OverDesk {
    words: [u64; 2],
    turns: Vec<KeptTurn>,
    uses: Vec<KeptUse>,
    tells: bool,
}

impl OverDesk {
    // Keeps a turn, or tells nothing from now on.
    fn keep_turn(&mut self, turn: KeptTurn)
        ensures told { IsTrue self.new.tells → IsTrue self.old.tells }
        ensures kept { IsTrue self.new.tells → self.new.turns.items ≡ self.old.turns.items ++ turn ∷ [] }
        ensures uses { self.new.uses.items ≡ self.old.uses.items }
    {
        if self.turns.len() < self.turns.capacity() {
            self.turns.push(turn).unwrap();
        } else {
            self.tells = false;
        }
    }

    // Keeps a use of the board, or tells nothing from now on.
    fn keep_use(&mut self, done: KeptUse)
        ensures told { IsTrue self.new.tells → IsTrue self.old.tells }
        ensures kept { IsTrue self.new.tells → self.new.uses.items ≡ self.old.uses.items ++ done ∷ [] }
        ensures turns { self.new.turns.items ≡ self.old.turns.items }
    {
        if self.uses.len() < self.uses.capacity() {
            self.uses.push(done).unwrap();
        } else {
            self.tells = false;
        }
    }
}

impl Desk for OverDesk {
    ghost use Rattle.ld_base.specs.declared.ask.Ask.TheVariants.{Act, Control, Look};
    ghost use Rattle.ld_pool_rows.specs.declared.tests.desk.KeptTurn.TheVariants.{Acted, Commanded, Looked};
    ghost use Rattle.ld_pool_rows.specs.declared.tests.desk.KeptUse.TheVariants.{Found, Lifted};
    ghost use Rattle.ld_base.specs.declared.reply.Reply.TheVariants.{Denied, Over};
    ghost use Rattle.ld_base.specs.Desk.{Glanced, Raised, turn_of};

    ghost seen = { λ d. record {
      words = 2;
      names = [];
      rooms = [];
      out = [];
      told = (
          if d.tells
          then Some (record {
            turns = map (elim [
              | Acted reading ↦ turn_of Act reading Over
              | Looked reading ↦ turn_of Look reading Over
              | Commanded command reading ↦ turn_of (Control command) reading Denied
            ]) d.turns.items;
            uses = map (elim [
              | Found word level ↦ Glanced word level
              | Lifted word level ↦ Raised word level
            ]) d.uses.items;
          })
          else None
          );
    } };

    fn ask(&mut self, ask: Ask, reading: u64) -> Reply {
        match ask {
            Ask::Act => {
                self.keep_turn(KeptTurn::Acted(reading));
                Reply::Over
            }
            Ask::Look => {
                self.keep_turn(KeptTurn::Looked(reading));
                Reply::Over
            }
            Ask::Control(command) => {
                self.keep_turn(KeptTurn::Commanded(command, reading));
                Reply::Denied
            }
            Ask::Check { scenario: _ } => unreachable!(),
            Ask::Return {
                stint,
                finished: _,
                tally: _,
            } => {
                stint.spend();
                unreachable!()
            }
        }
    }

    fn glance(&mut self, word: u16) -> u64 {
        let level = self.words[word as usize];
        self.keep_use(KeptUse::Found(word, level));
        level
    }

    fn raise(&mut self, word: u16, level: u64) {
        let held = self.words[word as usize];
        self.words[word as usize] = held.max(level);
        self.keep_use(KeptUse::Lifted(word, level));
    }
}

// Takes one turn at a desk, and hands the stint that it may give back at once, with a tally that fits each of its
// scripts: what the desk replies to its last ask.
fn plays_one<D: Desk>(desk: &mut D, tally: Tally) -> Said
    requires idle { (D.seen desk.old).out ≡ [] }
    requires fits { (scenario : ℕ) → scenario < scenario_count (D.seen desk.old) →
        FitsScript (D.seen desk.old) scenario tally }
    ensures { (D.seen desk.new).out ≡ [] }
{
    match desk.ask(Ask::Act, 5) {
        Reply::Run(stint) => {
            let ask = Ask::Return {
                stint,
                finished: true,
                tally,
            };
            told(desk.ask(ask, 9))
        }
        other => told(other),
    }
}

// Raises the first word of a desk's board and glances at it.
fn raises_first<D: Desk>(desk: &mut D, level: u64) -> u64
    requires { 0 < (D.seen desk.old).words }
    ensures { IfSome
        (D.seen desk.new).told
        (λ now.
        IsSomeAnd
        (D.seen desk.old).told
        (λ past. now.uses ≡ past.uses ++ Raised 0 level ∷ Glanced 0 result ∷ [])) }
{
    desk.raise(0, level);
    desk.glance(0)
}

/// A stint goes out and comes back, and a word stays where it stands higher.
#[test]
fn a_stint_goes_out_and_comes_back(rt: HostRuntime) -> Result<(), Fail> {
    let mut desk = OneStintDesk {
        words: [0, 3],
        is_out: false,
    };
    let said = plays_one(&mut desk, Tally::empty(rt.alloc()));
    desk.raise(1, 2);
    let (raised, stayed) = (raises_first(&mut desk, 2), desk.glance(1));
    let text = format!(in rt.alloc(); "{said:?} {raised} {stayed}")?;
    assert!(rt; text.as_str() == "Noted 2 3", "{text}");
    Ok(())
}

/// A desk tells its past.
#[test]
fn a_desk_tells_its_past(rt: HostRuntime) -> Result<(), Fail> {
    let alloc = rt.alloc();
    let mut desk = OverDesk {
        words: [0, 0],
        turns: Vec::with_capacity(alloc, 1)?,
        uses: Vec::with_capacity(alloc, 2)?,
        tells: true,
    };
    let said = plays_one(&mut desk, Tally::empty(alloc));
    let level = raises_first(&mut desk, 7);
    let text = format!(in alloc; "{said:?} {level} {}", desk.tells)?;
    assert!(rt; text.as_str() == "Over 7 true", "{text}");
    Ok(())
}
