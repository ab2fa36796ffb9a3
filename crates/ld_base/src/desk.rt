ghost use Rattle.std.specs.Prelude.{◌≡◌, ◌<◌};
ghost use Rattle.ld_base.specs.Desk.{DeskView, Glanced, KeepsTest, MayAsk, MovesStints, Raised, TellsTurn, TellsUse, scenario_count, turn_of};
ghost use Rattle.ld_base.specs.Reply.{IsReplyTo};

use crate::ask::Ask;
use crate::reply::Reply;

/// A crew thread's view of a pool and of the pool's board of words.
///
/// A desk is seen as its number of words, the names and the sample rooms of its test, and the
/// stints that it gave and that weren't returned. It may also tell its past: its turns, and its
/// glances and raises, each in order. A desk that tells its past after a call told it before too.
pub trait Desk {
    ghost seen: { Self → DeskView };

    /// Takes one turn at the pool, at a reading of the clock, in nanoseconds from the run's start.
    ///
    /// A Return is of a stint that this desk gave and that wasn't returned, with a tally that fits
    /// the script's room and the test's names. A Check names a scenario. The reply is of the kind
    /// that the ask calls for, and a scenario that it names is one of the test's.
    fn ask(&mut self, ask: Ask, reading: u64) -> Reply
        requires { MayAsk (seen self.old) ask }
        ensures reply { IsReplyTo (scenario_count (seen self.old)) ask result }
        ensures out { MovesStints (seen self.old).out (seen self.new).out ask result }
        ensures told { TellsTurn (seen self.old).told (seen self.new).told (turn_of ask reading result) }
        ensures test { KeepsTest (seen self.old) (seen self.new) };

    /// The level at which a word of the board is found. The words count from 0.
    fn glance(&mut self, word: u16) -> u64
        requires { word < (seen self.old).words }
        ensures out { (seen self.new).out ≡ (seen self.old).out }
        ensures told { TellsUse (seen self.old).told (seen self.new).told (Glanced word result) }
        ensures test { KeepsTest (seen self.old) (seen self.new) };

    /// Raises a word of the board to a level, and leaves it where it stands higher. The words
    /// count from 0.
    fn raise(&mut self, word: u16, level: u64)
        requires { word < (seen self.old).words }
        ensures out { (seen self.new).out ≡ (seen self.old).out }
        ensures told { TellsUse (seen self.old).told (seen self.new).told (Raised word level) }
        ensures test { KeepsTest (seen self.old) (seen self.new) };
}
