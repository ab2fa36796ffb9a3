ghost use Rattle.std.specs.Prelude.{◌≡◌};

use std::marker::Model;

/// One user's leave to play one iteration, known by its four numbers alone.
///
/// A stint can't be dropped, so whoever is given one hands it back or spends it.
pub struct Stint {
    scenario: u16,
    user: u32,
    item: u64,
    until: u64,
}

impl Model for Stint {
    ghost use Rattle.ld_base.specs.Stint.{StintView};

    ghost Value = { StintView };

    ghost use Rattle.ld_base.specs.Stint.{stint_of};

    ghost view = { λ s. stint_of s.scenario s.user s.item s.until };
}

impl Stint {
    ghost use Rattle.ld_base.specs.Stint.{stint_of};

    /// The stint of these numbers: the scenario's number, from 0 in byte order of the scenarios'
    /// names; the user's number, from 1; the item that is played; and the moment at which the
    /// iteration is to have ended, in nanoseconds from the run's start.
    pub fn new(scenario: u16, user: u32, item: u64, until: u64) -> Stint
        ensures { result ≡ stint_of scenario user item until }
    {
        Stint {
            scenario,
            user,
            item,
            until,
        }
    }

    /// The scenario's number, from 0 in byte order of the scenarios' names.
    pub fn scenario(&self) -> u16
        ensures { result ≡ self.now.scenario }
    {
        self.scenario
    }

    /// The user's number, from 1.
    pub fn user(&self) -> u32
        ensures { result ≡ self.now.user }
    {
        self.user
    }

    /// The item that is played.
    pub fn item(&self) -> u64
        ensures { result ≡ self.now.item }
    {
        self.item
    }

    /// The moment at which the iteration is to have ended, in nanoseconds from the run's start.
    pub fn until(&self) -> u64
        ensures { result ≡ self.now.until }
    {
        self.until
    }

    /// Ends the stint's life.
    pub fn spend(self) {
        let Stint {
            scenario: _,
            user: _,
            item: _,
            until: _,
        } = self;
    }
}
