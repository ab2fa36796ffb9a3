use crate::text::{line_with, plan_line, segment_line, stripe_line, test_line};
use ld_base::BaseFault;
use ld_journal::JournalFault;
use ld_options::OptionsFault;
use ld_plan::PlanFault;
use ld_rehearsal::RehearsalFault;
use ld_segment::SegmentFault;
use ld_stripe::StripeFault;
use ld_summary::SummaryFault;
use ld_words::WordsFault;
use std::alloc::{AllocError, Global};
use thiserror::Error;

/// Why the words of a command line have no text.
#[derive(Debug, Drop, Error)]
pub enum Refusal {
    /// The word at this place, counted from 0, can't stand there, or the words end before it.
    #[error("the words are refused at place {0}")]
    Words(usize),
    /// The weights have no striping.
    #[error(transparent)]
    Stripe(StripeFault),
    /// The position is not below the number of weights.
    #[error("there is no position {0}")]
    NoSuchPosition(u32),
    /// The segment or the sequence is refused, or has no weights.
    #[error(transparent)]
    Segment(SegmentFault),
    /// The sequence has no segment that is equal to this one.
    #[error("the segment isn't in the sequence")]
    NotInSequence,
    /// The test's file wasn't read.
    #[error("the file wasn't read")]
    Read,
    /// The file that the word at this place names is too long.
    #[error("the file at place {0} is too long")]
    TooLong(usize),
    /// The test's document is refused.
    #[error(transparent)]
    Test(OptionsFault),
    /// The test has no plan.
    #[error(transparent)]
    Plan(PlanFault),
    /// There is no memory left.
    #[error("out of memory")]
    Memory,
}

impl Refusal {
    ghost use Rattle.std.specs.Prelude.{◌≡◌, IfOk};
    ghost use Rattle.ld_answer.specs.RefusalLine.{line_of, status_of};

    /// The status that the program ends with: 2 for words, 3 for a file that wasn't read, 11 for one that is
    /// too long, 5 for what is refused of all that they name, 9 for memory.
    pub fn status(&self) -> u8
        ensures { result ≡ status_of self.now }
    {
        match self {
            Refusal::Words(_) => 2,
            Refusal::Read => 3,
            Refusal::TooLong(_) => 11,
            Refusal::Stripe(StripeFault::Memory)
            | Refusal::Segment(SegmentFault::Memory)
            | Refusal::Test(OptionsFault::Memory)
            | Refusal::Plan(PlanFault::Memory)
            | Refusal::Memory => 9,
            Refusal::Stripe(_)
            | Refusal::NoSuchPosition(_)
            | Refusal::Segment(_)
            | Refusal::NotInSequence
            | Refusal::Test(_)
            | Refusal::Plan(_) => 5,
        }
    }

    /// The line that says the refusal on standard error.
    pub fn line(&self, alloc: Global) -> Result<Vec<u8>, BaseFault>
        ensures { IfOk result (λ line. line.items ≡ line_of self.now) }
    {
        match self {
            Refusal::Words(place) => line_with(alloc, b"error words ", *place as u64),
            Refusal::Stripe(fault) => stripe_line(alloc, fault),
            Refusal::NoSuchPosition(position) => {
                line_with(alloc, b"error 22 NoSuchPosition ", *position as u64)
            }
            Refusal::Segment(fault) => segment_line(alloc, fault),
            Refusal::NotInSequence => Ok(Vec::from_slice(alloc, b"error 15 NotInSequence\n")?),
            Refusal::Read => Ok(Vec::from_slice(alloc, b"error read\n")?),
            Refusal::TooLong(place) => line_with(alloc, b"error too-long ", *place as u64),
            Refusal::Test(fault) => test_line(alloc, fault),
            Refusal::Plan(fault) => plan_line(alloc, fault),
            Refusal::Memory => Ok(Vec::from_slice(alloc, b"error memory\n")?),
        }
    }
}

impl From<AllocError> for Refusal {
    ghost use Rattle.std.specs.Prelude.{◌≡◌};
    ghost use Rattle.ld_answer.specs.declared.refusal.Refusal.TheVariants.{Memory};

    ghost from_gives = { λ _ refusal. refusal ≡ Memory };

    fn from(_error: AllocError) -> Refusal {
        Refusal::Memory
    }
}

impl From<BaseFault> for Refusal {
    ghost use Rattle.std.specs.Prelude.{◌≡◌};
    ghost use Rattle.ld_answer.specs.declared.refusal.Refusal.TheVariants.{Memory};

    ghost from_gives = { λ _ refusal. refusal ≡ Memory };

    fn from(_fault: BaseFault) -> Refusal {
        Refusal::Memory
    }
}

impl From<WordsFault> for Refusal {
    ghost use Rattle.ld_answer.specs.Faults.{of_words};
    ghost use Rattle.std.specs.Prelude.{◌≡◌};

    ghost from_gives = { λ fault refusal. refusal ≡ of_words fault };

    fn from(fault: WordsFault) -> Refusal {
        match fault {
            WordsFault::Refused(place) => Refusal::Words(place),
            WordsFault::Memory => Refusal::Memory,
        }
    }
}

impl From<StripeFault> for Refusal {
    ghost use Rattle.ld_answer.specs.Faults.{of_stripe};
    ghost use Rattle.std.specs.Prelude.{◌≡◌};

    ghost from_gives = { λ fault refusal. refusal ≡ of_stripe fault };

    fn from(fault: StripeFault) -> Refusal {
        match fault {
            StripeFault::Memory => Refusal::Memory,
            fault => Refusal::Stripe(fault),
        }
    }
}

impl From<SegmentFault> for Refusal {
    ghost use Rattle.ld_answer.specs.Faults.{of_segment};
    ghost use Rattle.std.specs.Prelude.{◌≡◌};

    ghost from_gives = { λ fault refusal. refusal ≡ of_segment fault };

    fn from(fault: SegmentFault) -> Refusal {
        match fault {
            SegmentFault::Memory => Refusal::Memory,
            fault => Refusal::Segment(fault),
        }
    }
}

impl From<RehearsalFault> for Refusal {
    ghost use Rattle.std.specs.Prelude.{◌≡◌};
    ghost use Rattle.ld_answer.specs.declared.refusal.Refusal.TheVariants.{Memory};

    ghost from_gives = { λ _ refusal. refusal ≡ Memory };

    fn from(_fault: RehearsalFault) -> Refusal {
        Refusal::Memory
    }
}

impl From<JournalFault> for Refusal {
    ghost use Rattle.std.specs.Prelude.{◌≡◌};
    ghost use Rattle.ld_answer.specs.declared.refusal.Refusal.TheVariants.{Memory};

    ghost from_gives = { λ _ refusal. refusal ≡ Memory };

    fn from(_fault: JournalFault) -> Refusal {
        Refusal::Memory
    }
}

impl From<SummaryFault> for Refusal {
    ghost use Rattle.std.specs.Prelude.{◌≡◌};
    ghost use Rattle.ld_answer.specs.declared.refusal.Refusal.TheVariants.{Memory};

    ghost from_gives = { λ _ refusal. refusal ≡ Memory };

    fn from(_fault: SummaryFault) -> Refusal {
        Refusal::Memory
    }
}

impl From<OptionsFault> for Refusal {
    ghost use Rattle.ld_answer.specs.Faults.{of_options};
    ghost use Rattle.std.specs.Prelude.{◌≡◌};

    ghost from_gives = { λ fault refusal. refusal ≡ of_options fault };

    fn from(fault: OptionsFault) -> Refusal {
        match fault {
            OptionsFault::Memory => Refusal::Memory,
            fault => Refusal::Test(fault),
        }
    }
}

impl From<PlanFault> for Refusal {
    ghost use Rattle.ld_answer.specs.Faults.{of_plan};
    ghost use Rattle.std.specs.Prelude.{◌≡◌};

    ghost from_gives = { λ fault refusal. refusal ≡ of_plan fault };

    fn from(fault: PlanFault) -> Refusal {
        match fault {
            PlanFault::Memory => Refusal::Memory,
            fault => Refusal::Plan(fault),
        }
    }
}
