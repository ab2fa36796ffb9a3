// The words of a command line.
ghost use Rattle.std.specs.Prelude.{◌≡◌, ◌≢◌, IfOk, IfErr, map, string_bytes};
ghost use Rattle.clap.specs.Values.{kind_of};
ghost use Rattle.ld_words.specs.Words.{Asks, IsRefused};
ghost use Rattle.ld_words.specs.declared.fault.WordsFault.{WordsFault};

use crate::fault::WordsFault;
use crate::form::form_read;
use crate::meaning::meaning;
use crate::reader::read_form;
use crate::taken::take_values;
use crate::weights::Weights;
use clap::Error;
use clap::error::ErrorKind;
use ld_base::Text;
use std::alloc::Global;

/// What the words of a command line ask for. An option that isn't given is `None`.
#[derive(Drop)]
pub enum Words {
    /// `stripe WEIGHTS POSITION N`: the indices below `count` that the position owns.
    StripeWeights {
        weights: Weights,
        position: u32,
        count: u32,
    },
    /// `stripe N [--segment S] [--sequence S]`: the indices below `count` that the segment owns.
    StripeSegment {
        count: u32,
        segment: Option<Text>,
        sequence: Option<Text>,
    },
    /// `plan TEST [--segment S] [--sequence S] [--entries N] [--list]`: what a part of a test needs, and its
    /// moments too where it is `listed`. `entries` is 10 to 1,000,000.
    Plan {
        test: Text,
        segment: Option<Text>,
        sequence: Option<Text>,
        entries: Option<u32>,
        listed: bool,
    },
    /// `rehearse TEST --iteration D --journal NAME [--segment S] [--sequence S] [--entries N]`: a part of a
    /// test, played with iterations that all take as long. `iteration` is nanoseconds, at least 1; `entries`
    /// is 10 to 1,000,000.
    RehearseTest {
        test: Text,
        iteration: u64,
        journal: Text,
        segment: Option<Text>,
        sequence: Option<Text>,
        entries: Option<u32>,
    },
    /// `rehearse --rate N --unit D --duration D --pre N --max N --iteration D --journal NAME [--entries N]`:
    /// a test at a constant arrival rate, played with iterations that all take as long. `unit`, `duration`
    /// and `iteration` are nanoseconds, at least 1; `entries` is 10 to 1,000,000.
    RehearseWords {
        rate: u32,
        unit: u64,
        duration: u64,
        pre: u32,
        max: u32,
        iteration: u64,
        journal: Text,
        entries: Option<u32>,
    },
    /// `help`: the lines of all commands.
    Help,
}

/// Reads the words of a command line.
///
/// Words that are no command are refused at the least place, counted from 0, whose word can't stand
/// there behind the words before it; where the end comes too early, at the number of words. The place is
/// that of the form that the whole line picks: the first word tells the form; for `stripe` also whether
/// some word begins with `--`, wherever it stands, and for `rehearse` whether the word behind it does.
pub fn read_words(alloc: Global, words: &[String]) -> Result<Words, WordsFault>
    ensures asked { IfOk result (Asks (map string_bytes words.now)) }
    ensures refused { IfErr result (λ f. f ≢ WordsFault.Memory → IsRefused (map string_bytes words.now) f) }
{
    let form = form_read(words);
    read_form(alloc, form, words)?;
    let taken = match take_values(alloc, form, words) {
        Ok(taken) => taken,
        Err(error) => return Err(want_of_memory(error)),
    };
    match meaning(alloc, form, &taken) {
        Ok(request) => Ok(request),
        Err(_) => Err(WordsFault::Memory),
    }
}

// The fault that clap's want of memory is.
fn want_of_memory(_error: Error) -> WordsFault
    requires { kind_of _error ≡ ErrorKind.OutOfMemory }
    ensures { result ≡ WordsFault.Memory }
{
    WordsFault::Memory
}
