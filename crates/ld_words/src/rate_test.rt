// The test that the options of `rehearse` stand for.
ghost use Rattle.std.specs.Prelude.{◌≡◌, ◌++◌, IfErr, OnOk, OnErr, decimal};
ghost use Rattle.ld_words.specs.RateTest.{duration_text, rate_test, IsBehind};
ghost use Rattle.ld_words.specs.declared.fault.WordsFault.{WordsFault};

use crate::fault::WordsFault;
use ld_base::put_number;
use ld_num::print_duration;

/// Appends the test of one scenario at a constant arrival rate whose script has no steps, as one line
/// without a line feed: `rate` iterations begin in each `unit`, for `duration`, by `pre` users that are
/// made before and at most `max` users. `unit` and `duration` are nanoseconds. Any numbers are put in,
/// also such that no test may have.
///
/// Fails where the allocator gives no memory for it; `into` is then as before.
pub fn rate_test_text(
    rate: u32,
    unit: u64,
    duration: u64,
    pre: u32,
    max: u32,
    into: &mut Vec<u8>,
) -> Result<(), WordsFault>
    ensures ok { OnOk result (into.new.items ≡ into.old.items ++ rate_test rate unit duration pre max) }
    ensures err { OnErr result (into.new.items ≡ into.old.items) }
    ensures only_memory { IfErr result (λ f. f ≡ WordsFault.Memory) }
{
    let before = into.len();
    if put_rate_test(rate, unit, duration, pre, max, into).is_err() {
        into.truncate(before);
        return Err(WordsFault::Memory);
    }
    Ok(())
}

// Appends the test; where memory fails, a front of it may stand behind what was there.
fn put_rate_test(
    rate: u32,
    unit: u64,
    duration: u64,
    pre: u32,
    max: u32,
    into: &mut Vec<u8>,
) -> Result<(), WordsFault>
    ensures ok { OnOk result (into.new.items ≡ into.old.items ++ rate_test rate unit duration pre max) }
    ensures err { OnErr result (IsBehind into.old.items into.new.items) }
{
    into.extend_from_slice(
        b"{\"options\":{\"scenarios\":{\"main\":{\"executor\":\"constant-arrival-rate\"",
    )?;
    put_count(b",\"rate\":", rate, into)?;
    put_duration(b",\"timeUnit\":\"", unit, into)?;
    put_duration(b"\",\"duration\":\"", duration, into)?;
    put_count(b"\",\"preAllocatedVUs\":", pre, into)?;
    put_count(b",\"maxVUs\":", max, into)?;
    into.extend_from_slice(b"}}},\"scripts\":{\"default\":[]}}")?;
    Ok(())
}

// Appends a piece of text and a number.
fn put_count(front: &[u8], number: u32, into: &mut Vec<u8>) -> Result<(), WordsFault>
    ensures ok { OnOk result (into.new.items ≡ into.old.items ++ front.now ++ decimal number) }
    ensures err { OnErr result (IsBehind into.old.items into.new.items) }
{
    into.extend_from_slice(front)?;
    match put_number(into, number as u64) {
        Ok(()) => Ok(()),
        Err(_) => Err(WordsFault::Memory),
    }
}

// Appends a piece of text and a duration.
fn put_duration(front: &[u8], nanoseconds: u64, into: &mut Vec<u8>) -> Result<(), WordsFault>
    ensures ok { OnOk result (into.new.items ≡ into.old.items ++ front.now ++ duration_text nanoseconds) }
    ensures err { OnErr result (IsBehind into.old.items into.new.items) }
{
    into.extend_from_slice(front)?;
    match print_duration(nanoseconds, into) {
        Ok(()) => Ok(()),
        Err(_) => Err(WordsFault::Memory),
    }
}
