// How points are printed.
ghost use Rattle.std.specs.Prelude.{◌≡◌, ◌++◌, ◌∷◌, ℕ, List, OnErr, OnOk, decimal};
ghost use Rattle.ld_num.specs.declared.fraction.Frac.{Frac};
ghost use Rattle.ld_segment.specs.Printed.{next_text, point_text, segment_text, sequence_text, Grows};

use itoa::Buffer;
use ld_num::Frac;
use std::alloc::AllocError;

// Appends a segment from one point to another.
pub fn put_segment(from: &Frac, to: &Frac, into: &mut Vec<u8>) -> Result<(), AllocError>
    ensures ok { OnOk result (into.new.items ≡ into.old.items ++ segment_text from.now to.now) }
    ensures err { OnErr result (Grows into.old.items into.new.items) }
{
    put_point(from, into)?;
    into.push(b':')?;
    put_point(to, into)
}

// Appends points, joined by commas.
pub fn put_points(points: &[Frac], into: &mut Vec<u8>) -> Result<(), AllocError>
    ensures ok { OnOk result (into.new.items ≡ into.old.items ++ sequence_text points.now) }
    ensures err { OnErr result (Grows into.old.items into.new.items) }
{
    for (place, point) in points.iter().enumerate() {
        put_next(point, place > 0, into)?;
    }
    Ok(())
}

// Appends a point, behind a comma where it follows another.
fn put_next(point: &Frac, follows: bool, into: &mut Vec<u8>) -> Result<(), AllocError>
    ensures ok { OnOk result (into.new.items ≡ into.old.items ++ next_text follows point.now) }
    ensures err { OnErr result (Grows into.old.items into.new.items) }
{
    if follows {
        into.push(b',')?;
    }
    put_point(point, into)
}

// Appends a point: `0`, `1`, or a quotient in lowest terms.
fn put_point(point: &Frac, into: &mut Vec<u8>) -> Result<(), AllocError>
    ensures ok { OnOk result (into.new.items ≡ into.old.items ++ point_text point.now) }
    ensures err { OnErr result (Grows into.old.items into.new.items) }
{
    put_number(point.num, into)?;
    if point.den == 1 {
        return Ok(());
    }
    into.push(b'/')?;
    put_number(point.den, into)
}

// Appends a number.
fn put_number(number: u64, into: &mut Vec<u8>) -> Result<(), AllocError>
    ensures ok { OnOk result (into.new.items ≡ into.old.items ++ decimal number) }
    ensures err { OnErr result (into.new.items ≡ into.old.items) }
{
    let mut buffer = Buffer::new();
    into.extend_from_slice(buffer.format(number).as_bytes())
}
