// How points are filled up.
ghost use Rattle.std.specs.Prelude.{◌≡◌, [], ◌∷◌, IfOk, length, if◌then◌else◌};
ghost use Rattle.ld_segment.specs.Segments.{filled, lacking_behind, lacking_front, one_point, zero_point};

use ld_num::Frac;
use std::alloc::{AllocError, Global};

// The point 0.
fn zero_point() -> Frac
    ensures { result ≡ zero_point }
{
    Frac { num: 0, den: 1 }
}

// The point 1.
fn one_point() -> Frac
    ensures { result ≡ one_point }
{
    Frac { num: 1, den: 1 }
}

// Whether points lack the point 0 in front.
fn lack_front(points: &[Frac]) -> bool
    ensures { lacking_front points.now ≡ (if result then zero_point ∷ [] else []) }
{
    match points.first() {
        Some(point) => point.num != 0,
        None => true,
    }
}

// Whether points lack the point 1 behind.
fn lack_behind(points: &[Frac]) -> bool
    ensures { lacking_behind points.now ≡ (if result then one_point ∷ [] else []) }
{
    match points.last() {
        Some(point) => point.num != point.den,
        None => true,
    }
}

// How many points there are when they are filled up.
pub fn filled_len(points: &[Frac]) -> u64
    ensures { result ≡ length (filled points.now) }
{
    let front = u64::from(lack_front(points));
    let behind = u64::from(lack_behind(points));
    points.len() as u64 + front + behind
}

// The points, filled up.
pub fn fill_points(alloc: Global, points: &[Frac]) -> Result<Vec<Frac>, AllocError>
    ensures { IfOk result (λ all. all.items ≡ filled points.now) }
{
    let mut all = front_of(alloc, points)?;
    all.extend_from_slice(points)?;
    if lack_behind(points) {
        all.push(one_point())?;
    }
    Ok(all)
}

// What points lack in front.
fn front_of(alloc: Global, points: &[Frac]) -> Result<Vec<Frac>, AllocError>
    ensures { IfOk result (λ front. front.items ≡ lacking_front points.now) }
{
    let mut front = Vec::new(alloc);
    if lack_front(points) {
        front.push(zero_point())?;
    }
    Ok(front)
}
