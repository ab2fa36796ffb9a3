// The laws of segments and sequences, over all points.
ghost use Rattle.std.specs.Prelude.{◌≡◌, ◌<◌, ◌≤◌, ◌+◌, ◌++◌, [], ◌∷◌, ℕ, List, Some, length, slice_get};
ghost use Rattle.std.specs.List.{AllByRecursion};
ghost use Rattle.ld_num.specs.declared.fraction.Frac.{Frac};
ghost use Rattle.ld_segment.specs.Points.{IsAtMostOne, IsBelow, IsFilled};
ghost use Rattle.ld_segment.specs.Segments.{filled, lacking_front, segments_of, IsSequence};
ghost use Rattle.ld_segment.specs.Values.{segment_values, sequence_values, ArePoints};
ghost use Rattle.ld_segment.specs.Printed.{segment_text, sequence_text, IsShort};
ghost use Rattle.ld_segment.specs.Refusal.{IsPartsRefusal, IsSegmentRefusal, IsSequenceRefusal};
ghost use Rattle.ld_segment.specs.declared.fault.SegmentFault.{SegmentFault};
ghost use Rattle.ld_segment.specs.declared.segment.Segment.{Segment};

/// A filled sequence begins at 0 and ends at 1. It keeps the given points next to each other and in
/// order, with one point more at each side at most, and adds none where it is whole already. So each
/// segment stands in it, behind the one that is added in front.
pub fn filled_points()
    ensures whole { (points : List Frac) → IsSequence points → IsFilled (filled points) }
    ensures kept { (points : List Frac) → (front : List Frac) × ((behind : List Frac) × (filled points ≡ front ++ points ++ behind) × (length front ≤ 1) × (length behind ≤ 1)) }
    ensures once { (points : List Frac) → IsFilled points → filled points ≡ points }
    ensures segments { (points : List Frac) (k : ℕ) (s : Frac × Frac) → slice_get (segments_of points) k ≡ Some s →
        slice_get (segments_of (filled points)) (length (lacking_front points) + k) ≡ Some s }
{}

/// Each segment begins where the one before it ends.
pub fn segments_meet()
    ensures { (points : List Frac) (k : ℕ) (s t : Frac × Frac) → slice_get (segments_of points) k ≡ Some s →
        slice_get (segments_of points) (k + 1) ≡ Some t → t.0 ≡ s.1 }
{}

/// Each segment of a sequence ends above the point where it begins, and at 1 at most.
pub fn segments_rise()
    ensures { (points : List Frac) (k : ℕ) (s : Frac × Frac) → IsSequence points → slice_get (segments_of points) k ≡ Some s →
        IsBelow s.0 s.1 × IsAtMostOne s.1 }
{}

/// A segment stands at one position of a sequence at most.
pub fn one_position()
    ensures { (points : List Frac) (j k : ℕ) (s : Frac × Frac) → IsSequence points → slice_get (segments_of points) j ≡ Some s →
        slice_get (segments_of points) k ≡ Some s → j ≡ k }
{}

/// Values are written for one list of points at most.
pub fn one_reading()
    ensures { (values : List (List ℕ)) (a b : List Frac) → ArePoints values a → ArePoints values b → a ≡ b }
{}

/// What is refused is refused with one fault, so the order in which it is looked at decides each.
pub fn one_refusal()
    ensures segment { (text : List ℕ) (f g : SegmentFault) → IsSegmentRefusal text f → IsSegmentRefusal text g → f ≡ g }
    ensures sequence { (text : List ℕ) (f g : SegmentFault) → IsSequenceRefusal text f → IsSequenceRefusal text g → f ≡ g }
    ensures parts { (parts : List Segment) (f g : SegmentFault) → IsPartsRefusal parts f → IsPartsRefusal parts g → f ≡ g }
{}

/// What is printed of a segment whose numbers have nine digits at most is accepted, and reads again as
/// the same segment.
pub fn segments_read_back()
    ensures value { (s : Segment) → IsShort s.from → IsShort s.to → ArePoints (segment_values (segment_text s.from s.to)) (s.from ∷ s.to ∷ []) }
    ensures accepted { (s : Segment) → IsShort s.from → IsShort s.to → (f : SegmentFault) → IsSegmentRefusal (segment_text s.from s.to) f → ⊥ }
{}

/// What is printed of a sequence whose numbers have nine digits at most is accepted, and reads again as
/// the same sequence.
pub fn sequences_read_back()
    ensures value { (points : List Frac) → IsSequence points → AllByRecursion IsShort points → ArePoints (sequence_values (sequence_text points)) points }
    ensures accepted { (points : List Frac) → IsSequence points → AllByRecursion IsShort points → (f : SegmentFault) → IsSequenceRefusal (sequence_text points) f → ⊥ }
{}
