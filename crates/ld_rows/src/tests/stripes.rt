// Striping.

use crate::tests::desk::AtADesk;
use crate::tests::table::check;
use std::test::Fail;

// Weights, up to a hundred of them, and what the positions own.
const WEIGHTS: &str = r#"stripe 3,2,1,1,1,1,1 0 10 => 0, out "0 4 7\n"
stripe 3,2,1,1,1,1,1 1 10 => 0, out "1 5\n"
stripe 3,2,1,1,1,1,1 6 10 => 0, out "9\n"
stripe 2,1,3 2 6 => 0, out "0 2 4\n"
stripe 2,1,3 0 6 => 0, out "1 3\n"
stripe 2,1,3 1 6 => 0, out "5\n"
stripe 1,1 1 0 => 0, out "\n"
stripe 2,2 1 4 => 0, out "1 3\n"
stripe 007 000 0003 => 0, out "0 1 2\n"
stripe 99999,1 1 1 => 0, out "\n"
stripe 1,1,1,1,1,1,1,1,1,1,1,1,1,1,1,1,1,1,1,1,1,1,1,1,1,1,1,1,1,1,1,1,1,1,1,1,1,1,1,1,1,1,1,1,1,1,1,1,1,1,1,1,1,1,1,1,1,1,1,1,1,1,1,1,1,1,1,1,1,1,1,1,1,1,1,1,1,1,1,1,1,1,1,1,1,1,1,1,1,1,1,1,1,1,1,1,1,1,1,1 0 1 => 0, out "0\n""#;

// Weights and positions that are refused. The last weights but one are a hundred and one.
const REFUSED_WEIGHTS: &str = r#"stripe 1,0 0 5 => 5, err "error 21 ZeroWeight 1\n"
stripe 3,1 2 5 => 5, err "error 22 NoSuchPosition 2\n"
stripe 100000,1,0 9 1 => 5, err "error 21 ZeroWeight 2\n"
stripe 100000,1 0 1 => 5, err "error 16 PeriodTooLarge 100001\n"
stripe 1,1,1,1,1,1,1,1,1,1,1,1,1,1,1,1,1,1,1,1,1,1,1,1,1,1,1,1,1,1,1,1,1,1,1,1,1,1,1,1,1,1,1,1,1,1,1,1,1,1,1,1,1,1,1,1,1,1,1,1,1,1,1,1,1,1,1,1,1,1,1,1,1,1,1,1,1,1,1,1,1,1,1,1,1,1,1,1,1,1,1,1,1,1,1,1,1,1,1,1,0 0 1 => 5, err "error 17 TooMany\n"
stripe _ 0 5 => 5, err "error 20 NoWeights\n""#;

// Segments and sequences, and what the positions own.
const SEGMENTS: &str =
    r#"stripe 6 --sequence 0,1/3,0.5 --segment 1/3:50% => 0, out "sequence 0,1/3,1/2,1\n5\n"
stripe 8 --segment 1/4:1/2 => 0, out "sequence 0,1/4,1/2,1\n3 7\n"
stripe 3 --segment=1 => 0, out "sequence 0,1\n0 1 2\n"
stripe 0 --sequence 0,1 => 0, out "sequence 0,1\n\n""#;

// Segments and sequences that are refused. The last sequence has a hundred and one segments when it is filled.
const REFUSED_SEGMENTS: &str = r#"stripe 4 --sequence 0,1/2,1 => 5, err "error 15 NotInSequence\n"
stripe 4 --segment 1/2:1/2 => 5, err "error 11 NotLess 1\n"
stripe 4 --segment 0:101% => 5, err "error 12 AboveOne 1\n"
stripe 4 --segment 0:1/0 => 5, err "error 3 ZeroDenominator 1\n"
stripe 4 --segment x --sequence y => 5, err "error 2 BadDigit 1\n"
stripe 4 --segment 1: --sequence y => 5, err "error 1 Empty 1\n"
stripe 4 --sequence 0,1234567890 => 5, err "error 4 TooLarge 1\n"
stripe 4 --sequence 0,-1/2,1 => 5, err "error 10 BelowZero 1\n"
stripe 4 --sequence 1/2 => 5, err "error 14 FewPoints\n"
stripe 4 --segment 1/2 --sequence 1/3,1/100001 => 5, err "error 11 NotLess 1\n"
stripe 4 --segment 1/2 --sequence 0,1/100001,1 => 5, err "error 15 NotInSequence\n"
stripe 4 --segment 1/100001 => 5, err "error 16 PeriodTooLarge 100001\n"
stripe 4 --sequence 1/999999937,1/999999929,1/999999893 --segment 1/999999937:1/999999929 => 5, err "error 16 PeriodTooLarge 18446744073709551615\n"
stripe 4 --sequence 1/101,2/101,3/101,4/101,5/101,6/101,7/101,8/101,9/101,10/101,11/101,12/101,13/101,14/101,15/101,16/101,17/101,18/101,19/101,20/101,21/101,22/101,23/101,24/101,25/101,26/101,27/101,28/101,29/101,30/101,31/101,32/101,33/101,34/101,35/101,36/101,37/101,38/101,39/101,40/101,41/101,42/101,43/101,44/101,45/101,46/101,47/101,48/101,49/101,50/101,51/101,52/101,53/101,54/101,55/101,56/101,57/101,58/101,59/101,60/101,61/101,62/101,63/101,64/101,65/101,66/101,67/101,68/101,69/101,70/101,71/101,72/101,73/101,74/101,75/101,76/101,77/101,78/101,79/101,80/101,81/101,82/101,83/101,84/101,85/101,86/101,87/101,88/101,89/101,90/101,91/101,92/101,93/101,94/101,95/101,96/101,97/101,98/101,99/101,100/101 => 5, err "error 17 TooMany\n""#;

/// `stripe` over weights.
#[test]
fn weights(rt: HostRuntime) -> Result<(), Fail> {
    check::<AtADesk, _>(&rt, WEIGHTS)
}

/// Weights and positions that are refused.
#[test]
fn weights_that_are_refused(rt: HostRuntime) -> Result<(), Fail> {
    check::<AtADesk, _>(&rt, REFUSED_WEIGHTS)
}

/// `stripe` over a segment and a sequence.
#[test]
fn segments(rt: HostRuntime) -> Result<(), Fail> {
    check::<AtADesk, _>(&rt, SEGMENTS)
}

/// Segments and sequences that are refused.
#[test]
fn segments_that_are_refused(rt: HostRuntime) -> Result<(), Fail> {
    check::<AtADesk, _>(&rt, REFUSED_SEGMENTS)
}
