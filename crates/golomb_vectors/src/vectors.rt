// The vectors of golomb.rs, in the order of its tests.
use crate::list::judge_text;
use tally::Tally;

// test_num_bits, by the lengths of codes: that of x - 1 has 2 n - 1 bits where x has n digits.
pub fn num_bits() -> Tally {
    let mut tally = Tally::default();
    for x in 1..100000u32 {
        let digits = x.ilog2() as usize + 1;
        let mut buffer = [0u8; 16];
        tally.count(golomb::write_ue(&mut buffer, 0, x - 1) == Ok(2 * digits - 1));
    }
    tally
}

// test_exp_goloumb.
pub fn exp_golomb() -> Tally {
    judge_text(
        b"ue 0 1\n\
        ue 1 010\n\
        ue 2 011\n\
        ue 3 00100\n\
        ue 4 00101\n\
        ue 5 00110\n\
        ue 6 00111\n\
        ue 7 0001000\n\
        ue 8 0001001\n",
    )
}

// test_signed_exp_goloumb.
pub fn signed_exp_golomb() -> Tally {
    judge_text(
        b"se 0 1\n\
        se 1 010\n\
        se -1 011\n\
        se 2 00100\n\
        se -2 00101\n\
        se 3 00110\n\
        se -3 00111\n\
        se 4 0001000\n\
        se -4 0001001\n",
    )
}
