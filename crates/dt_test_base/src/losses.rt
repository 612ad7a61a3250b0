//! Loss plans: which packets are lost, and which come twice.
use dt_packet::{LossPlan, Verdict};
use dt_test_texts::wrong;
use std::test::Fail;

/// A number to lose, a number to repeat, the number of a packet, and what becomes of it.
const VERDICTS: &[(u32, u32, u64, Verdict)] = &[
    (2, 3, 1, Verdict::Pass),
    (2, 3, 2, Verdict::Lost),
    (2, 3, 3, Verdict::Twice),
    (2, 3, 4, Verdict::Lost),
    (2, 3, 5, Verdict::Pass),
    (2, 3, 6, Verdict::Lost),
    (0, 0, 6, Verdict::Pass),
    (0, 3, 6, Verdict::Twice),
    (4, 0, 6, Verdict::Pass),
    (6, 0, 6, Verdict::Lost),
    (7, 6, 6, Verdict::Twice),
    (1000, 1000, 18446744073709551000, Verdict::Lost),
    (1000, 1000, 18446744073709551615, Verdict::Pass),
    (2, 1, 18446744073709551615, Verdict::Twice),
];

/// Fails at the first number of which something else becomes.
fn check() -> Result<(), Fail> {
    for (row, (drop, repeat, number, want)) in VERDICTS.iter().enumerate() {
        let plan = LossPlan {
            drop: *drop,
            repeat: *repeat,
        };
        if plan.verdict(*number) != *want {
            return Err(wrong(row));
        }
    }
    Ok(())
}

#[test]
fn each_number_has_its_verdict() -> Result<(), Fail> {
    check()
}
