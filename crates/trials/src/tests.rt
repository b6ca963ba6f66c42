// Refusals and words at the edges of their ranges, worked out by hand from the formulas.
use leeway::numbers::LeewayNumbers;
use leeway::plan::LeewayPlan;
use loupe::numbers::LoupeNumbers;
use loupe::plan::LoupePlan;
use sampling::rows::Row;
use sampling::sequential::Sequential;
use sampling::table::word_on_rows;
use sampling::word::Word;
use std::test::Fail;

fn leeway_numbers([g, h_a, h_r, n_t, sigma, limit, side]: [i32; 7]) -> LeewayNumbers {
    LeewayNumbers {
        g,
        h_a,
        h_r,
        n_t,
        sigma,
        limit,
        side,
    }
}

fn loupe_numbers([g, h_a, h_r, n_t]: [i32; 4]) -> LoupeNumbers {
    LoupeNumbers { g, h_a, h_r, n_t }
}

// g, h_A, h_R, n_t, sigma, limit, side; the refusal's number, if there is one
const LEEWAY: [([i32; 7], Option<u8>); 22] = [
    ([1, 0, 1, 1, 1, -100_000_000, 0], None),
    (
        [9_999, 20_000, 20_000, 4_000, 1_000_000, 100_000_000, 1],
        None,
    ),
    ([0, 1, 1, 1, 1, 0, 0], Some(1)),
    ([10_000, 1, 1, 1, 1, 0, 0], Some(1)),
    ([-5, 1, 1, 1, 1, 0, 0], Some(1)),
    ([1, -1, 1, 1, 1, 0, 0], Some(1)),
    ([1, 20_001, 1, 1, 1, 0, 0], Some(1)),
    ([1, 1, -1, 1, 1, 0, 0], Some(1)),
    ([1, 1, 20_001, 1, 1, 0, 0], Some(1)),
    ([1, 1, 1, 0, 1, 0, 0], Some(1)),
    ([1, 1, 1, 4_001, 1, 0, 0], Some(1)),
    ([1, 0, 0, 1, 1, 0, 0], Some(2)),
    ([1, 0, 0, 1, 0, 0, 9], Some(2)),
    ([1, 0, 0, 4_001, 0, 0, 9], Some(1)),
    ([1, 1, 0, 1, 0, 0, 0], Some(3)),
    ([1, 1, 0, 1, 1_000_001, 0, 9], Some(3)),
    ([1, 1, 0, 1, -1, 0, 0], Some(3)),
    ([1, 1, 0, 1, 1, -100_000_001, 0], Some(4)),
    ([1, 1, 0, 1, 1, 100_000_001, 0], Some(4)),
    ([1, 1, 0, 1, 1, 0, 2], Some(4)),
    ([1, 1, 0, 1, 1, 0, -1], Some(4)),
    ([2_147_483_647, 1, 0, 1, 1, 0, -2_147_483_648], Some(1)),
];

// g, h_A, h_R, n_t; the refusal's number, if there is one
const LOUPE: [([i32; 4], Option<u8>); 10] = [
    ([1, 0, 1, 1], None),
    ([9_999, 200_000, 200_000, 4_000], None),
    ([0, 1, 1, 1], Some(1)),
    ([10_000, 1, 1, 1], Some(1)),
    ([1, -1, 1, 1], Some(1)),
    ([1, 200_001, 1, 1], Some(1)),
    ([1, 1, 200_001, 1], Some(1)),
    ([1, 1, 1, 0], Some(1)),
    ([1, 0, 0, 4_001], Some(1)),
    ([1, 0, 0, 4_000], Some(2)),
];

#[test]
fn leeway_refusals(rt: HostRuntime) {
    for (numbers, refusal) in LEEWAY {
        let answer = LeewayPlan::new(leeway_numbers(numbers));
        assert_eq!(rt; answer.err().map(|e| e.number()), refusal);
    }
}

#[test]
fn loupe_refusals(rt: HostRuntime) {
    for (numbers, refusal) in LOUPE {
        let answer = LoupePlan::new(loupe_numbers(numbers));
        assert_eq!(rt; answer.err().map(|e| e.number()), refusal);
    }
}

// Lower limit 10 with g 2, h_A 1, h_R 1.5, n_t 3, sigma 1: A(1) 3.0, R(1) 0.5, A(2) 5.0, R(2) 2.5, A_t 6.0.
const LEEWAY_WORDS: [(&[i32], Word); 9] = [
    (&[13], Word::Accepted),
    (&[12], Word::Going),
    (&[11], Word::Going),
    (&[10], Word::NotAccepted),
    (&[12, 13], Word::Accepted),
    (&[12, 10], Word::NotAccepted),
    (&[12, 11], Word::Going),
    (&[12, 11, 13], Word::Accepted),
    (&[12, 11, 12], Word::NotAccepted),
];

#[test]
fn leeway_words(rt: HostRuntime) -> Result<(), Fail> {
    let judge = Sequential::new(LeewayPlan::new(leeway_numbers([
        2000, 1000, 1500, 3, 100, 10, 0,
    ]))?);
    for (values, word) in LEEWAY_WORDS {
        let rows: Vec<Row> = values
            .iter()
            .map(|value| Row {
                value: *value,
                finding: 0,
            })
            .collect(rt.alloc())?;
        let answer = word_on_rows(rt.alloc(), &judge, rows.as_slice())?;
        assert_eq!(rt; answer.ok_or("no piece")?, word);
    }
    Ok(())
}

// g 0.5, h_A 1, h_R 1, n_t 4: A(1) absent, R(1) 2, A(2) 0, R(2) 2, A(3) 0, R(3) 3, A_t 2.
const LOUPE_WORDS: [(&[i32], Word); 8] = [
    (&[0], Word::Going),
    (&[1], Word::Going),
    (&[0, 0], Word::Accepted),
    (&[1, 1], Word::NotAccepted),
    (&[1, 0], Word::Going),
    (&[1, 0, 1], Word::Going),
    (&[1, 0, 1, 0], Word::Accepted),
    (&[1, 0, 1, 1], Word::NotAccepted),
];

#[test]
fn loupe_words(rt: HostRuntime) -> Result<(), Fail> {
    let judge = Sequential::new(LoupePlan::new(loupe_numbers([5000, 10_000, 10_000, 4]))?);
    for (findings, word) in LOUPE_WORDS {
        let rows: Vec<Row> = findings
            .iter()
            .map(|finding| Row {
                value: 0,
                finding: *finding,
            })
            .collect(rt.alloc())?;
        let answer = word_on_rows(rt.alloc(), &judge, rows.as_slice())?;
        assert_eq!(rt; answer.ok_or("no piece")?, word);
    }
    Ok(())
}

#[test]
fn rows_that_are_no_piece(rt: HostRuntime) -> Result<(), Fail> {
    let judge = Sequential::new(LoupePlan::new(loupe_numbers([5000, 10_000, 10_000, 4]))?);
    for (value, finding) in [(100_000_001, 0), (-100_000_001, 0), (0, 2), (0, -1)] {
        let row = Row { value, finding };
        let answer = word_on_rows(rt.alloc(), &judge, &[row])?;
        assert!(rt; answer.is_none());
    }
    Ok(())
}
