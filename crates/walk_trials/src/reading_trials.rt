// The plain reading of single marks.
use crate::sheets::{ODD, spelt};
use reading::{Reading, Verdict, check};
use refusal::Refusal;
use std::test::Fail;

// What a check of the sheet of odd numbers answers.
fn checked(mark: &[u16], fuel: u8) -> Result<Result<Reading, Refusal>, Fail> {
    Ok(check(&spelt(ODD)?, mark, fuel))
}

// A verdict after so many calls.
fn after(calls: u8, verdict: Verdict) -> Result<Reading, Refusal> {
    Ok(Reading { verdict, calls })
}

#[test]
fn odd_numbers(rt: HostRuntime) -> Result<(), Fail> {
    assert!(rt; checked(&[3], 2)? == after(2, Verdict::Allowed));
    assert!(rt; checked(&[3], 1)? == after(1, Verdict::Spent));
    assert!(rt; checked(&[3], 0)? == after(0, Verdict::Spent));
    assert!(rt; checked(&[2], 255)? == after(2, Verdict::NotAllowed));
    assert!(rt; checked(&[4], 255)? == after(0, Verdict::NotAllowed));
    assert!(rt; checked(&[1024], 255)? == Err(Refusal::NotAMark));
    assert!(rt; checked(&[3, 3], 255)? == Err(Refusal::NotAMark));
    assert!(rt; checked(&[], 255)? == Err(Refusal::NotAMark));
    Ok(())
}
