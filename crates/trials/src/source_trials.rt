// The numbers of a seed and of a tape. Those of the seeds were worked out by another program.
use refusal::Refusal;
use source::Source;
use source::seeded::Seeded;
use source::tape::Tape;
use std::process::Abort;
use std::test::Fail;

// The source gives these numbers and then none.
fn gives<S: Source>(rt: &impl Abort, from: &mut S, numbers: &[u32]) {
    for number in numbers {
        assert!(rt; from.take() == Some(*number));
    }
    assert!(rt; from.take().is_none());
    assert!(rt; from.take().is_none());
}

#[test]
fn seeds(rt: HostRuntime) -> Result<(), Fail> {
    let mut one = Seeded::new(1, 5).map_err(|_| Fail::new("seed 1"))?;
    gives(
        &rt,
        &mut one,
        &[1082269761, 201397313, 1854285353, 1432191013, 2421789285],
    );
    let mut most = Seeded::new(u64::MAX, 3).map_err(|_| Fail::new("the largest seed"))?;
    gives(&rt, &mut most, &[1065361344, 67039231, 3330084320]);
    Ok(())
}

#[test]
fn refusals(rt: HostRuntime) {
    assert!(rt; Seeded::new(0, 5) == Err(Refusal::BadSeed));
    assert!(rt; Seeded::new(1, 1_000_001) == Err(Refusal::BadSeed));
    assert!(rt; Seeded::new(1, 1_000_000).is_ok());
    assert!(rt; Seeded::new(1, 0).is_ok());
}

#[test]
fn tapes(rt: HostRuntime) {
    gives(&rt, &mut Tape::new(&[7, 4]), &[7, 4]);
    gives(&rt, &mut Tape::new(&[]), &[]);
}
