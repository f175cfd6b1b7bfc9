// Walks to their end, and their refusals.
use crate::sheets::{ODD, REGISTERED, SHELVES, spelt};
use refusal::Refusal;
use register::RegisterStore;
use run::goal::{Frame, Goal};
use run::lists::Lists;
use sheet::table::Sheet;
use std::alloc::Global;
use std::test::Fail;
use store::Store;
use store::open::OpenStore;
use walk::answer::Answer;
use walk::start;

// The answers of a whole walk with small fuel, each with the first two numbers of the mark list.
fn walked<S: Store>(
    alloc: Global,
    sheet: &Sheet,
    store: &mut S,
    fuel: u8,
) -> Result<Vec<(Answer, u16, u16)>, Fail> {
    let mut picks = [7u16; 64];
    let mut widths = [7u16; 64];
    let mut goals = [Goal::NONE; 64];
    let mut frames = [Frame::NONE; 4];
    let mut mark = [0u16; 8];
    let mut lists = Lists {
        picks: &mut picks,
        widths: &mut widths,
        goals: &mut goals,
        frames: &mut frames,
        mark: &mut mark,
    };
    let mut walk = start(fuel);
    let mut told = Vec::new(alloc);
    for _ in 0..100 {
        let answer = walk
            .next(sheet, store, &mut lists)
            .map_err(|_| Fail::new("a refusal"))?;
        if answer == Answer::Finished {
            return Ok(told);
        }
        let first = lists.mark.first().copied().unwrap_or(9);
        let second = lists.mark.get(1).copied().unwrap_or(9);
        told.push((answer, first, second))?;
    }
    Err(Fail::new("no end"))
}

#[test]
fn whole_walks(rt: HostRuntime) -> Result<(), Fail> {
    let sheet = spelt(SHELVES)?;
    let told = walked(rt.alloc(), &sheet, &mut OpenStore::new(&sheet), 2)?;
    let marks = [
        (Answer::Mark, 2, 0),
        (Answer::Mark, 2, 1),
        (Answer::Mark, 2, 2),
        (Answer::Mark, 1, 0),
        (Answer::Mark, 3, 0),
    ];
    assert!(rt; told.as_slice() == marks.as_slice());
    let sheet = spelt(ODD)?;
    let told = walked(rt.alloc(), &sheet, &mut OpenStore::new(&sheet), 2)?;
    let odd = [
        (Answer::Mark, 1, 0),
        (Answer::DeadEnd, 1, 0),
        (Answer::DeadEnd, 1, 0),
        (Answer::Mark, 3, 0),
        (Answer::DeadEnd, 3, 0),
    ];
    assert!(rt; told.as_slice() == odd.as_slice());
    let told = walked(rt.alloc(), &sheet, &mut OpenStore::new(&sheet), 1)?;
    let spent = [
        (Answer::Mark, 1, 0),
        (Answer::Spent, 1, 0),
        (Answer::Spent, 1, 0),
    ];
    assert!(rt; told.as_slice() == spent.as_slice());
    let sheet = spelt(REGISTERED)?;
    let rows = [1, 0, 1, 0, 2, 5];
    let mut store = RegisterStore::new(&sheet, &rows);
    let told = walked(rt.alloc(), &sheet, &mut store, 2)?;
    let marks = [(Answer::Mark, 1, 0), (Answer::Mark, 2, 5)];
    assert!(rt; told.as_slice() == marks.as_slice());
    Ok(())
}

#[test]
fn store_after_a_dead_end(rt: HostRuntime) -> Result<(), Fail> {
    let sheet = spelt(b"field a 0 9 ; mark a = 3 and a = 4 ;")?;
    let mut store = OpenStore::new(&sheet);
    let told = walked(rt.alloc(), &sheet, &mut store, 2)?;
    assert!(rt; told.as_slice() == [(Answer::DeadEnd, 0, 0)].as_slice());
    assert!(rt; store.is_empty() && store.count(0) == 0);
    Ok(())
}

#[test]
fn lists_for_the_most_fuel(rt: HostRuntime) -> Result<(), Fail> {
    let sheet = spelt(SHELVES)?;
    let mut store = OpenStore::new(&sheet);
    let mut picks = vec![in rt.alloc(); 0u16; 4104]?;
    let mut widths = vec![in rt.alloc(); 0u16; 4104]?;
    let mut goals = vec![in rt.alloc(); Goal::NONE; 4104]?;
    let mut frames = vec![in rt.alloc(); Frame::NONE; 256]?;
    let mut mark = [9u16; 2];
    let mut walk = start(255);
    let short = walk.next(
        &sheet,
        &mut store,
        &mut Lists {
            picks: &mut picks[0..4103],
            widths: &mut widths,
            goals: &mut goals,
            frames: &mut frames,
            mark: &mut mark,
        },
    );
    assert!(rt; short == Err(Refusal::ListTooShort) && mark == [9, 9]);
    let mut lists = Lists {
        picks: &mut picks,
        widths: &mut widths,
        goals: &mut goals,
        frames: &mut frames,
        mark: &mut mark,
    };
    let differ = walk.next(&sheet, &mut OpenStore::new(&spelt(ODD)?), &mut lists);
    assert!(rt; differ == Err(Refusal::FieldsDiffer));
    let enough = walk.next(&sheet, &mut store, &mut lists);
    assert!(rt; enough == Ok(Answer::Mark) && mark == [2, 0]);
    assert!(rt; walk.tally().issued == 1);
    let Err(kept) = walk.close() else {
        return Err(Fail::new("closed before its end"));
    };
    assert!(rt; kept.refusal == Refusal::NotFinished && kept.walk.tally().issued == 1);
    Ok(())
}
