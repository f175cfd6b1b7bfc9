// Every number of the table but those of checks, seeds and lines: a call returns it, and what was handed over is as
// it was.
use crate::sheets::{EITHER, ODD, SHELVES, spelt};
use formula::Comparison;
use refusal::{Fault, Refusal};
use run::draw::draw;
use run::goal::{Frame, Goal};
use run::lists::Lists;
use sheet::table::Sheet;
use source::tape::Tape;
use std::process::Abort;
use std::test::Fail;
use store::Store;
use store::open::OpenStore;
use walk::answer::Answer;
use walk::start;
use walk::state::Walk;
use withheld::layer::Withheld;

struct Case<'a> {
    text: &'a [u8],
    refusal: Refusal,
    place: usize,
}

const CASES: [Case<'static>; 10] = [
    Case {
        text: b"field a 0 1 ; mark a ? 1 ;",
        refusal: Refusal::ByteNotPermitted,
        place: 21,
    },
    Case {
        text: b"field a 0 1024 ; mark a = 1 ;",
        refusal: Refusal::OverLimit,
        place: 10,
    },
    Case {
        text: b"field a 0 1 ; mark a = ;",
        refusal: Refusal::TokenNotPermitted,
        place: 23,
    },
    Case {
        text: b"field a 0 1 ; mark not not not not not not not not not not not not not not not not not a = 1 ;",
        refusal: Refusal::TooDeep,
        place: 83,
    },
    Case {
        text: b"field a 0 1 ; mark a = 1 and a = 1 or a = 1 ;",
        refusal: Refusal::JoinMixes,
        place: 35,
    },
    Case {
        text: b"field a 0 1 ; field a 0 1 ; mark a = 1 ;",
        refusal: Refusal::NameTaken,
        place: 20,
    },
    Case {
        text: b"field a 0 1 ; mark b = 1 ;",
        refusal: Refusal::NameUnknown,
        place: 19,
    },
    Case {
        text: b"field a 0 1 ; rule r ( ) : a = 1 ; mark r ( 1 ) ;",
        refusal: Refusal::WrongTermCount,
        place: 40,
    },
    Case {
        text: b"field a 2 1 ; mark a = 1 ;",
        refusal: Refusal::WrongNumber,
        place: 8,
    },
    Case {
        text: b"field a 0 1;field b 0 1;field c 0 1;field d 0 1;field e 0 1;field f 0 1;field g 0 1;field h 0 1;field i 0 1;mark a=1;",
        refusal: Refusal::TooMany,
        place: 96,
    },
];

// The text is refused so, and the sheet that was read before is as it was.
fn refused(rt: &impl Abort, text: &[u8], refusal: Refusal, place: usize) -> Result<(), Fail> {
    let before = spelt(SHELVES)?;
    let mut sheet = spelt(SHELVES)?;
    let answer = names::read(text, &mut sheet).map(|_| ());
    assert!(rt; answer == Err(Fault { refusal, place }));
    assert!(rt; sheet.ranges == before.ranges && sheet.rules == before.rules);
    assert!(rt; sheet.mark == before.mark && sheet.nodes == before.nodes);
    Ok(())
}

#[test]
fn texts(rt: HostRuntime) -> Result<(), Fail> {
    for case in &CASES {
        refused(&rt, case.text, case.refusal, case.place)?;
    }
    let long = vec![in rt.alloc(); b' '; 32769]?;
    refused(&rt, &long, Refusal::TextTooLong, 32768)
}

// Lists for fuel 0 and two fields, no longer than they have to be.
#[derive(Clone, Copy, Debug, PartialEq, Eq)]
struct Room {
    picks: [u16; 24],
    widths: [u16; 24],
    goals: [Goal; 24],
    frames: [Frame; 1],
    mark: [u16; 2],
}

const ROOM: Room = Room {
    picks: [7; 24],
    widths: [7; 24],
    goals: [Goal::NONE; 24],
    frames: [Frame::NONE; 1],
    mark: [9; 2],
};

// How many lists there are, and so the number of a list that none of them has.
const NONE: usize = 5;

impl Room {
    // Trace lists and mark list are as those of the other.
    fn is_as(&self, other: &Room) -> bool {
        self.picks == other.picks && self.widths == other.widths && self.mark == other.mark
    }
}

// A next with these lists, and the lists after it.
fn next<S: Store>(
    walk: &mut Walk,
    sheet: &Sheet,
    store: &mut S,
    room: Room,
) -> (Result<Answer, Refusal>, Room) {
    let mut room = room;
    let mut lists = Lists {
        picks: &mut room.picks,
        widths: &mut room.widths,
        goals: &mut room.goals,
        frames: &mut room.frames,
        mark: &mut room.mark,
    };
    let answer = walk.next(sheet, store, &mut lists);
    (answer, room)
}

// A next of a new walk and a draw, with one list an entry short, are refused so, and leave walk, lists and source as
// they were.
fn neither<S: Store>(rt: &impl Abort, sheet: &Sheet, store: &mut S, list: usize, refusal: Refusal) {
    let Room {
        mut picks,
        mut widths,
        mut goals,
        mut frames,
        mut mark,
    } = ROOM;
    let mut lists = Lists {
        picks: &mut picks[usize::from(list == 0)..],
        widths: &mut widths[usize::from(list == 1)..],
        goals: &mut goals[usize::from(list == 2)..],
        frames: &mut frames[usize::from(list == 3)..],
        mark: &mut mark[usize::from(list == 4)..],
    };
    let mut walk = start(0);
    let mut tape = Tape::new(&[7, 4]);
    assert!(rt; walk.next(sheet, store, &mut lists) == Err(refusal));
    assert!(rt; draw(sheet, store, 0, &mut tape, &mut lists) == Err(refusal));
    assert!(rt; walk == start(0) && tape == Tape::new(&[7, 4]));
    assert!(rt; picks == ROOM.picks && widths == ROOM.widths && mark == ROOM.mark);
}

#[test]
fn lists_one_short(rt: HostRuntime) -> Result<(), Fail> {
    let sheet = spelt(SHELVES)?;
    let mut store = OpenStore::new(&sheet);
    for list in 0..NONE {
        neither(&rt, &sheet, &mut store, list, Refusal::ListTooShort);
    }
    let (enough, room) = next(&mut start(0), &sheet, &mut store, ROOM);
    assert!(rt; enough == Ok(Answer::Mark) && room.mark == [2, 0]);
    Ok(())
}

#[test]
fn fields_that_differ(rt: HostRuntime) -> Result<(), Fail> {
    let mut other = OpenStore::new(&spelt(ODD)?);
    let sheet = spelt(SHELVES)?;
    neither(&rt, &sheet, &mut other, NONE, Refusal::FieldsDiffer);
    // a list too short as well is told after that
    neither(&rt, &sheet, &mut other, 0, Refusal::FieldsDiffer);
    Ok(())
}

// A walk whose first two entries were changed between its nexts is refused with 14 and left so; with the entries put
// back it goes on.
fn unfit(rt: &impl Abort, picks: [u16; 2], widths: [u16; 2]) -> Result<(), Fail> {
    let sheet = spelt(EITHER)?;
    let mut store = OpenStore::new(&sheet);
    let mut walk = start(0);
    let (first, room) = next(&mut walk, &sheet, &mut store, ROOM);
    assert!(rt; first == Ok(Answer::Mark) && room.mark == [0, 0]);
    let mut changed = room;
    changed.picks[..2].copy_from_slice(&picks);
    changed.widths[..2].copy_from_slice(&widths);
    let told = walk.tally();
    let (refused, left) = next(&mut walk, &sheet, &mut store, changed);
    assert!(rt; refused == Err(Refusal::TraceUnfit));
    assert!(rt; walk.tally() == told && left.is_as(&changed));
    let (second, room) = next(&mut walk, &sheet, &mut store, room);
    assert!(rt; second == Ok(Answer::Mark) && room.mark == [0, 1]);
    Ok(())
}

#[test]
fn traces_that_do_not_fit(rt: HostRuntime) -> Result<(), Fail> {
    // the first run took pick 0 of 2 and pick 0 of 2; a pick not below its width
    unfit(&rt, [2, 0], [2, 2])?;
    // a width unlike the run's
    unfit(&rt, [0, 0], [3, 2])?;
    // an entry left when the run ends: its branch 1 makes no second choice
    unfit(&rt, [1, 0], [2, 2])
}

#[test]
fn unfinished_closes(rt: HostRuntime) -> Result<(), Fail> {
    let sheet = spelt(SHELVES)?;
    let mut store = OpenStore::new(&sheet);
    let mut walk = start(0);
    let (first, room) = next(&mut walk, &sheet, &mut store, ROOM);
    assert!(rt; first == Ok(Answer::Mark) && room.mark == [2, 0]);
    let Err(kept) = walk.close() else {
        return Err(Fail::new("closed before its end"));
    };
    assert!(rt; kept.refusal == Refusal::NotFinished && kept.walk.tally().issued == 1);
    let mut walk = kept.walk;
    let (second, room) = next(&mut walk, &sheet, &mut store, room);
    assert!(rt; second == Ok(Answer::Mark) && room.mark == [2, 1]);
    Ok(())
}

#[test]
fn pairs_and_keeps(rt: HostRuntime) -> Result<(), Fail> {
    let sheet = spelt(SHELVES)?;
    let mut store = OpenStore::new(&sheet);
    assert!(rt; store.keep(2, Comparison::Less, 0) == Err(Refusal::Outside));
    assert!(rt; store.keep(0, Comparison::Less, 1024) == Err(Refusal::Outside));
    assert!(rt; store == OpenStore::new(&sheet));
    let mut layer = Withheld::new(OpenStore::new(&sheet));
    let mut other = Withheld::new(OpenStore::new(&sheet));
    // a repeated pair is counted again
    for _ in 0..32 {
        assert!(rt; layer.withhold(0, 1).is_ok() && other.withhold(0, 1).is_ok());
    }
    assert!(rt; layer.withhold(0, 32) == Err(Refusal::PairsFull));
    assert!(rt; layer.withhold(2, 0) == Err(Refusal::Outside));
    assert!(rt; layer.withhold(0, 1024) == Err(Refusal::Outside));
    assert!(rt; layer == other);
    Ok(())
}
