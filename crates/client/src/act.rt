// The calls of a session, each on the session's own walk, sheet and store. What they are given is no struct. Tried: its
// methods must rebind each loan before they lend it on, and each contract must say that the struct holds the same loans
// still, which is longer than these parameters.
ghost use Rattle.std.specs.Prelude.{◌≡◌, ℕ, ◌+◌, ◌^◌, ◌<◌, ◌≤◌, List, [], ◌∷◌, length, Ok};
ghost use Rattle.formula.specs.Trees.{Sheet as Formulas};
ghost use Rattle.marks.specs.Sets.{Marks};
ghost use Rattle.sheet.specs.Sheets.{tree_of};
ghost use Rattle.store.specs.Rules.{Stays};
ghost use Rattle.run.specs.Lists.{SameLists};
ghost use Rattle.walk.specs.Watching.{watch};
ghost use Rattle.walk.specs.Calls.{lent, Nexts};
ghost use Rattle.walk.specs.Lending.{watch_over};
ghost use Rattle.walk.specs.Law.{running};
ghost use Rattle.walk.specs.declared.answer.Answer.TheVariants.{Mark};
ghost use Rattle.client.specs.Sessions.{stage_of, noted, served, Served, Takes, Draws};

use crate::call::{Call, Taken};
use refusal::Refusal;
use run::draw::draw;
use run::goal::{Frame, Goal};
use run::lists::Lists;
use sheet::table::Sheet;
use source::Source;
use std::ops::ControlFlow;
use store::Store;
use walk::MOST_ENTRIES;
use walk::answer::{Answer, Tallies};
use walk::state::Walk;

// A draw for practice. Its trace and its mark stand in lists of its own, so it takes only the two lists that it may
// write over, and not the session's `Lists`.
fn practise<S: Store, R: Source>(
    fuel: u8,
    sheet: &Sheet,
    store: &mut S,
    source: &mut R,
    goals: &mut [Goal],
    frames: &mut [Frame],
)
    ensures same { Stays S.width S.starting store.old store.new }
    ensures drawn { Draws (tree_of sheet.now) (S.width store.old)
        (S.starting store.old) fuel (length goals.old) (length frames.old)
        (R.waiting source.old) (R.waiting source.new) }
{
    let mut picks = [0u16; MOST_ENTRIES];
    let mut widths = [0u16; MOST_ENTRIES];
    let mut mark = [0u16; 8];
    let mut lists = Lists {
        picks: &mut picks,
        widths: &mut widths,
        goals,
        frames,
        mark: &mut mark,
    };
    let _ = draw(sheet, store, fuel, source, &mut lists);
}

impl Taken {
    // Notes what a next answered: a mark fills so many entries more.
    fn note(&mut self, answer: Result<Answer, Refusal>, fields: usize)
        requires { answer ≡ Ok Mark → self.old.entries + fields < 2 ^ 64 }
        ensures { self.new ≡ noted fields answer self.old }
    {
        match answer {
            Ok(Answer::Mark) => self.entries += fields,
            Ok(Answer::Finished) => self.finished = true,
            Ok(Answer::DeadEnd | Answer::Spent) | Err(_) => {}
        }
    }
}

// A close: the closing figures, or the walk where it is not finished.
fn close(walk: Walk) -> ControlFlow<Tallies, Walk>
    ensures { (s : Formulas) (n : ℕ) (v : Served) (S : Marks) (ps ws : List ℕ) (t : Taken) (list ns : List ℕ) →
        Takes s n v (running (watch walk S ps ws)) t list ns (Call.Close ∷ [])
        (stage_of result S ps ws) t list ns ps ws }
{
    match walk.close() {
        Ok(closed) => ControlFlow::Break(closed.figures()),
        Err(unclosed) => ControlFlow::Continue(unclosed.walk),
    }
}

// A next over lists that come one by one. Tried: a struct that holds a part of another struct's list gets no generated
// proof.
fn next_over<S: Store>(
    walk: &mut Walk,
    sheet: &Sheet,
    store: &mut S,
    picks: &mut [u16],
    widths: &mut [u16],
    goals: &mut [Goal],
    frames: &mut [Frame],
    mark: &mut [u16],
) -> Result<Answer, Refusal>
    ensures same { S.width store.new ≡ S.width store.old }
    ensures step { Nexts (tree_of sheet.now) (S.width store.old)
        (watch walk.old (S.starting store.old) picks.old widths.old)
        (lent (length goals.old) (length frames.old) mark.old)
        result
        (watch walk.new (S.starting store.new) picks.new widths.new)
        mark.new }
{
    let mut lists = Lists {
        picks,
        widths,
        goals,
        frames,
        mark,
    };
    walk.next(sheet, store, &mut lists)
}

// A next; a mark that it issues follows those that stand in the mark list.
fn issue<S: Store>(
    walk: &mut Walk,
    sheet: &Sheet,
    store: &mut S,
    lists: &mut Lists<'_>,
    taken: &mut Taken,
)
    requires room { taken.old.entries ≤ length lists.old.mark.now }
    ensures room { taken.new.entries ≤ length lists.new.mark.now }
    ensures same { Stays S.width S.starting store.old store.new }
    ensures own { SameLists lists.old lists.new }
    ensures takes { (asked ns : List ℕ) → Takes (tree_of sheet.now) (S.width store.old)
        (served asked lists.old)
        (running (watch_over walk.old (S.starting store.old) lists.old))
        taken.old lists.old.mark.now ns (Call.Next ∷ [])
        (running (watch_over walk.new (S.starting store.new) lists.new))
        taken.new lists.new.mark.now ns lists.new.picks.now lists.new.widths.now }
{
    let answer = next_over(
        walk,
        sheet,
        store,
        lists.picks,
        lists.widths,
        lists.goals,
        lists.frames,
        &mut lists.mark[taken.entries..],
    );
    taken.note(answer, sheet.field_count());
}

// One call. It leaves the walk, which goes on, or the closing figures.
pub(crate) fn act<S: Store, R: Source>(
    call: Call,
    asked: &[u16],
    mut walk: Walk,
    sheet: &Sheet,
    store: &mut S,
    source: &mut R,
    lists: &mut Lists<'_>,
    taken: &mut Taken,
) -> ControlFlow<Tallies, Walk>
    requires room { taken.old.entries ≤ length lists.old.mark.now }
    ensures room { taken.new.entries ≤ length lists.new.mark.now }
    ensures same { Stays S.width S.starting store.old store.new }
    ensures own { SameLists lists.old lists.new }
    ensures takes { Takes (tree_of sheet.now) (S.width store.old)
        (served asked.now lists.old)
        (running (watch_over walk (S.starting store.old) lists.old))
        taken.old lists.old.mark.now (R.waiting source.old) (call ∷ [])
        (stage_of result (S.starting store.new) lists.new.picks.now lists.new.widths.now)
        taken.new lists.new.mark.now (R.waiting source.new)
        lists.new.picks.now lists.new.widths.now }
{
    match call {
        Call::Next => {
            issue(&mut walk, sheet, store, lists, taken);
            ControlFlow::Continue(walk)
        }
        Call::Draw(fuel) => {
            practise(fuel, sheet, store, source, lists.goals, lists.frames);
            ControlFlow::Continue(walk)
        }
        Call::Check(fuel) => {
            let _ = reading::check(sheet, asked, fuel);
            ControlFlow::Continue(walk)
        }
        Call::Tally => {
            let _ = walk.tally();
            ControlFlow::Continue(walk)
        }
        Call::Close => close(walk),
    }
}
