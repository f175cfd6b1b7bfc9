// A walk from its start, by calls that are given as data.
ghost use Rattle.sheet.specs.Sheets.{tree_of};
ghost use Rattle.store.specs.Rules.{Stays};
ghost use Rattle.run.specs.Lists.{SameLists};
ghost use Rattle.client.specs.Sessions.{Conducted};

use crate::act::act;
use crate::call::{Call, Session, Taken};
use run::lists::Lists;
use sheet::table::Sheet;
use source::Source;
use std::ops::ControlFlow;
use store::Store;
use walk::start;

// Starts a walk and makes the calls in their order, up to a close that is not refused. The marks that are issued stand
// one after the other at the front of the mark list; checks read the mark that is asked for. The parameters are no
// struct: a caller would make one of its loans for this call alone.
pub fn conduct<S: Store, R: Source>(
    calls: &[Call],
    asked: &[u16],
    fuel: u8,
    sheet: &Sheet,
    store: &mut S,
    source: &mut R,
    lists: &mut Lists<'_>,
) -> Session
    ensures own { SameLists lists.old lists.new }
    ensures same { Stays S.width S.starting store.old store.new }
    ensures conducted { Conducted (tree_of sheet.now) (S.width store.old) fuel
        (S.starting store.old) asked.now calls.now lists.old (R.waiting source.old)
        result lists.new (R.waiting source.new) }
{
    let mut walk = start(fuel);
    let mut taken = Taken::default();
    for call in calls {
        match act(*call, asked, walk, sheet, store, source, lists, &mut taken) {
            ControlFlow::Continue(on) => walk = on,
            ControlFlow::Break(figures) => {
                return Session {
                    taken,
                    figures: Some(figures),
                };
            }
        }
    }
    Session {
        taken,
        figures: None,
    }
}
