// The terms of a call.
ghost use Rattle.std.specs.Prelude.{◌≡◌, ℕ, ◌≤◌, true, map, length};
ghost use Rattle.marks.specs.Counted.{some};
ghost use Rattle.sheet.specs.Table.{term_of};
ghost use Rattle.run.specs.Frames.{arguments_of, FrameOkay};
ghost use Rattle.run.specs.Ways.{way_of, SameTrail, Fits};
ghost use Rattle.run.specs.Settling.{Narrows};
ghost use Rattle.run.specs.Goals.{Passing, Passed, TermsOkay};

use crate::argument::resolve;
use crate::goal::Frame;
use crate::guide::Guide;
use crate::stop::Stop;
use crate::trail::Trail;
use sheet::node::Term;
use store::Store;

// The frame of a call: its terms, worked out from left to right.
pub(crate) fn pass<S: Store, G: Guide>(
    store: &mut S,
    frame: Frame,
    terms: &[Term],
    trail: &mut Trail<'_, G>,
) -> Result<Frame, Stop>
    requires frame { FrameOkay (S.width store.old) frame }
    requires okay { TermsOkay (S.width store.old) frame.count terms.now }
    requires some { some (S.width store.old) (S.current store.old) ≡ true }
    requires room { Fits (way_of G.ahead trail.old)
        (Passing (arguments_of frame) (S.current store.old) (map term_of terms.now)) }
    ensures same { Narrows S.width S.starting S.current store.old store.new }
    ensures lists { SameTrail G.fixed trail.old trail.new }
    ensures left { Passed (S.width store.old) (arguments_of frame) (S.current store.old)
        (map term_of terms.now) (length terms.now)
        (way_of G.ahead trail.old) result (S.current store.new) (way_of G.ahead trail.new) }
{
    let mut made = Frame::NONE;
    for term in terms {
        made.push(resolve(store, frame, *term, trail)?);
    }
    Ok(made)
}
