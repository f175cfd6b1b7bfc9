// One goal off the stack.
ghost use Rattle.std.specs.Prelude.{◌≡◌, ℕ, ◌<◌, true, ◌≢◌, length};
ghost use Rattle.marks.specs.Counted.{some};
ghost use Rattle.meaning.specs.Terms.{wants as wants_of, rules_of};
ghost use Rattle.sheet.specs.Sheets.{tree_of};
ghost use Rattle.meaning.specs.Traces.{branch};
ghost use Rattle.run.specs.Ways.{way_of, SameTrail, Room, Fits};
ghost use Rattle.run.specs.Settling.{Narrows};
ghost use Rattle.run.specs.Goals.{Fit, spot_of, SameStack, stack as goals_of, Solving, Sided, Turned};

use crate::choice::{Choice, Weights};
use crate::compare::{Relation, compare};
use crate::guide::Guide;
use crate::pass::pass;
use crate::settle::settle;
use crate::stack::Stack;
use crate::stop::Stop;
use crate::trail::Trail;
use formula::Join;
use sheet::node::Node;
use sheet::table::Sheet;
use store::Store;

// The sides of a join to be matched: the left alone, or the left with that target and then the right.
// Not an `Option<bool>`: none would be a side to match.
#[derive(Clone, Copy, Debug, PartialEq, Eq)]
pub(crate) enum Sides {
    Left,
    Both(bool),
}

// The sides that a target asks for: where the join does not want it, the choice between its two branches is made.
fn ask<G: Guide>(
    word: Join,
    weights: Weights,
    target: bool,
    trail: &mut Trail<'_, G>,
) -> Result<Sides, Stop>
    requires { target ≢ wants_of word → Room 1 (way_of G.ahead trail.old).trail }
    ensures lists { SameTrail G.fixed trail.old trail.new }
    ensures left { Sided word (branch weights.left weights.right) target
        (way_of G.ahead trail.old) result (way_of G.ahead trail.new) }
{
    if word.wants() == target {
        return Ok(Sides::Both(target));
    }
    if trail.choose(Choice::Branch(weights))? == 0 {
        return Ok(Sides::Left);
    }
    Ok(Sides::Both(!target))
}

// Takes the next goal off the stack and matches it, or puts its parts on the stack.
// Indices are cast by `as`: with `usize::from` the proof did not close.
pub(crate) fn step<S: Store, G: Guide>(
    sheet: &Sheet,
    store: &mut S,
    stack: &mut Stack<'_>,
    trail: &mut Trail<'_, G>,
) -> Result<(), Stop>
    requires fields { S.width store.old ≡ length sheet.now.ranges.items }
    requires some { some (S.width store.old) (S.current store.old) ≡ true }
    requires fit { Fit sheet.now (spot_of stack.old) }
    requires more { 0 < stack.old.depth.goals }
    requires room { Fits (way_of G.ahead trail.old)
        (Solving (rules_of (tree_of sheet.now)) (goals_of sheet.now (spot_of stack.old))
        stack.old.depth.fuel (S.current store.old)) }
    ensures same { Narrows S.width S.starting S.current store.old store.new }
    ensures lists { SameTrail G.fixed trail.old trail.new }
    ensures held { SameStack stack.old stack.new }
    ensures left { Turned sheet.now (goals_of sheet.now (spot_of stack.old)) stack.old.depth.fuel
        (S.current store.old) (way_of G.ahead trail.old) result (spot_of stack.new)
        (S.current store.new) (way_of G.ahead trail.new) }
{
    stack.depth.goals -= 1;
    let goal = stack.goals[stack.depth.goals];
    let frame = stack.frames[goal.frame as usize];
    match sheet.nodes[goal.formula as usize] {
        Node::Not(inner) => {
            stack.push(goal.part(inner, !goal.target));
            Ok(())
        }
        Node::Compare(left, sign, right) => {
            let sign = sign.aimed(goal.target);
            compare(store, frame, Relation { left, sign, right }, trail)
        }
        Node::Pick(name, inner) => {
            settle(store, frame.argument(name), trail)?;
            stack.push(goal.part(inner, goal.target));
            Ok(())
        }
        Node::Join(word, first, second, left, right) => {
            let weights = Weights {
                left: first,
                right: second,
            };
            match ask(word, weights, goal.target, trail)? {
                Sides::Left => {
                    stack.push(goal.part(left, goal.target));
                    Ok(())
                }
                Sides::Both(target) => {
                    stack.push(goal.part(right, goal.target));
                    stack.push(goal.part(left, target));
                    Ok(())
                }
            }
        }
        Node::Call(rule, count, terms) => {
            let passed = pass(store, frame, &terms[..count as usize], trail)?;
            stack.enter(passed, sheet.rules[rule as usize].body, goal.target)
        }
    }
}
