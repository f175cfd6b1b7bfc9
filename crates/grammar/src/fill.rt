// What the parser enters in a table.
ghost use Rattle.std.specs.Prelude.{◌≡◌, Decides};
ghost use Rattle.grammar.specs.Parsing.{Exceeding, Pushed, Kept, FieldKept, RuleKept, MarkKept};

use crate::body::Body;
use crate::copy_vec::CopyVec;
use crate::line::Head;
use crate::table::{FieldLine, MarkLine, Node, RuleLine, Table};

impl Body {
    // Whether a line with so many parameters and this formula exceeds a limit.
    fn exceeds(self, params: usize) -> bool
        ensures { Decides result (Exceeding self.start params self.part) }
    {
        params > 4 || self.part.joins > 16 || self.part.size > 256 - self.start
    }
}

impl Table {
    // Adds an entry and answers its number. A full table stays as it is, and the answer is 0: no Option, since reading
    // goes on to find faults, and `exceeds` tells such a line at its end.
    pub(crate) fn push(&mut self, node: Node) -> u8
        ensures { Pushed self.old self.new node result }
    {
        let Ok(at) = u8::try_from(self.nodes.len()) else {
            return 0;
        };
        self.nodes.push(node);
        at
    }

    // Admits a line, unless it or one above it exceeds a limit; the place of the first that does is noted.
    fn admit(&mut self, first: usize, exceeds: bool) -> bool
        ensures { Kept self.old self.new first exceeds result }
    {
        if exceeds && self.over.is_none() {
            self.over = Some(first);
        }
        self.over.is_none()
    }

    // Keeps a field line; the ninth exceeds a limit.
    pub(crate) fn keep_field(&mut self, line: FieldLine)
        ensures entries { self.new.nodes ≡ self.old.nodes }
        ensures lines { FieldKept self.old self.new line }
    {
        let exceeds = self.fields.is_full();
        if self.admit(line.first, exceeds) {
            self.fields.push(line);
        }
    }

    // Keeps a rule line, unless it exceeds a limit.
    pub(crate) fn keep_rule(&mut self, first: usize, head: Head, body: Body)
        ensures entries { self.new.nodes ≡ self.old.nodes }
        ensures lines { RuleKept self.old self.new first head body.start body.part }
    {
        let exceeds = self.rules.is_full() || body.exceeds(head.params.count);
        if !self.admit(first, exceeds) {
            return;
        }
        self.rules.push(RuleLine {
            first,
            name: head.name,
            params: CopyVec::front(head.params.items, head.params.count),
            start: body.start as u8,
            body: body.part.body,
        });
    }

    // Keeps the mark line, unless it exceeds a limit.
    pub(crate) fn keep_mark(&mut self, first: usize, body: Body)
        ensures { MarkKept self.old self.new first body.start body.part }
    {
        if self.admit(first, body.exceeds(0)) {
            self.mark = MarkLine {
                first,
                start: body.start as u8,
                body: body.part.body,
            };
        }
    }
}
