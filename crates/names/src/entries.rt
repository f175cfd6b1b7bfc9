// The entries of a line's formula with their names replaced by numbers, or the first fault among them.
ghost use Rattle.std.specs.Prelude.{◌≡◌, ◌+◌, ◌<◌, ◌≤◌, IfOk, IfErr, length};
ghost use Rattle.grammar.specs.declared.table.Node.TheVariants.{Compared, Called};
ghost use Rattle.grammar.specs.Tables.{node_at};
ghost use Rattle.refusal.specs.declared.Fault.{Fault};
ghost use Rattle.names.specs.Looking.{NameSettled, CallSettled, TermSettled, TermsSettled};
ghost use Rattle.names.specs.Looking.{WeightsSettled, EntrySettled, EntriesSettled, SameOutside};

use crate::lookup::find;
use crate::scope::Scope;
use formula::Comparison;
use grammar::few::Few;
use grammar::table::{Node as WrittenNode, Number, Term as WrittenTerm, Weights, Word};
use refusal::{Fault, Refusal};
use sheet::node::{Line, Name, Node, Term};

// The entry of that number, or a blank past the end. Tried `entries[i]`: not proved, since by its definition a table
// may hold a sheet with fewer entries than the sheet has formulas, and what stands past its end is read as a blank.
fn entry_at(entries: &[WrittenNode], i: usize) -> WrittenNode
    ensures { result ≡ node_at entries.now i }
{
    entries.get(i).copied().unwrap_or_default()
}

// The value of a weight, which may not be 0.
fn weight(number: Number) -> Result<u16, Fault>
    ensures kept { IfOk result (λ value. (value ≡ number.value) × (0 < value)) }
    ensures zero { IfErr result (λ fault. (number.value ≡ 0)
        × (fault ≡ record { refusal = Refusal.WrongNumber; place = number.place })) }
{
    if number.value == 0 {
        return Err(Refusal::WrongNumber.at(number.place));
    }
    Ok(number.value)
}

// The weights of a join: 1 and 1 where none are written.
fn number_weights(weights: Option<Weights>) -> Result<(u16, u16), Fault>
    ensures { WeightsSettled weights result }
{
    let Some(Weights { left, right }) = weights else {
        return Ok((1, 1));
    };
    Ok((weight(left)?, weight(right)?))
}

impl Scope<'_> {
    // The field or parameter of that name.
    fn number_name(self, name: Word) -> Result<Name, Fault>
        ensures { NameSettled self.entry name result }
    {
        let field = find(self.text, self.fields, name).map(|field| Name::Field(field as u8));
        let param = find(self.text, self.params, name).map(|param| Name::Param(param as u8));
        field.or(param).ok_or(Refusal::NameUnknown.at(name.place))
    }

    // The number of the rule that is called by that name with so many terms.
    fn number_call(self, name: Word, terms: usize) -> Result<u8, Fault>
        ensures { CallSettled self.entry name terms result }
    {
        let rule = find(self.text, self.rules, name).ok_or(Refusal::NameUnknown.at(name.place))?;
        if self.rules[rule].params.len() != terms {
            return Err(Refusal::WrongTermCount.at(name.place));
        }
        Ok(rule as u8)
    }

    // A term with its name replaced by a number.
    fn number_term(self, term: WrittenTerm) -> Result<Term, Fault>
        ensures { TermSettled self.entry term result }
    {
        match term {
            WrittenTerm::Number(number) => Ok(Term::Number(number)),
            WrittenTerm::Bare(word) => self.number_name(word).map(Term::Bare),
            WrittenTerm::Moved(word, shift) => self
                .number_name(word)
                .map(|name| Term::Moved(name, shift)),
        }
    }

    // At most four terms with their names replaced by numbers.
    fn number_terms(self, terms: &[WrittenTerm]) -> Result<[Term; 4], Fault>
        requires { length terms.now ≤ 4 }
        ensures { TermsSettled self.entry terms.now result }
    {
        // by number: what a zip over `iter_mut` has written has no name that a proof may cite
        let mut numbered = [Term::Number(0); 4];
        for (i, term) in terms.iter().enumerate() {
            numbered[i] = self.number_term(*term)?;
        }
        Ok(numbered)
    }

    // A call with its name and terms replaced by numbers.
    fn number_called(self, name: Word, terms: Few<WrittenTerm>) -> Result<Node, Fault>
        ensures { EntrySettled self.entry (Called name terms) result }
    {
        let rule = self.number_call(name, terms.count)?;
        let written = terms
            .items
            .get(..terms.count)
            .ok_or(Refusal::WrongTermCount.at(name.place))?;
        let numbered = self.number_terms(written)?;
        Ok(Node::Call(rule, terms.count as u8, numbered))
    }

    // A comparison with the names of its terms replaced by numbers.
    fn number_compared(
        self,
        left: WrittenTerm,
        sign: Comparison,
        right: WrittenTerm,
    ) -> Result<Node, Fault>
        ensures { EntrySettled self.entry (Compared sign left right) result }
    {
        let left = self.number_term(left)?;
        let right = self.number_term(right)?;
        Ok(Node::Compare(left, sign, right))
    }

    // An entry with its names replaced by numbers, or its first fault.
    fn number_entry(self, entry: &WrittenNode) -> Result<Node, Fault>
        ensures { EntrySettled self.entry entry.now result }
    {
        match entry {
            WrittenNode::Compared(sign, left, right) => self.number_compared(*left, *sign, *right),
            WrittenNode::Called(name, terms) => self.number_called(*name, *terms),
            WrittenNode::Negated(part) => Ok(Node::Not(*part)),
            WrittenNode::Picked(word, part) => self
                .number_name(*word)
                .map(|name| Node::Pick(name, *part)),
            WrittenNode::Joined(join, weights, left, right) => {
                let (left_weight, right_weight) = number_weights(*weights)?;
                Ok(Node::Join(*join, left_weight, right_weight, *left, *right))
            }
        }
    }

    // Writes the entries of a line with their names replaced by numbers, or answers their first fault.
    pub(crate) fn number_entries(
        self,
        entries: &[WrittenNode],
        line: Line,
        nodes: &mut [Node; 256],
    ) -> Result<(), Fault>
        ensures settled { EntriesSettled self.entry entries.now line.start (line.body + 1) nodes.new result }
        ensures outside { SameOutside nodes.old nodes.new line.start (line.body + 1) }
    {
        // by number, and not a zip of the two tables: `entry_at` answers past the end of the written one, too
        let mut first = Ok(());
        for i in usize::from(line.start)..=usize::from(line.body) {
            match self.number_entry(&entry_at(entries, i)) {
                Ok(node) => nodes[i] = node,
                Err(fault) => first = Err(first.err().unwrap_or(fault).min(fault)),
            }
        }
        first
    }
}
