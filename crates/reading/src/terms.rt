// The numbers of names and terms, under a mark and the parameters' numbers.
ghost use Rattle.std.specs.Prelude.{◌≡◌, true, length};
ghost use Rattle.meaning.specs.Terms.{named, value};
ghost use Rattle.sheet.specs.Table.{name_of, term_of};
ghost use Rattle.sheet.specs.Keeping.{known_name, known_term, known_terms};
ghost use Rattle.reading.specs.Steps.{values};

use sheet::node::{Name, Term};

// The numbers of the fields, and of a line's parameters.
#[derive(Clone, Copy, Debug, PartialEq, Eq)]
pub(crate) struct Numbers<'a> {
    pub(crate) mark: &'a [u16],
    pub(crate) args: &'a [u16],
}

impl Numbers<'_> {
    // The number of a field or a parameter.
    fn of_name(self, name: Name) -> u16
        requires { known_name (length self.mark.now) (length self.args.now) name ≡ true }
        ensures { result ≡ named self.entry.mark.now self.entry.args.now (name_of name) }
    {
        match name {
            Name::Field(field) => self.mark[usize::from(field)],
            Name::Param(param) => self.args[usize::from(param)],
        }
    }

    // The number that a term is worth.
    pub(crate) fn of_term(self, term: Term) -> u16
        requires { known_term (length self.mark.now) (length self.args.now) term ≡ true }
        ensures { result ≡ value self.entry.mark.now self.entry.args.now (term_of term) }
    {
        match term {
            Term::Number(number) => number,
            Term::Bare(name) => self.of_name(name),
            Term::Moved(name, by) => by.apply(self.of_name(name)),
        }
    }

    // The numbers of a call's terms.
    // tried: `terms.map`; that its closure may be called at each of the terms was not proved
    pub(crate) fn of_terms(self, terms: [Term; 4]) -> [u16; 4]
        requires long { length terms ≡ 4 }
        requires known { known_terms (length self.mark.now) (length self.args.now) terms ≡ true }
        ensures { result ≡ values self.entry.mark.now self.entry.args.now terms }
    {
        [
            self.of_term(terms[0]),
            self.of_term(terms[1]),
            self.of_term(terms[2]),
            self.of_term(terms[3]),
        ]
    }
}
