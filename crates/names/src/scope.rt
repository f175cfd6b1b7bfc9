// What the names of a line can stand for.
ghost use Rattle.std.specs.Prelude.{◌≡◌, ◌≤◌, length, take};

use grammar::table::{FieldLine, RuleLine, Word};

// The fields, the rules that may be called, and the parameters of the line.
#[derive(Clone, Copy, PartialEq, Eq, Debug)]
pub(crate) struct Scope<'a> {
    pub(crate) text: &'a [u8],
    pub(crate) fields: &'a [FieldLine],
    pub(crate) rules: &'a [RuleLine],
    pub(crate) params: &'a [Word],
    ghost few_fields: { length fields.now ≤ 8 },
    ghost few_rules: { length rules.now ≤ 16 },
    ghost few_params: { length params.now ≤ 4 },
}

impl<'a> Scope<'a> {
    // The scope of a line with those parameters that may call the first `callable` rules.
    pub(crate) fn of_line(self, callable: usize, params: &'a [Word]) -> Scope<'a>
        requires few_rules { callable ≤ length self.rules.now }
        requires few_params { length params.now ≤ 4 }
        ensures text { result.text.now ≡ self.entry.text.now }
        ensures fields { result.fields.now ≡ self.entry.fields.now }
        ensures rules { result.rules.now ≡ take callable self.entry.rules.now }
        ensures params { result.params.now ≡ params.now }
    {
        Scope {
            text: self.text,
            fields: self.fields,
            rules: &self.rules[..callable],
            params,
        }
    }
}
