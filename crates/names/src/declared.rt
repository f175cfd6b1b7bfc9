// The names that lines declare, and the ranges of fields: the first fault of a line.
ghost use Rattle.std.specs.Prelude.{◌↔◌, ◌<◌, IsTrue, length};
ghost use Rattle.names.specs.Looking.{SomeOf, Declares, ParamTaken, FieldSettled, NamesSettled};

use crate::lookup::{alike, contains};
use crate::scope::Scope;
use grammar::table::{FieldLine, RuleLine, Word};
use refusal::{Fault, Refusal};

// Whether a rule declares that name, as its own or as a parameter's.
fn is_declared(text: &[u8], rules: &[RuleLine], name: Word) -> bool
    ensures { IsTrue result ↔ SomeOf (Declares text.now name) rules.now }
{
    rules.iter().any(|rule| alike(text, rule.name, name) || contains(text, &rule.params, name))
}

// Whether a parameter's name is that of a field, of a rule above, of its own rule or of a parameter before it.
fn is_param_taken(above: Scope, own: Word, before: &[Word], param: Word) -> bool
    ensures { IsTrue result ↔ ParamTaken above.entry own before.now param }
{
    contains(above.text, above.fields, param)
        || contains(above.text, above.rules, param)
        || alike(above.text, own, param)
        || contains(above.text, before, param)
}

// The first fault of a field line below the lines above.
pub(crate) fn check_field(text: &[u8], above: &[FieldLine], field: FieldLine) -> Result<(), Fault>
    requires { length above.now < 8 }
    ensures { FieldSettled text.now above.now field result }
{
    if contains(text, above, field.name) {
        return Err(Refusal::NameTaken.at(field.name.place));
    }
    if field.high.value < field.low.value {
        return Err(Refusal::WrongNumber.at(field.low.place));
    }
    Ok(())
}

// The fault at the first name that a rule line declares, its own or a parameter's, and that is taken.
pub(crate) fn check_names(scope: Scope, own: Word) -> Result<(), Fault>
    ensures { NamesSettled scope.entry own result }
{
    if contains(scope.text, scope.fields, own) || is_declared(scope.text, scope.rules, own) {
        return Err(Refusal::NameTaken.at(own.place));
    }
    for (k, param) in scope.params.iter().enumerate() {
        if is_param_taken(scope, own, &scope.params[..k], *param) {
            return Err(Refusal::NameTaken.at(param.place));
        }
    }
    Ok(())
}
