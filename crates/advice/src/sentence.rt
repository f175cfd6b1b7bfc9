// The sentences that advise the person who wrote a text.
ghost use Rattle.std.specs.Prelude.{◌≡◌};
ghost use Rattle.advice.specs.Advice.{advice};

use refusal::Refusal;

// The advice on a refusal.
pub(crate) fn about(refusal: Refusal) -> &'static [u8]
    ensures { result.now ≡ advice refusal }
{
    match refusal {
        Refusal::TextTooLong => {
            b"the text is too long: \
            a sheet has at most 32768 bytes, and this byte is past them; leave something out"
        }
        Refusal::ByteNotPermitted => {
            b"this byte may not stand here: \
            use small letters, digits, blanks, line feeds and ( ) , ; : + - = /= < <= > >=, and / only as part of /="
        }
        Refusal::OverLimit => {
            b"this word or number is over its limit: \
            a word has at most 16 letters and digits; a number has at most four digits and is at most 1023"
        }
        Refusal::TokenNotPermitted => {
            b"this may not stand here, or something is missing before it: \
            lines are `field NAME LOW HIGH ;`, `rule NAME ( NAMES ) : FORMULA ;`, and last `mark FORMULA ;`"
        }
        Refusal::TooDeep => {
            b"this opens a 17th level: \
            brackets round a formula, `not` and `pick` nest at most 16 deep; move a part into a rule and call it"
        }
        Refusal::JoinMixes => {
            b"this join mixes with another: \
            at one level all joins are `and`, or all are `or`; put brackets round the parts that belong together"
        }
        Refusal::NameTaken => {
            b"this name is taken: \
            no two fields or rules share a name, and a parameter differs from them and its rule's other parameters"
        }
        Refusal::NameUnknown => {
            b"this name is unknown here or of the wrong kind: \
            compare or pick a field or a parameter of this rule; call this rule or one above it"
        }
        Refusal::WrongTermCount => {
            b"this call has too few or too many terms: \
            it takes one term for each parameter of the rule, parted by commas"
        }
        Refusal::WrongNumber => {
            b"this number does not fit here: \
            the LOW of a field is not above its HIGH, and a weight after a join is 1 to 1023"
        }
        Refusal::TooMany => {
            b"this line passes a limit: \
            at most 8 fields, 16 rules, 4 parameters to a rule, 16 joins to a line and 256 formulas in all"
        }
        Refusal::FieldsDiffer
        | Refusal::ListTooShort
        | Refusal::TraceUnfit
        | Refusal::NotFinished
        | Refusal::NotAMark
        | Refusal::BadSeed
        | Refusal::BufferTooShort
        | Refusal::Outside
        | Refusal::PairsFull => b"this is not a fault of the text",
    }
}
