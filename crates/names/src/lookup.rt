// Looking up names in the lines of a sheet.
ghost use Rattle.std.specs.Prelude.{◌≡◌, ◌↔◌, ◌<◌, IsTrue, IfSome, length};
ghost use Rattle.grammar.specs.Tables.{word_of};
ghost use Rattle.grammar.specs.declared.table.Word.{Word};
ghost use Rattle.names.specs.Names.{spelling};
ghost use Rattle.names.specs.Looking.{Found, SomeOf, Alike};

use grammar::table::{FieldLine, RuleLine, Word};

// What has a name.
pub(crate) trait Named {
    ghost called: { Self → Word };

    fn name(&self) -> Word
        ensures { result ≡ called self.now };
}

impl Named for FieldLine {
    ghost called = { λ field. field.name };

    fn name(&self) -> Word {
        self.name
    }
}

impl Named for RuleLine {
    ghost called = { λ rule. rule.name };

    fn name(&self) -> Word {
        self.name
    }
}

impl Named for Word {
    ghost called = { λ word. word };

    fn name(&self) -> Word {
        *self
    }
}

// The bytes of a name; a span past the end of the text is cut there.
fn spelled<'a>(text: &'a [u8], word: Word) -> &'a [u8]
    ensures { result.now ≡ spelling (word_of text.now word) }
{
    let start = word.place.min(text.len());
    let end = start + word.length.min(text.len() - start);
    &text[start..end]
}

// Whether two names are spelled alike.
pub(crate) fn alike(text: &[u8], one: Word, other: Word) -> bool
    ensures { IsTrue result ↔ Alike text.now one other }
{
    spelled(text, one) == spelled(text, other)
}

// The number of an item with that name.
pub(crate) fn find<T: Named>(text: &[u8], items: &[T], name: Word) -> Option<usize>
    ensures found { Found (λ item. Alike text.now (T.called item) name) items.now result }
    ensures within { IfSome result (λ i. i < length items.now) }
{
    items.iter().position(|item| alike(text, item.name(), name))
}

// Whether an item has that name.
pub(crate) fn contains<T: Named>(text: &[u8], items: &[T], name: Word) -> bool
    ensures { IsTrue result ↔ SomeOf (λ item. Alike text.now (T.called item) name) items.now }
{
    find(text, items, name).is_some()
}
