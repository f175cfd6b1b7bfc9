// The line of a text in which a place lies, and the column of the place.
ghost use Rattle.std.specs.Prelude.{◌≡◌, ◌≤◌, length, take};
ghost use Rattle.advice.specs.Laws.{OnePlace, StandsUnder};
ghost use Rattle.advice.specs.Places.{OneLine, column, end_of_line, number_of_line, line_of, start_of_line};

// A place of a text. A place past the end of the text counts as its end.
#[derive(Clone, Copy, PartialEq, Eq, Debug)]
pub struct Spot<'a> {
    pub text: &'a [u8],
    pub place: usize,
}

impl<'a> Spot<'a> {
    // The place, or the end of the text.
    fn within(self) -> usize
        ensures value { result ≡ length (take self.entry.place self.entry.text.now) }
        ensures bound { result ≤ length self.entry.text.now }
    {
        self.place.min(self.text.len())
    }

    // The number of the place's line.
    pub(crate) fn line_number(self) -> usize
        ensures { result ≡ number_of_line self.entry.text.now self.entry.place }
    {
        let before = &self.text[..self.within()];
        before.iter().filter(|byte| **byte == b'\n').count() + 1
    }

    // Where the place's line begins.
    fn line_start(self) -> usize
        ensures value { result ≡ start_of_line self.entry.text.now self.entry.place }
        ensures bound { result ≤ length (take self.entry.place self.entry.text.now) }
    {
        let end = self.within();
        let before = self.text[..end].iter().rev();
        end - before.take_while(|byte| **byte != b'\n').count()
    }

    // Where the place's line ends, before its line feed.
    fn line_end(self) -> usize
        ensures value { result ≡ end_of_line self.entry.text.now self.entry.place }
        ensures bound { result ≤ length self.entry.text.now }
    {
        let start = self.within();
        let after = self.text[start..].iter();
        start + after.take_while(|byte| **byte != b'\n').count()
    }

    // The place's column, from 1.
    pub(crate) fn column(self) -> usize
        ensures value { result ≡ column self.entry.text.now self.entry.place }
        ensures one_place { OnePlace self.entry.text.now self.entry.place }
        ensures stands_under { StandsUnder self.entry.text.now self.entry.place }
    {
        self.within() - self.line_start() + 1
    }

    // The bytes of the place's line.
    pub(crate) fn line(self) -> &'a [u8]
        ensures bytes { result.now ≡ line_of self.entry.text.now self.entry.place }
        ensures one_line { OneLine self.entry.text.now self.entry.place }
    {
        &self.text[self.line_start()..self.line_end()]
    }
}
