// What may stand at a place of a text: each kind of token is tried there.
ghost use Rattle.std.specs.Prelude.{Decides};
ghost use Rattle.advice.specs.Permitted.{GoesOn, Tried};

use crate::kind::Kind;
use crate::reading::read;
use lines::Piece::Text;
use refusal::Refusal;

// A blank and the longest example.
const LONGEST: usize = 6;

// Whether a text can go on to a sheet.
pub fn goes_on(text: &[u8]) -> bool
    ensures { Decides result (GoesOn text.now) }
{
    match read(text) {
        Ok(_) => true,
        Err(fault) => fault.place == text.len(),
    }
}

// Whether a token of the kind may stand after these bytes. It is tried in a buffer of the caller's, which may hold
// anything afterwards.
pub fn may_stand(before: &[u8], kind: Kind, trial: &mut [u8]) -> Result<bool, Refusal>
    ensures { Tried before.now kind trial.old trial.new result }
{
    let room = trial
        .len()
        .checked_sub(LONGEST)
        .ok_or(Refusal::BufferTooShort)?;
    if room < before.len() {
        return Err(Refusal::BufferTooShort);
    }
    let end = lines::write(&[Text(before), Text(b" "), Text(kind.example())], trial)?;
    Ok(goes_on(&trial[..end]))
}
