ghost use Rattle.std.specs.Prelude.{◌<◌, ◌^◌, ℕ, List, length, IfOk, MatchBool};
ghost use Rattle.dt_events.specs.Events.{AreBareWords};
ghost use Rattle.dt_events.specs.ReadingInner.{AreShort, spelled};

use dt_text::{NoMemory, bare_end, gap_end, is_visible};

/// Finds the words of a line, which stand in it, and puts them in the place of those that were found before. `false` exactly where
/// the line is not made of bare words.
pub(crate) fn bare_words<'a>(line: &'a [u8], found: &mut Vec<&'a [u8]>) -> Result<bool, NoMemory>
    requires { length line.now < 2 ^ 32 }
    ensures exact { IfOk result (λ made. MatchBool made (AreBareWords line.now (spelled found.new.items))
        ((bares : List (List ℕ)) → ¬ AreBareWords line.now bares)) }
    ensures short { IfOk result (λ _. AreShort (spelled found.new.items)) }
{
    found.clear();
    let mut at = gap_end(line, 0);
    while at < line.len() {
        if line[at] == b'"' || !is_visible(line[at]) {
            return Ok(false);
        }
        let end = bare_end(line, at + 1);
        found.push(&line[at..end])?;
        at = gap_end(line, end);
    }
    Ok(true)
}
