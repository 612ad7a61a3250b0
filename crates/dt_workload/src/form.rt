ghost use Rattle.std.specs.Prelude.{◌≡◌, ◌≢◌, ◌<◌, ◌≤◌, ◌^◌, ◌∷◌, ◌++◌, List, length, map, codes, IfOk, MatchOption, All};
ghost use Rattle.dt_lists.specs.Lists.{AllIn};
ghost use Rattle.dt_text.specs.Reading.{IsWordIn};
ghost use Rattle.dt_text.specs.Values.{IsRowValue};
ghost use Rattle.dt_workload.specs.Lines.{HasForm, IsRanked, argument_word, bare, said};
ghost use Rattle.dt_text.specs.Texts.{Bytes};
ghost use Rattle.dt_workload.specs.Lines as lines;
ghost use Rattle.dt_workload.specs.ReaderInner.{form_of, ReadsForm, ReadsRank, ReadsRegion};
ghost use Rattle.dt_text.specs.declared.Value.{Value as AnyValue};

use dt_eval::Args;
use dt_text::{NoMemory, Value, Word, read_i64, read_u32, words};
use std::alloc::Global;

/// What a line of a workload file says.
#[derive(Drop)]
pub(crate) enum Form<'a> {
    /// A session of this name, at a region.
    Session(&'a [u8], u32),
    /// A call of this rank, of the procedure of this name, with its arguments.
    Call(u8, &'a [u8], Args),
    /// A move of this rank, of a key to a region.
    Move(u8, &'a [u8], u32),
}

/// Reads what a line says; `None` exactly where it has none of the forms.
pub(crate) fn read_form<'a>(alloc: Global, line: &'a [u8]) -> Result<Option<Form<'a>>, NoMemory>
    requires { length line.now < 2 ^ 32 }
    ensures { IfOk result (λ form. MatchOption form
        ((f : lines.Form) → ¬ (HasForm line.now f)) (λ f. HasForm line.now (form_of f))) }
{
    match words(alloc, line)? {
        Some(words) => form_of_words(alloc, line, words.as_slice()),
        None => Ok(None),
    }
}

/// The form that words of a line have.
#[tactic(auto, using(crate::proofs::Forms::few_words, crate::proofs::Forms::no_first_word, crate::proofs::Forms::no_second_word, crate::proofs::Forms::two_and_others))]
fn form_of_words<'a>(
    alloc: Global,
    line: &'a [u8],
    words: &[Word],
) -> Result<Option<Form<'a>>, NoMemory>
    requires short { length line.now < 2 ^ 32 }
    requires inside { All (IsWordIn line.now) words.now }
    ensures { IfOk result (ReadsForm (map (said line.now) words.now)) }
{
    let [first, second, rest @ ..] = words else {
        return Ok(None);
    };
    let Some(kind) = bare_word(line, first) else {
        return Ok(None);
    };
    let Some(subject) = bare_word(line, second) else {
        return Ok(None);
    };
    form_of_kind(alloc, line, kind, subject, rest)
}

/// The form of a line that begins with these two bare words.
#[tactic(auto, using(crate::proofs::Forms::no_kind))]
fn form_of_kind<'a>(
    alloc: Global,
    line: &'a [u8],
    kind: &[u8],
    subject: &'a [u8],
    rest: &[Word],
) -> Result<Option<Form<'a>>, NoMemory>
    requires short { length line.now < 2 ^ 32 }
    requires small { length kind.now < 2 ^ 32 }
    requires inside { All (IsWordIn line.now) rest.now }
    ensures { IfOk result (ReadsForm (bare kind.now ∷ bare subject.now ∷ map (said line.now) rest.now)) }
{
    if kind == b"session".as_slice() {
        return Ok(session_form(line, subject, rest));
    }
    if let Some(rank) = rank_after(kind, b"call") {
        return call_form(alloc, line, rank, subject, rest);
    }
    if let Some(rank) = rank_after(kind, b"move") {
        return Ok(move_form(line, rank, subject, rest));
    }
    Ok(None)
}

/// The form of a line of a session.
#[tactic(auto, using(crate::proofs::Forms::no_session_form))]
fn session_form<'a>(line: &[u8], subject: &'a [u8], rest: &[Word]) -> Option<Form<'a>>
    requires short { length line.now < 2 ^ 32 }
    requires inside { All (IsWordIn line.now) rest.now }
    ensures { ReadsForm (bare (codes "session") ∷ bare subject.now ∷ map (said line.now) rest.now) result }
{
    let region = region_after(line, b"at", rest)?;
    Some(Form::Session(subject, region))
}

/// The form of a line of a call of this rank.
#[tactic(auto, using(crate::proofs::Forms::no_call_form))]
fn call_form<'a>(
    alloc: Global,
    line: &[u8],
    rank: u8,
    subject: &'a [u8],
    rest: &[Word],
) -> Result<Option<Form<'a>>, NoMemory>
    requires short { length line.now < 2 ^ 32 }
    requires rank { rank < 10 }
    requires inside { All (IsWordIn line.now) rest.now }
    ensures { (word : Bytes) → IsRanked (codes "call") rank (bare word)
        → IfOk result (ReadsForm (bare word ∷ bare subject.now ∷ map (said line.now) rest.now)) }
{
    let Some(args) = arguments(alloc, line, rest)? else {
        return Ok(None);
    };
    Ok(Some(Form::Call(rank, subject, args)))
}

/// The form of a line of a move of this rank.
#[tactic(auto, using(crate::proofs::Forms::no_move_form))]
fn move_form<'a>(line: &[u8], rank: u8, subject: &'a [u8], rest: &[Word]) -> Option<Form<'a>>
    requires short { length line.now < 2 ^ 32 }
    requires rank { rank < 10 }
    requires inside { All (IsWordIn line.now) rest.now }
    ensures { (word : Bytes) → IsRanked (codes "move") rank (bare word)
        → ReadsForm (bare word ∷ bare subject.now ∷ map (said line.now) rest.now) result }
{
    let region = region_after(line, b"to", rest)?;
    Some(Form::Move(rank, subject, region))
}

/// The rank that a word says which begins a line of this kind: that of the digit after a `/`, or 5 where it is the kind alone.
#[tactic(auto, using(crate::proofs::Forms::no_rank, crate::proofs::Forms::no_digit))]
fn rank_after(word: &[u8], kind: &[u8]) -> Option<u8>
    requires short { length word.now < 2 ^ 32 }
    ensures { ReadsRank kind.now word.now result }
{
    if word == kind {
        return Some(5);
    }
    let rank = read_u32(after_slash(word, kind)?)?;
    if rank < 10 { Some(rank as u8) } else { None }
}

/// What follows the kind and a `/` in a word, if it begins so.
#[tactic(auto, using(crate::proofs::Forms::begins_not, crate::proofs::Forms::no_slash, crate::proofs::Forms::slash_cut))]
fn after_slash<'a>(word: &'a [u8], kind: &[u8]) -> Option<&'a [u8]>
    ensures { MatchOption result ((rest : Bytes) → word.now ≢ kind.now ++ 47 ∷ rest) (λ rest. word.now ≡ kind.now ++ 47 ∷ rest.now) }
{
    let left = word.strip_prefix(kind)?;
    let rest = left.strip_prefix(b"/")?;
    Some(rest)
}

/// The bytes of a word, if it is bare.
fn bare_word<'a>(line: &'a [u8], word: &Word) -> Option<&'a [u8]>
    requires inside { IsWordIn line.now word.now }
    ensures exact { MatchOption result ((bytes : Bytes) → said line.now word.now ≢ bare bytes) (λ bytes. said line.now word.now ≡ bare bytes.now) }
    ensures short { MatchOption result (Unit {0}) (λ bytes. length bytes.now ≤ length line.now) }
{
    match word {
        Word::Bare(from, to) => Some(&line[*from as usize..*to as usize]),
        Word::Text(_) => None,
    }
}

/// The number of a region, where the words are this fixed one and the number.
fn region_after(line: &[u8], fixed: &[u8], rest: &[Word]) -> Option<u32>
    requires short { length line.now < 2 ^ 32 }
    requires inside { All (IsWordIn line.now) rest.now }
    ensures { ReadsRegion fixed.now (map (said line.now) rest.now) result }
{
    let [word, number] = rest else {
        return None;
    };
    if bare_word(line, word)? != fixed {
        return None;
    }
    read_u32(bare_word(line, number)?)
}

/// The arguments that words say.
fn arguments(alloc: Global, line: &[u8], rest: &[Word]) -> Result<Option<Args>, NoMemory>
    requires short { length line.now < 2 ^ 32 }
    requires inside { All (IsWordIn line.now) rest.now }
    ensures { IfOk result (λ found. MatchOption found
        ((args : List AnyValue) → AllIn IsRowValue args → map (said line.now) rest.now ≢ map argument_word args)
        (λ args. AllIn IsRowValue args × (map (said line.now) rest.now ≡ map argument_word args))) }
{
    let mut args = Args::new(alloc);
    for word in rest {
        match argument(alloc, line, word)? {
            Some(value) => args.push(value)?,
            None => return Ok(None),
        }
    }
    Ok(Some(args))
}

/// The argument that a word says.
fn argument(alloc: Global, line: &[u8], word: &Word) -> Result<Option<Value>, NoMemory>
    requires short { length line.now < 2 ^ 32 }
    requires inside { IsWordIn line.now word.now }
    ensures { IfOk result (λ found. MatchOption found
        ((arg : AnyValue) → IsRowValue arg → said line.now word.now ≢ argument_word arg)
        (λ arg. IsRowValue arg × (said line.now word.now ≡ argument_word arg))) }
{
    match word {
        Word::Bare(from, to) => {
            Ok(read_i64(&line[*from as usize..*to as usize]).map(Value::Int))
        }
        Word::Text(text) => Ok(Some(Value::Text(text.copy(alloc)?))),
    }
}
