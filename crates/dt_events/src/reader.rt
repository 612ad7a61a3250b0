ghost use Rattle.std.specs.Prelude.{◌≡◌, ℕ, ◌<◌, ◌^◌, ◌∷◌, ◌≢◌, [], List, Some, length, map, codes, IfOk, MatchOption, Err};
ghost use Rattle.std.specs.Fmt.{decimal};
ghost use Rattle.dt_text.specs.Lines.{lines_of};
ghost use Rattle.dt_text.specs.Numbers.{ReadsNumber};
ghost use Rattle.dt_text.specs.Texts.{IsName};
ghost use Rattle.dt_access.specs.Ids.{id_text};
ghost use Rattle.dt_events.specs.Events.{AreEvents, FirstWithoutForm, IsEventLine};
ghost use Rattle.dt_events.specs.ReadingInner.{AreIds, AreShort, Reads, ReadsEvent, spelled};

use crate::common_lines::common_event;
use crate::event::Event;
use crate::numbered::NumberedEvents;
use crate::recent_names::RecentNames;
use crate::words::bare_words;
use dt_access::{Ids, read_id};
use dt_text::{Common, Lines, Name, NoMemory, are_same, read_u32};
use std::alloc::{AllocFailed, Global};
use std::fmt;

/// Why a file is no list of events.
#[derive(Clone, Copy, Debug, PartialEq, Eq)]
pub enum EventsError {
    /// The line with this number, counted from 1, is the first that is not skipped and is no event.
    Form(u32),
    /// Memory ran out.
    NoMemory,
}

impl fmt::Display for EventsError {
    fn fmt<W: fmt::Write>(&self, f: &mut fmt::Formatter<W>) -> fmt::Result {
        match self {
            EventsError::Form(line) => write!(f, "line {line} is no event"),
            EventsError::NoMemory => write!(f, "no memory"),
        }
    }
}

impl std::error::Error for EventsError {}

impl From<NoMemory> for EventsError {
    ghost use Rattle.std.specs.Prelude.{◌≡◌};
    ghost use Rattle.dt_events.specs.declared.reader.EventsError.TheVariants.{NoMemory as OutOfMemory};

    ghost from_gives = { λ _ e. e ≡ OutOfMemory };

    fn from(_error: NoMemory) -> Self {
        EventsError::NoMemory
    }
}

impl<T: Drop> From<AllocFailed<T>> for EventsError {
    ghost use Rattle.std.specs.Prelude.{◌≡◌};
    ghost use Rattle.dt_events.specs.declared.reader.EventsError.TheVariants.{NoMemory as OutOfMemory};

    ghost from_gives = { λ _ e. e ≡ OutOfMemory };

    fn from(_error: AllocFailed<T>) -> Self {
        EventsError::NoMemory
    }
}

/// Reads a file of events: each with the number of its line, in order.
///
/// A line is an event where it is made of the event's words: `submit R S`, `append H R K`,
/// `deliver R H A B`, `insert R H`, `resolve R ID ID` with two or more ids, `execute R ID` or
/// `answer R S`. A region is a number at most 255, any other number is at most 4294967295, and a
/// session is a name. `Form` names the first line that is neither skipped nor an event.
pub fn read_events(alloc: Global, bytes: &[u8]) -> Result<NumberedEvents, EventsError>
    requires { length bytes.now < 2 ^ 32 }
    ensures events { IfOk result (λ events. AreEvents bytes.now events) }
    ensures form { (number : ℕ) → result ≡ Err (EventsError.Form number) → FirstWithoutForm (lines_of bytes.now) number }
{
    // Lines have more bytes than this on the mean, so that the lists are seldom moved while they grow.
    let mut events = NumberedEvents::with_capacity(alloc, bytes.len() / 12)?;
    let mut names = RecentNames::new(alloc)?;
    let mut words = Vec::new(alloc);
    let mut lines = Lines::new(bytes);
    while let Some(line) = lines.next() {
        match read_event(alloc, line.bytes, &mut names, &mut words)? {
            Some(event) => events.push(line.number, event)?,
            None => return Err(EventsError::Form(line.number)),
        }
    }
    Ok(events)
}

/// Reads the event of a line. `None` exactly where the line is no event. Its words are left in `words`, so that one list serves
/// all lines.
fn read_event<'a>(
    alloc: Global,
    line: &'a [u8],
    names: &mut RecentNames,
    words: &mut Vec<&'a [u8]>,
) -> Result<Option<Event>, NoMemory>
    requires { length line.now < 2 ^ 32 }
    ensures { IfOk result (λ event. MatchOption event ((e : Event) → ¬ IsEventLine line.now e) (IsEventLine line.now)) }
{
    if let Some(event) = common_event(alloc, line, &mut *names)? {
        return Ok(Some(event));
    }
    let made = bare_words(line, &mut *words)?;
    if !made {
        return Ok(None);
    }
    event_of_words(alloc, words.as_slice(), names)
}

/// The event with these words.
fn event_of_words(
    alloc: Global,
    words: &[&[u8]],
    names: &mut RecentNames,
) -> Result<Option<Event>, NoMemory>
    requires { AreShort (spelled words.now) }
    ensures { IfOk result (ReadsEvent (spelled words.now)) }
{
    let Some((kind, rest)) = words.split_first() else {
        return Ok(None);
    };
    let Some((region, arguments)) = rest.split_first() else {
        return Ok(None);
    };
    let Some(region) = read_region(region) else {
        return Ok(None);
    };
    event_of_kind(alloc, kind, region, arguments, names)
}

/// The event of this kind and region with these arguments.
fn event_of_kind(
    alloc: Global,
    kind: &[u8],
    region: u8,
    arguments: &[&[u8]],
    names: &mut RecentNames,
) -> Result<Option<Event>, NoMemory>
    requires { AreShort (spelled arguments.now) }
    ensures { IfOk result (ReadsEvent (kind.now ∷ decimal region ∷ spelled arguments.now)) }
{
    if are_same(kind, b"submit") {
        submit(alloc, region, arguments, names)
    } else if are_same(kind, b"append") {
        Ok(append(region, arguments))
    } else if are_same(kind, b"deliver") {
        Ok(deliver(region, arguments))
    } else if are_same(kind, b"insert") {
        Ok(insert(region, arguments))
    } else if are_same(kind, b"resolve") {
        resolve(alloc, region, arguments)
    } else if are_same(kind, b"execute") {
        Ok(execute(region, arguments))
    } else if are_same(kind, b"answer") {
        answer(alloc, region, arguments, names)
    } else {
        Ok(None)
    }
}

fn submit(
    alloc: Global,
    region: u8,
    arguments: &[&[u8]],
    names: &mut RecentNames,
) -> Result<Option<Event>, NoMemory>
    requires { AreShort (spelled arguments.now) }
    ensures { IfOk result (ReadsEvent (codes "submit" ∷ decimal region ∷ spelled arguments.now)) }
{
    let Some(session) = read_session(alloc, arguments, names)? else {
        return Ok(None);
    };
    Ok(Some(Event::Submit { region, session }))
}

fn append(home: u8, arguments: &[&[u8]]) -> Option<Event>
    requires { AreShort (spelled arguments.now) }
    ensures { ReadsEvent (codes "append" ∷ decimal home ∷ spelled arguments.now) result }
{
    let (source, number) = two_words(arguments)?;
    let source = read_region(source)?;
    let number = read_u32(number)?;
    Some(Event::Append {
        home,
        source,
        number,
    })
}

fn deliver(region: u8, arguments: &[&[u8]]) -> Option<Event>
    requires { AreShort (spelled arguments.now) }
    ensures { ReadsEvent (codes "deliver" ∷ decimal region ∷ spelled arguments.now) result }
{
    let (home, first, last) = three_words(arguments)?;
    let home = read_region(home)?;
    let first = read_u32(first)?;
    let last = read_u32(last)?;
    Some(Event::Deliver {
        region,
        home,
        first,
        last,
    })
}

fn insert(region: u8, arguments: &[&[u8]]) -> Option<Event>
    requires { AreShort (spelled arguments.now) }
    ensures { ReadsEvent (codes "insert" ∷ decimal region ∷ spelled arguments.now) result }
{
    let home = read_region(one_word(arguments)?)?;
    Some(Event::Insert { region, home })
}

fn resolve(alloc: Global, region: u8, arguments: &[&[u8]]) -> Result<Option<Event>, NoMemory>
    requires { AreShort (spelled arguments.now) }
    ensures { IfOk result (ReadsEvent (codes "resolve" ∷ decimal region ∷ spelled arguments.now)) }
{
    let Some(ids) = read_ids(alloc, arguments)? else {
        return Ok(None);
    };
    if ids.len() < 2 {
        return Ok(None);
    }
    let ids = Common::new(alloc, ids)?;
    Ok(Some(Event::Resolve { region, ids }))
}

fn execute(region: u8, arguments: &[&[u8]]) -> Option<Event>
    requires { AreShort (spelled arguments.now) }
    ensures { ReadsEvent (codes "execute" ∷ decimal region ∷ spelled arguments.now) result }
{
    let id = read_id(one_word(arguments)?)?;
    Some(Event::Execute { region, id })
}

fn answer(
    alloc: Global,
    region: u8,
    arguments: &[&[u8]],
    names: &mut RecentNames,
) -> Result<Option<Event>, NoMemory>
    requires { AreShort (spelled arguments.now) }
    ensures { IfOk result (ReadsEvent (codes "answer" ∷ decimal region ∷ spelled arguments.now)) }
{
    let Some(session) = read_session(alloc, arguments, names)? else {
        return Ok(None);
    };
    Ok(Some(Event::Answer { region, session }))
}

/// The only word.
fn one_word<'a>(words: &[&'a [u8]]) -> Option<&'a [u8]>
    ensures { MatchOption result ((a : List ℕ) → spelled words.now ≢ a ∷ []) (λ w. spelled words.now ≡ w.now ∷ []) }
{
    let [word] = words else {
        return None;
    };
    Some(word)
}

/// The two words, if there are as many.
fn two_words<'a>(words: &[&'a [u8]]) -> Option<(&'a [u8], &'a [u8])>
    ensures { MatchOption result ((a b : List ℕ) → spelled words.now ≢ a ∷ b ∷ [])
        (λ w. spelled words.now ≡ w.0.now ∷ w.1.now ∷ []) }
{
    let [first, second] = words else {
        return None;
    };
    Some((first, second))
}

/// The three words, if there are as many.
fn three_words<'a>(words: &[&'a [u8]]) -> Option<(&'a [u8], &'a [u8], &'a [u8])>
    ensures { MatchOption result ((a b c : List ℕ) → spelled words.now ≢ a ∷ b ∷ c ∷ [])
        (λ w. spelled words.now ≡ w.0.now ∷ w.1.now ∷ w.2.now ∷ []) }
{
    let [first, second, third] = words else {
        return None;
    };
    Some((first, second, third))
}

/// Reads the number of a region: at most 255.
fn read_region(word: &[u8]) -> Option<u8>
    requires { length word.now < 2 ^ 32 }
    ensures { ReadsNumber (2 ^ 8) word.now result }
{
    u8::try_from(read_u32(word)?).ok()
}

/// Reads the only word as the name of a session.
fn read_session(
    alloc: Global,
    words: &[&[u8]],
    names: &mut RecentNames,
) -> Result<Option<Name>, NoMemory>
    requires { AreShort (spelled words.now) }
    ensures { IfOk result (Reads IsName (λ name. name ∷ []) (spelled words.now)) }
{
    let Some(word) = one_word(words) else {
        return Ok(None);
    };
    names.read(alloc, word)
}

/// Reads ids, one from each word.
fn read_ids(alloc: Global, words: &[&[u8]]) -> Result<Option<Ids>, NoMemory>
    requires { AreShort (spelled words.now) }
    ensures { IfOk result (Reads AreIds (map id_text) (spelled words.now)) }
{
    let mut ids = Ids::new(alloc);
    for word in words {
        let Some(id) = read_id(word) else {
            return Ok(None);
        };
        ids.push(id)?;
    }
    Ok(Some(ids))
}
