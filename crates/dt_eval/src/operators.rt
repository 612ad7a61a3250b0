ghost use Rattle.std.specs.Prelude.{◌≡◌, ◌++◌, Some, Ok, IfOk, IfSome, option_copied};
ghost use Rattle.std.specs.Fmt.{signed_decimal};
ghost use Rattle.dt_text.specs.Texts.{IsStr};
ghost use Rattle.dt_proc.specs.declared.tree.Sort.TheVariants as sort;
ghost use Rattle.dt_proc.specs.Sound.{IsStoredSort, TakesSort};
ghost use Rattle.dt_eval.specs.declared.state.Datum.TheVariants.{Int, Bool as Truth};
ghost use Rattle.dt_eval.specs.Data.{sort_of_datum, stored};
ghost use Rattle.dt_eval.specs.Expressions as spec;
ghost use Rattle.dt_eval.specs.FrameInner.{EvalAnswers, TakesBoth, or_overflow};

use crate::finish::Cause;
use crate::state::Datum;
use crate::stop::Stop;
use dt_proc::Op;
use dt_text::{NoMemory, Str, Value, put_i64};
use std::alloc::Global;

/// The number in a row.
pub(crate) fn number_in(value: Option<&Value>) -> Result<Datum, Stop>
    ensures { EvalAnswers (spec.number_in (option_copied value.entry)) result }
{
    match value {
        Some(Value::Int(number)) => Ok(Datum::Int(*number)),
        _ => Err(Stop::Aborted(Cause::Kind)),
    }
}

/// The number in a row, if there is one.
pub(crate) fn number_at(value: Option<&Value>) -> Option<i64>
    ensures { IfSome result (λ number. spec.number_in (option_copied value.entry) ≡ Ok (Int number)) }
{
    match value {
        Some(Value::Int(number)) => Some(*number),
        _ => None,
    }
}

/// The text in a row.
pub(crate) fn text_in(alloc: Global, value: Option<&Value>) -> Result<Datum, Stop>
    ensures { EvalAnswers (spec.text_in (option_copied value.entry)) result }
{
    match value {
        Some(Value::Text(text)) => Ok(Datum::Text(text.copy(alloc)?)),
        _ => Err(Stop::Aborted(Cause::Kind)),
    }
}

/// The number that an expression gave.
fn given_number(datum: Datum) -> i64
    requires { sort_of_datum datum ≡ sort.Int }
    ensures { datum ≡ Int result }
{
    match datum {
        Datum::Int(number) => number,
        _ => unreachable!(),
    }
}

/// The truth that an expression gave.
pub(crate) fn truth_of(datum: Datum) -> bool
    requires { sort_of_datum datum ≡ sort.Bool }
    ensures { datum ≡ Truth result }
{
    match datum {
        Datum::Bool(truth) => truth,
        _ => unreachable!(),
    }
}

/// What an expression gave, as a row has it.
pub(crate) fn stored(datum: Datum) -> Value
    requires { IsStoredSort (sort_of_datum datum) }
    ensures { stored datum ≡ Some result }
{
    match datum {
        Datum::Int(number) => Value::Int(number),
        Datum::Text(text) => Value::Text(text),
        Datum::Bool(_) => unreachable!(),
    }
}

/// How many bytes a text has.
pub(crate) fn byte_count(datum: Datum) -> Datum
    requires { sort_of_datum datum ≡ sort.Text }
    ensures { spec.byte_count datum ≡ Ok result }
{
    match datum {
        Datum::Text(text) => Datum::Int(text.bytes().len() as i64),
        _ => unreachable!(),
    }
}

/// The printed form of a number.
#[tactic(auto, using(crate::proofs::TextLaws::signed_is_str))]
pub(crate) fn printed(alloc: Global, datum: Datum) -> Result<Datum, Stop>
    requires { sort_of_datum datum ≡ sort.Int }
    ensures { EvalAnswers (spec.printed_datum datum) result }
{
    let bytes = digits_of(alloc, given_number(datum))?;
    Ok(Datum::Text(Str::new(alloc, bytes.as_slice())?))
}

/// The bytes of the printed form of a number.
#[tactic(auto, using(crate::proofs::TextLaws::signed_is_str))]
fn digits_of(alloc: Global, number: i64) -> Result<Vec<u8>, NoMemory>
    ensures { IfOk result (λ bytes. (bytes.items ≡ signed_decimal number) × IsStr (signed_decimal number)) }
{
    let mut bytes = Vec::new(alloc);
    put_i64(alloc, &mut bytes, number)?;
    Ok(bytes)
}

/// The number with the other sign.
pub(crate) fn negated(datum: Datum) -> Result<Datum, Cause>
    requires { sort_of_datum datum ≡ sort.Int }
    ensures { result ≡ spec.negated datum }
{
    in_range(given_number(datum).checked_neg())
}

/// The other truth.
pub(crate) fn opposite(datum: Datum) -> Datum
    requires { sort_of_datum datum ≡ sort.Bool }
    ensures { spec.other_truth datum ≡ Ok result }
{
    Datum::Bool(!truth_of(datum))
}

/// The number, or `Overflow` where there is none.
fn in_range(number: Option<i64>) -> Result<Datum, Cause>
    ensures { result ≡ or_overflow number }
{
    match number {
        Some(number) => Ok(Datum::Int(number)),
        None => Err(Cause::Overflow),
    }
}

/// Whether the left operand decides: `and` by false, `or` by true.
pub(crate) fn decides(op: Op, left: &Datum) -> bool
    ensures { result ≡ spec.decides op left.now }
{
    match left {
        Datum::Bool(true) => matches!(op, Op::Or),
        Datum::Bool(false) => matches!(op, Op::And),
        _ => false,
    }
}

/// What an operator gives of two operands.
pub(crate) fn operate(alloc: Global, op: Op, left: Datum, right: Datum) -> Result<Datum, Stop>
    requires { TakesBoth op left right }
    ensures { EvalAnswers (spec.operate op left right) result }
{
    match (left, right) {
        (Datum::Int(left), Datum::Int(right)) => Ok(of_numbers(op, left, right)?),
        (Datum::Text(left), Datum::Text(right)) => of_texts(alloc, op, &left, &right),
        (Datum::Bool(left), Datum::Bool(right)) => Ok(of_truths(op, left, right)),
        _ => unreachable!(),
    }
}

/// What an operator gives of two numbers.
pub(crate) fn of_numbers(op: Op, left: i64, right: i64) -> Result<Datum, Cause>
    requires { TakesSort op sort.Int }
    ensures { result ≡ spec.of_numbers op left right }
{
    match op {
        Op::Equal => Ok(Datum::Bool(left == right)),
        Op::Differ => Ok(Datum::Bool(left != right)),
        Op::Less => Ok(Datum::Bool(left < right)),
        Op::AtMost => Ok(Datum::Bool(left <= right)),
        Op::More => Ok(Datum::Bool(left > right)),
        Op::AtLeast => Ok(Datum::Bool(left >= right)),
        Op::Add => in_range(left.checked_add(right)),
        Op::Sub => in_range(left.checked_sub(right)),
        Op::Mul => in_range(left.checked_mul(right)),
        Op::Div | Op::Rem if right == 0 => Err(Cause::Zero),
        Op::Div => in_range(left.checked_div(right)),
        Op::Rem => in_range(left.checked_rem(right)),
        Op::Or | Op::And | Op::Join => unreachable!(),
    }
}

/// The number that an operator gives of two numbers, if it is a sum, a difference or a product that fits.
pub(crate) fn computed(op: Op, left: i64, right: i64) -> Option<i64>
    ensures { IfSome result (λ number. spec.of_numbers op left right ≡ Ok (Int number)) }
{
    match op {
        Op::Add => left.checked_add(right),
        Op::Sub => left.checked_sub(right),
        Op::Mul => left.checked_mul(right),
        _ => None,
    }
}

/// The truth that an operator gives of two numbers, if it compares them.
pub(crate) fn compared(op: Op, left: i64, right: i64) -> Option<bool>
    ensures { IfSome result (λ truth. spec.of_numbers op left right ≡ Ok (Truth truth)) }
{
    match op {
        Op::Equal => Some(left == right),
        Op::Differ => Some(left != right),
        Op::Less => Some(left < right),
        Op::AtMost => Some(left <= right),
        Op::More => Some(left > right),
        Op::AtLeast => Some(left >= right),
        _ => None,
    }
}

/// What an operator gives of two texts.
fn of_texts(alloc: Global, op: Op, left: &Str, right: &Str) -> Result<Datum, Stop>
    requires { TakesSort op sort.Text }
    ensures { EvalAnswers (spec.of_texts op left.now right.now) result }
{
    match op {
        Op::Equal => Ok(Datum::Bool(left == right)),
        Op::Differ => Ok(Datum::Bool(left != right)),
        Op::Less => Ok(Datum::Bool(left < right)),
        Op::AtMost => Ok(Datum::Bool(left <= right)),
        Op::More => Ok(Datum::Bool(left > right)),
        Op::AtLeast => Ok(Datum::Bool(left >= right)),
        Op::Join => joined(alloc, left, right),
        _ => unreachable!(),
    }
}

/// The one text and then the other, or `Long` where that is no text.
#[tactic(auto, using(crate::proofs::TextLaws::joined_text))]
fn joined(alloc: Global, left: &Str, right: &Str) -> Result<Datum, Stop>
    ensures { EvalAnswers (spec.joining left.now right.now) result }
{
    if left.bytes().len() + right.bytes().len() > Str::LONGEST {
        return Err(Stop::Aborted(Cause::Long));
    }
    let bytes = bytes_of_both(alloc, left, right)?;
    Ok(Datum::Text(Str::new(alloc, bytes.as_slice())?))
}

/// The bytes of the one text and then those of the other.
fn bytes_of_both(alloc: Global, left: &Str, right: &Str) -> Result<Vec<u8>, NoMemory>
    ensures { IfOk result (λ bytes. (bytes.items ≡ left.now ++ right.now) × IsStr left.now × IsStr right.now) }
{
    let mut bytes = Vec::from_slice(alloc, left.bytes())?;
    bytes.extend_from_slice(right.bytes())?;
    Ok(bytes)
}

/// What an operator gives of two truths, the left one not deciding.
fn of_truths(op: Op, left: bool, right: bool) -> Datum
    requires { TakesSort op sort.Bool }
    ensures { spec.of_truths op left right ≡ Ok result }
{
    match op {
        Op::Or => Datum::Bool(left || right),
        Op::And => Datum::Bool(left && right),
        _ => unreachable!(),
    }
}
