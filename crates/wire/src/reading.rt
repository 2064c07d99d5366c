//! Requests, read from the bodies of frames.
ghost use Rattle.std.specs.Prelude.{◌≡◌};
ghost use Rattle.wire.specs.Answers.{Gives};
ghost use Rattle.wire.specs.Reading.{insertion_at, deletion_at, range_deletion_at, mutation_at, change_at, flag_at, names_at, range_at, predicate_at, batch_at, read_at, move_at, request_at, body_at};

use crate::error::FrameError;
use crate::fields::{Field, counted, number32};
use column_family::{Batch, Change, Family, Key, Mutation, Name, Row, Value};
use logical_time::Fault;
use messages::Op;
use slice::{Keys, Names, Predicate, Read};
use std::alloc::Global;

#[tactic(auto, unfolding(crate::specs::Reading::insertion_at))]
fn insertion(alloc: Global, bytes: &[u8]) -> Result<(Mutation, &[u8]), FrameError>
    ensures { Gives (λ x. (x.0, x.1.now)) result (insertion_at bytes.now) }
{
    let (name, rest) = Name::read(alloc, bytes)?;
    let (value, rest) = Value::read(alloc, rest)?;
    Ok((Mutation::Insert { name, value }, rest))
}

#[tactic(auto, unfolding(crate::specs::Reading::deletion_at))]
fn deletion(alloc: Global, bytes: &[u8]) -> Result<(Mutation, &[u8]), FrameError>
    ensures { Gives (λ x. (x.0, x.1.now)) result (deletion_at bytes.now) }
{
    let (name, rest) = Name::read(alloc, bytes)?;
    Ok((Mutation::DeleteColumn { name }, rest))
}

#[tactic(auto, unfolding(crate::specs::Reading::range_deletion_at))]
fn range_deletion(alloc: Global, bytes: &[u8]) -> Result<(Mutation, &[u8]), FrameError>
    ensures { Gives (λ x. (x.0, x.1.now)) result (range_deletion_at bytes.now) }
{
    let (start, rest) = Name::read(alloc, bytes)?;
    let (finish, rest) = Name::read(alloc, rest)?;
    Ok((Mutation::DeleteRange { start, finish }, rest))
}

#[tactic(auto, unfolding(crate::specs::Reading::mutation_at))]
fn mutation(alloc: Global, bytes: &[u8]) -> Result<(Mutation, &[u8]), FrameError>
    ensures { Gives (λ x. (x.0, x.1.now)) result (mutation_at bytes.now) }
{
    match bytes {
        [] => Err(FrameError::Frame(Fault::Truncated)),
        [0, rest @ ..] => insertion(alloc, rest),
        [1, rest @ ..] => deletion(alloc, rest),
        [2, rest @ ..] => Ok((Mutation::DeleteRow, rest)),
        [3, rest @ ..] => range_deletion(alloc, rest),
        _ => Err(FrameError::Frame(Fault::UnknownTag)),
    }
}

impl Field for Change {
    ghost read_at = { change_at };

    #[tactic(auto, unfolding(crate::specs::Reading::change_at))]
    fn read(alloc: Global, bytes: &[u8]) -> Result<(Change, &[u8]), FrameError> {
        let (family, rest) = Family::read(alloc, bytes)?;
        let (key, rest) = Key::read(alloc, rest)?;
        let (mutation, rest) = mutation(alloc, rest)?;
        let row = Row { family, key };
        Ok((Change { row, mutation }, rest))
    }
}

#[tactic(auto, unfolding(crate::specs::Reading::flag_at))]
fn flag(bytes: &[u8]) -> Result<(bool, &[u8]), FrameError>
    ensures { Gives (λ x. (x.0, x.1.now)) result (flag_at bytes.now) }
{
    match bytes {
        [] => Err(FrameError::Frame(Fault::Truncated)),
        [0, rest @ ..] => Ok((false, rest)),
        [1, rest @ ..] => Ok((true, rest)),
        _ => Err(FrameError::Frame(Fault::UnknownTag)),
    }
}

#[tactic(auto, unfolding(crate::specs::Reading::names_at))]
fn names(alloc: Global, bytes: &[u8]) -> Result<(Predicate, &[u8]), FrameError>
    ensures { Gives (λ x. (x.0, x.1.now)) result (names_at bytes.now) }
{
    let (names, rest) = counted(alloc, bytes)?;
    Ok((Predicate::Names(Names::from_vec(alloc, names)?), rest))
}

#[tactic(auto, unfolding(crate::specs::Reading::range_at))]
fn range(alloc: Global, bytes: &[u8]) -> Result<(Predicate, &[u8]), FrameError>
    ensures { Gives (λ x. (x.0, x.1.now)) result (range_at bytes.now) }
{
    let (start, rest) = Name::read(alloc, bytes)?;
    let (finish, rest) = Name::read(alloc, rest)?;
    let (reversed, rest) = flag(rest)?;
    let (count, rest) = number32(rest)?;
    Ok((
        Predicate::Range {
            start,
            finish,
            reversed,
            count,
        },
        rest,
    ))
}

/// Which columns are asked for.
#[tactic(auto, unfolding(crate::specs::Reading::predicate_at))]
pub fn predicate(alloc: Global, bytes: &[u8]) -> Result<(Predicate, &[u8]), FrameError>
    ensures { Gives (λ x. (x.0, x.1.now)) result (predicate_at bytes.now) }
{
    match bytes {
        [] => Err(FrameError::Frame(Fault::Truncated)),
        [0, rest @ ..] => names(alloc, rest),
        [1, rest @ ..] => range(alloc, rest),
        _ => Err(FrameError::Frame(Fault::UnknownTag)),
    }
}

#[tactic(auto, unfolding(crate::specs::Reading::batch_at))]
fn batch(alloc: Global, bytes: &[u8]) -> Result<(Op, &[u8]), FrameError>
    ensures { Gives (λ x. (x.0, x.1.now)) result (batch_at bytes.now) }
{
    let (changes, rest) = counted(alloc, bytes)?;
    Ok((Op::write(alloc, Batch::from_changes(changes))?, rest))
}

#[tactic(auto, unfolding(crate::specs::Reading::read_at))]
fn read(alloc: Global, bytes: &[u8]) -> Result<(Op, &[u8]), FrameError>
    ensures { Gives (λ x. (x.0, x.1.now)) result (read_at bytes.now) }
{
    let (family, rest) = Family::read(alloc, bytes)?;
    let (keys, rest) = counted(alloc, rest)?;
    let (predicate, rest) = predicate(alloc, rest)?;
    let keys = Keys::from_vec(alloc, keys)?;
    let read = Read {
        family,
        keys,
        predicate,
    };
    Ok((Op::read(alloc, read)?, rest))
}

#[tactic(auto, unfolding(crate::specs::Reading::move_at))]
fn new_home(bytes: &[u8]) -> Result<(Op, &[u8]), FrameError>
    ensures { Gives (λ x. (x.0, x.1.now)) result (move_at bytes.now) }
{
    match bytes {
        [] => Err(FrameError::Frame(Fault::Truncated)),
        [dc, rest @ ..] => {
            let dc = u16::from(*dc);
            Ok((Op::Move { dc }, rest))
        }
    }
}

#[tactic(auto, unfolding(crate::specs::Reading::request_at))]
fn request(alloc: Global, bytes: &[u8]) -> Result<(Op, &[u8]), FrameError>
    ensures { Gives (λ x. (x.0, x.1.now)) result (request_at bytes.now) }
{
    match bytes {
        [] => Err(FrameError::Frame(Fault::Truncated)),
        [1, rest @ ..] => batch(alloc, rest),
        [2, rest @ ..] => read(alloc, rest),
        [3, rest @ ..] => new_home(rest),
        _ => Err(FrameError::Frame(Fault::UnknownTag)),
    }
}

/// The request that is the whole body, or its first fault from the left. Linear in the body.
#[tactic(auto, unfolding(crate::specs::Reading::body_at))]
pub(crate) fn body(alloc: Global, bytes: &[u8]) -> Result<Op, FrameError>
    ensures { Gives (λ op. op) result (body_at bytes.now) }
{
    let (op, rest) = request(alloc, bytes)?;
    if rest.is_empty() {
        Ok(op)
    } else {
        Err(FrameError::Frame(Fault::TrailingBytes))
    }
}
