//! Reading of fields. Each reader gives what the bytes begin with, and the bytes after it.

ghost use Rattle.std.specs.Prelude.{◌≡◌, ◌≤◌, length, take, drop, IfOk};
ghost use Rattle.nz_msg.specs.Codec.{number_at, number_within, run, with_count, optional};
ghost use Rattle.nz_msg.specs.Fields.{view, deadline, id, key, command, digest, answer, path};
ghost use Rattle.nz_msg.specs.Reading.{Gives};

use super::fault::Fault;
use super::message::Path;
use super::rest::Rest;
use byteorder::{BigEndian, ByteOrder};
use nz_base::{Blob, Id, Key, MAX_COMMAND, MAX_DEADLINE, MAX_VALUE, MAX_VIEW};
use nz_digest::Digest;
use nz_store::Answer;
use std::alloc::Global;

#[tactic(auto, unfolding(crate::specs::Codec::number_at))]
pub fn u8_at(bytes: Rest<'_>) -> Result<(u8, Rest<'_>), Fault>
    ensures { Gives (λ x. x) result (number_at 1 bytes.entry) }
{
    match bytes.as_slice() {
        [] => Err(Fault::at(bytes)),
        [number, ..] => Ok((*number, bytes.after(1))),
    }
}

#[tactic(auto, unfolding(crate::specs::Codec::number_at))]
fn u16_at(bytes: Rest<'_>) -> Result<(u16, Rest<'_>), Fault>
    ensures { Gives (λ x. x) result (number_at 2 bytes.entry) }
{
    if bytes.len() < 2 {
        return Err(Fault::at(bytes));
    }
    Ok((BigEndian::read_u16(bytes.as_slice()), bytes.after(2)))
}

#[tactic(auto, unfolding(crate::specs::Codec::number_at))]
pub fn u32_at(bytes: Rest<'_>) -> Result<(u32, Rest<'_>), Fault>
    ensures { Gives (λ x. x) result (number_at 4 bytes.entry) }
{
    if bytes.len() < 4 {
        return Err(Fault::at(bytes));
    }
    Ok((BigEndian::read_u32(bytes.as_slice()), bytes.after(4)))
}

#[tactic(auto, unfolding(crate::specs::Codec::number_at))]
pub fn u64_at(bytes: Rest<'_>) -> Result<(u64, Rest<'_>), Fault>
    ensures { Gives (λ x. x) result (number_at 8 bytes.entry) }
{
    if bytes.len() < 8 {
        return Err(Fault::at(bytes));
    }
    Ok((BigEndian::read_u64(bytes.as_slice()), bytes.after(8)))
}

#[tactic(auto, unfolding(crate::specs::Codec::limited_at))]
pub fn u8_within(bytes: Rest<'_>, least: u8, most: u8) -> Result<(u8, Rest<'_>), Fault>
    ensures { Gives (λ x. x) result ((number_within 1 least most).get bytes.entry) }
{
    let left = bytes.len();
    let (number, rest) = u8_at(bytes)?;
    if number < least || most < number {
        return Err(Fault::Bad(left));
    }
    Ok((number, rest))
}

#[tactic(auto, unfolding(crate::specs::Codec::limited_at))]
fn u16_within(bytes: Rest<'_>, least: u16, most: u16) -> Result<(u16, Rest<'_>), Fault>
    ensures { Gives (λ x. x) result ((number_within 2 least most).get bytes.entry) }
{
    let left = bytes.len();
    let (number, rest) = u16_at(bytes)?;
    if number < least || most < number {
        return Err(Fault::Bad(left));
    }
    Ok((number, rest))
}

#[tactic(auto, unfolding(crate::specs::Codec::limited_at))]
pub fn u32_within(bytes: Rest<'_>, least: u32, most: u32) -> Result<(u32, Rest<'_>), Fault>
    ensures { Gives (λ x. x) result ((number_within 4 least most).get bytes.entry) }
{
    let left = bytes.len();
    let (number, rest) = u32_at(bytes)?;
    if number < least || most < number {
        return Err(Fault::Bad(left));
    }
    Ok((number, rest))
}

#[tactic(auto, unfolding(crate::specs::Codec::limited_at))]
fn u64_up_to(bytes: Rest<'_>, most: u64) -> Result<(u64, Rest<'_>), Fault>
    ensures { Gives (λ x. x) result ((number_within 8 0 most).get bytes.entry) }
{
    let left = bytes.len();
    let (number, rest) = u64_at(bytes)?;
    if most < number {
        return Err(Fault::Bad(left));
    }
    Ok((number, rest))
}

pub fn view_at(bytes: Rest<'_>) -> Result<(u64, Rest<'_>), Fault>
    ensures { Gives (λ x. x) result (view.get bytes.entry) }
{
    u64_up_to(bytes, MAX_VIEW)
}

pub fn deadline_at(bytes: Rest<'_>) -> Result<(u64, Rest<'_>), Fault>
    ensures { Gives (λ x. x) result (deadline.get bytes.entry) }
{
    u64_up_to(bytes, MAX_DEADLINE)
}

// The length of a run of bytes, and what begins with the run.
#[tactic(auto, unfolding(crate::specs::Codec::run_at))]
fn text_at(bytes: Rest<'_>, most: u16) -> Result<(usize, Rest<'_>), Fault>
    ensures text { Gives (λ x. (take x.0 x.1, drop x.0 x.1)) result ((with_count (number_within 2 1 most) run).get bytes.entry) }
    ensures whole { IfOk result (λ x. x.0 ≤ length x.1) }
{
    let (len, rest) = u16_within(bytes, 1, most)?;
    let len = usize::from(len);
    if rest.len() < len {
        return Err(Fault::at(rest));
    }
    Ok((len, rest))
}

pub fn command_at(bytes: Rest<'_>) -> Result<(Blob, Rest<'_>), Fault>
    ensures { Gives (λ x. x) result (command.get bytes.entry) }
{
    let (len, text) = text_at(bytes, MAX_COMMAND)?;
    Ok((text.share(len)?, text.after(len)))
}

pub fn id_at(bytes: Rest<'_>) -> Result<(Id, Rest<'_>), Fault>
    ensures { Gives (λ x. x) result (id.get bytes.entry) }
{
    let (client, rest) = u32_at(bytes)?;
    let (num, rest) = u32_at(rest)?;
    Ok((Id { client, num }, rest))
}

pub fn key_at(bytes: Rest<'_>) -> Result<(Key, Rest<'_>), Fault>
    ensures { Gives (λ x. x) result (key.get bytes.entry) }
{
    let (deadline, rest) = deadline_at(bytes)?;
    let (client, rest) = u32_at(rest)?;
    let (num, rest) = u32_at(rest)?;
    Ok((
        Key {
            deadline,
            client,
            num,
        },
        rest,
    ))
}

#[tactic(auto, unfolding(crate::specs::Codec::run_at))]
pub fn digest_at(bytes: Rest<'_>) -> Result<(Digest, Rest<'_>), Fault>
    ensures { Gives (λ x. x) result (digest.get bytes.entry) }
{
    if bytes.len() < 20 {
        return Err(Fault::at(bytes));
    }
    let mut digest = [0; 20];
    digest.copy_from_slice(&bytes.as_slice()[..20]);
    Ok((Digest::from_bytes(digest), bytes.after(20)))
}

pub fn answer_at(alloc: Global, bytes: Rest<'_>) -> Result<(Answer, Rest<'_>), Fault>
    ensures { Gives (λ x. x) result (answer.get bytes.entry) }
{
    let (tag, rest) = u8_within(bytes, 1, 4)?;
    match tag {
        1 => Ok((Answer::Done, rest)),
        2 => {
            let (len, text) = text_at(rest, MAX_VALUE)?;
            let value = nz_store::Blob::from_slice(alloc, &text.as_slice()[..len])?;
            Ok((Answer::Value(value), text.after(len)))
        }
        3 => Ok((Answer::Absent, rest)),
        _ => Ok((Answer::Differs, rest)),
    }
}

#[tactic(auto, unfolding(crate::specs::Codec::optional_at))]
pub fn answer_if_any(alloc: Global, bytes: Rest<'_>) -> Result<(Option<Answer>, Rest<'_>), Fault>
    ensures { Gives (λ x. x) result ((optional answer).get bytes.entry) }
{
    let (flag, rest) = u8_within(bytes, 0, 1)?;
    if flag == 0 {
        return Ok((None, rest));
    }
    let (answer, rest) = answer_at(alloc, rest)?;
    Ok((Some(answer), rest))
}

pub fn path_at(bytes: Rest<'_>) -> Result<(Path, Rest<'_>), Fault>
    ensures { Gives (λ x. x) result (path.get bytes.entry) }
{
    let (number, rest) = u8_within(bytes, 1, 2)?;
    let path = if number == 1 { Path::Fast } else { Path::Slow };
    Ok((path, rest))
}
