//! Writing of fields.

ghost use Rattle.std.specs.Prelude.{◌≡◌, ◌<◌, ◌≤◌, ◌^◌, ◌++◌, List, [], OnOk, All, length, drop};
ghost use Rattle.byteorder.specs.Endian.{big_bytes};
ghost use Rattle.nz_msg.specs.Codec.{number, items_put, optional, ◌then◌};
ghost use Rattle.nz_msg.specs.Fields.{u32, u64, id, key, command, vector, answer, path, next_key, next_entry, ids, keys, entries};
ghost use Rattle.nz_msg.specs.Writing.{Adds};

use super::message::Path;
use byteorder::{BigEndian, ByteOrder};
use bytes::BufMut;
use nz_base::{Blob, Entry, EntryList, Id, IdList, Key, KeyList, MAX_REPLICAS, NoMemory};
use nz_cv::CrashVector;
use nz_store::Answer;

#[tactic(auto, unfolding(crate::specs::Codec::number_bytes))]
pub fn put_u8<B: BufMut>(out: &mut B, n: u8) -> Result<(), NoMemory>
    ensures { OnOk result (Adds (B.written out.old) (B.written out.new) ((number 1).put n)) }
{
    out.put_u8(n)?;
    Ok(())
}

#[tactic(auto, unfolding(crate::specs::Codec::number_bytes))]
fn put_u16<B: BufMut>(out: &mut B, n: u16) -> Result<(), NoMemory>
    ensures { OnOk result (Adds (B.written out.old) (B.written out.new) ((number 2).put n)) }
{
    out.put_slice(&n.to_be_bytes())?;
    Ok(())
}

#[tactic(auto, unfolding(crate::specs::Codec::number_bytes))]
pub fn put_u32<B: BufMut>(out: &mut B, n: u32) -> Result<(), NoMemory>
    ensures { OnOk result (Adds (B.written out.old) (B.written out.new) (u32.put n)) }
{
    out.put_slice(&n.to_be_bytes())?;
    Ok(())
}

#[tactic(auto, unfolding(crate::specs::Codec::number_bytes))]
pub fn put_u64<B: BufMut>(out: &mut B, n: u64) -> Result<(), NoMemory>
    ensures { OnOk result (Adds (B.written out.old) (B.written out.new) (u64.put n)) }
{
    out.put_slice(&n.to_be_bytes())?;
    Ok(())
}

/// Two numbers, of 4 bytes each.
#[tactic(auto, unfolding(crate::specs::Codec::number_bytes))]
pub fn put_two_u32<B: BufMut>(out: &mut B, first: u32, second: u32) -> Result<(), NoMemory>
    ensures { OnOk result (Adds (B.written out.old) (B.written out.new) ((u32 then u32).put (first, second))) }
{
    let mut bytes = [0; 8];
    BigEndian::write_u32(&mut bytes, first);
    BigEndian::write_u32(&mut bytes[4..], second);
    out.put_slice(&bytes)?;
    Ok(())
}

/// A number of 8 bytes and one of 4.
#[tactic(auto, unfolding(crate::specs::Codec::number_bytes))]
pub fn put_u64_u32<B: BufMut>(out: &mut B, first: u64, second: u32) -> Result<(), NoMemory>
    ensures { OnOk result (Adds (B.written out.old) (B.written out.new) ((u64 then u32).put (first, second))) }
{
    let mut bytes = [0; 12];
    BigEndian::write_u64(&mut bytes, first);
    BigEndian::write_u32(&mut bytes[8..], second);
    out.put_slice(&bytes)?;
    Ok(())
}

/// Writes a number of 8 bytes and an id over the first 16 bytes.
pub fn write_number_and_id(bytes: &mut [u8], number: u64, i: Id)
    requires { 16 ≤ length bytes.old }
    ensures { bytes.new ≡ big_bytes 8 number ++ (big_bytes 4 i.client ++ (big_bytes 4 i.num ++ drop 16 bytes.old)) }
{
    BigEndian::write_u64(bytes, number);
    BigEndian::write_u32(&mut bytes[8..], i.client);
    BigEndian::write_u32(&mut bytes[12..], i.num);
}

fn put_id<B: BufMut>(out: &mut B, i: Id) -> Result<(), NoMemory>
    ensures { OnOk result (Adds (B.written out.old) (B.written out.new) (id.put i)) }
{
    put_two_u32(out, i.client, i.num)
}

#[tactic(auto, unfolding(crate::specs::Codec::number_bytes))]
fn put_key<B: BufMut>(out: &mut B, k: &Key) -> Result<(), NoMemory>
    ensures { OnOk result (Adds (B.written out.old) (B.written out.new) (key.put k.now)) }
{
    let mut bytes = [0; 16];
    write_number_and_id(&mut bytes, k.deadline, k.id());
    out.put_slice(&bytes)?;
    Ok(())
}

// A run of bytes after its length.
fn put_text<B: BufMut>(out: &mut B, bytes: &[u8]) -> Result<(), NoMemory>
    requires { length bytes.now < 2 ^ 16 }
    ensures { OnOk result (Adds (B.written out.old) (B.written out.new) (command.put bytes.now)) }
{
    put_u16(out, bytes.len() as u16)?;
    out.put_slice(bytes)?;
    Ok(())
}

pub fn put_answer<B: BufMut>(out: &mut B, a: &Answer) -> Result<(), NoMemory>
    requires { answer.fits a.now }
    ensures { OnOk result (Adds (B.written out.old) (B.written out.new) (answer.put a.now)) }
{
    match a {
        Answer::Done => put_u8(out, 1),
        Answer::Value(text) => {
            put_u8(out, 2)?;
            put_text(out, text.as_slice())
        }
        Answer::Absent => put_u8(out, 3),
        Answer::Differs => put_u8(out, 4),
    }
}

pub fn put_answer_if_any<B: BufMut>(out: &mut B, a: &Option<Answer>) -> Result<(), NoMemory>
    requires { (optional answer).fits a.now }
    ensures { OnOk result (Adds (B.written out.old) (B.written out.new) ((optional answer).put a.now)) }
{
    match a {
        None => put_u8(out, 0),
        Some(a) => {
            put_u8(out, 1)?;
            put_answer(out, a)
        }
    }
}

pub fn put_path<B: BufMut>(out: &mut B, p: Path) -> Result<(), NoMemory>
    ensures { OnOk result (Adds (B.written out.old) (B.written out.new) (path.put p)) }
{
    match p {
        Path::Fast => put_u8(out, 1),
        Path::Slow => put_u8(out, 2),
    }
}

// The bytes of the longest vector: its size, and a counter for each replica.
const VECTOR_SIZE: usize = 1 + 4 * MAX_REPLICAS;

#[tactic(auto, unfolding(crate::specs::Codec::number_bytes))]
pub fn put_vector<B: BufMut>(out: &mut B, v: &CrashVector) -> Result<(), NoMemory>
    ensures { OnOk result (Adds (B.written out.old) (B.written out.new) (vector.put v.now)) }
{
    let counters = v.as_slice();
    let mut bytes = [0; VECTOR_SIZE];
    bytes[0] = v.size();
    for (place, counter) in counters.iter().enumerate() {
        BigEndian::write_u32(&mut bytes[1 + 4 * place..], *counter);
    }
    out.put_slice(&bytes[..1 + 4 * counters.len()])?;
    Ok(())
}

fn put_each_id<B: BufMut>(out: &mut B, list: &[Id]) -> Result<(), NoMemory>
    ensures { OnOk result (Adds (B.written out.old) (B.written out.new) (items_put (λ _. id) [] list.now)) }
{
    for i in list {
        put_id(out, *i)?;
    }
    Ok(())
}

pub fn put_ids<B: BufMut>(out: &mut B, list: &IdList) -> Result<(), NoMemory>
    requires { ids.fits list.now }
    ensures { OnOk result (Adds (B.written out.old) (B.written out.new) (ids.put list.now)) }
{
    put_u8(out, list.len() as u8)?;
    put_each_id(out, list.as_slice())
}

fn put_each_key<B: BufMut>(out: &mut B, list: &[Key]) -> Result<(), NoMemory>
    ensures { OnOk result (Adds (B.written out.old) (B.written out.new) (items_put next_key [] list.now)) }
{
    for k in list {
        put_key(out, k)?;
    }
    Ok(())
}

pub fn put_keys<B: BufMut>(out: &mut B, list: &KeyList) -> Result<(), NoMemory>
    requires { keys.fits list.now }
    ensures { OnOk result (Adds (B.written out.old) (B.written out.new) (keys.put list.now)) }
{
    put_u8(out, list.len() as u8)?;
    put_each_key(out, list.as_slice())
}

// The key and the length of the command, at once, and then the command.
#[tactic(auto, unfolding(crate::specs::Codec::number_bytes))]
fn put_entry<B: BufMut>(out: &mut B, entry: &Entry) -> Result<(), NoMemory>
    requires { command.fits entry.now.command }
    ensures { OnOk result (Adds (B.written out.old) (B.written out.new) ((next_entry []).put entry.now)) }
{
    let command = entry.command.as_slice();
    let mut head = [0; 18];
    write_number_and_id(&mut head, entry.key.deadline, entry.key.id());
    BigEndian::write_u16(&mut head[16..], command.len() as u16);
    out.put_slice(&head)?;
    out.put_slice(command)?;
    Ok(())
}

fn put_each_entry<B: BufMut>(out: &mut B, list: &[Entry]) -> Result<(), NoMemory>
    requires { All (λ e. command.fits e.command) list.now }
    ensures { OnOk result (Adds (B.written out.old) (B.written out.new) (items_put next_entry [] list.now)) }
{
    for entry in list {
        put_entry(out, entry)?;
    }
    Ok(())
}

pub fn put_entries<B: BufMut>(out: &mut B, list: &EntryList) -> Result<(), NoMemory>
    requires { All (λ e. command.fits e.command) list.now }
    ensures { OnOk result (Adds (B.written out.old) (B.written out.new) ((entries 0 0).put list.now)) }
{
    put_u32(out, list.len())?;
    put_each_entry(out, list.as_slice())
}
