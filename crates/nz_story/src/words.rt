//! The values of fields, each written after what is there.

ghost use Rattle.std.specs.Prelude.{◌≡◌, ◌++◌, OnOk, codes};
ghost use Rattle.std.specs.List.{flat_map};
ghost use Rattle.std.specs.Fmt.{decimal};
ghost use Rattle.nz_story.specs.Fields as fields;
ghost use Rattle.nz_story.specs.Fields.{name_text, number_field, view_field, nonce_field, id_word, key_word, after_comma, after_space};
ghost use Rattle.nz_story.specs.Fields.{key_after_space, vector_word, vector_field, digest_field, id_field, ids_field, keys_field};

use hex::encode_to_slice;
use nz_base::{Id, Key, NoMemory};
use nz_cv::CrashVector;
use nz_digest::Digest;
use nz_script::{put, put_number};

fn put_name(out: &mut Vec<u8>, name: &[u8]) -> Result<(), NoMemory>
    ensures { OnOk result (out.new.items ≡ out.old.items ++ name_text name.now) }
{
    put(out, b" ")?;
    put(out, name)?;
    put(out, b" ")
}

/// Writes a field that is a number.
pub fn put_number_field(out: &mut Vec<u8>, name: &[u8], number: u64) -> Result<(), NoMemory>
    ensures { OnOk result (out.new.items ≡ out.old.items ++ number_field name.now number) }
{
    put_name(out, name)?;
    put_number(out, number)
}

pub fn put_view(out: &mut Vec<u8>, view: u64) -> Result<(), NoMemory>
    ensures { OnOk result (out.new.items ≡ out.old.items ++ view_field view) }
{
    put_number_field(out, b"view", view)
}

pub fn put_nonce(out: &mut Vec<u8>, nonce: u64) -> Result<(), NoMemory>
    ensures { OnOk result (out.new.items ≡ out.old.items ++ nonce_field nonce) }
{
    put_number_field(out, b"nonce", nonce)
}

fn put_id_word(out: &mut Vec<u8>, id: Id) -> Result<(), NoMemory>
    ensures { OnOk result (out.new.items ≡ out.old.items ++ id_word id) }
{
    put(out, b"c")?;
    put_number(out, u64::from(id.client))?;
    put(out, b"/")?;
    put_number(out, u64::from(id.num))
}

/// Writes a key.
pub fn put_key_word(out: &mut Vec<u8>, key: &Key) -> Result<(), NoMemory>
    ensures { OnOk result (out.new.items ≡ out.old.items ++ key_word key.now) }
{
    put_number(out, key.deadline)?;
    put(out, b"/")?;
    put_id_word(out, key.id())
}

/// Writes the id of a request.
pub fn put_id(out: &mut Vec<u8>, id: Id) -> Result<(), NoMemory>
    ensures { OnOk result (out.new.items ≡ out.old.items ++ id_field id) }
{
    put(out, b" id ")?;
    put_id_word(out, id)
}

fn put_after_space(out: &mut Vec<u8>, id: Id) -> Result<(), NoMemory>
    ensures { OnOk result (out.new.items ≡ out.old.items ++ after_space id) }
{
    put(out, b" ")?;
    put_id_word(out, id)
}

fn put_each_id(out: &mut Vec<u8>, ids: &[Id]) -> Result<(), NoMemory>
    ensures { OnOk result (out.new.items ≡ out.old.items ++ flat_map after_space ids.now) }
{
    for id in ids {
        put_after_space(out, *id)?;
    }
    Ok(())
}

/// Writes all ids.
pub fn put_ids(out: &mut Vec<u8>, ids: &[Id]) -> Result<(), NoMemory>
    ensures { OnOk result (out.new.items ≡ out.old.items ++ ids_field ids.now) }
{
    put(out, b" ids")?;
    put_each_id(out, ids)
}

fn put_key_after_space(out: &mut Vec<u8>, key: &Key) -> Result<(), NoMemory>
    ensures { OnOk result (out.new.items ≡ out.old.items ++ key_after_space key.now) }
{
    put(out, b" ")?;
    put_key_word(out, key)
}

fn put_each_key(out: &mut Vec<u8>, keys: &[Key]) -> Result<(), NoMemory>
    ensures { OnOk result (out.new.items ≡ out.old.items ++ flat_map key_after_space keys.now) }
{
    for key in keys {
        put_key_after_space(out, key)?;
    }
    Ok(())
}

/// Writes all keys.
pub fn put_keys(out: &mut Vec<u8>, keys: &[Key]) -> Result<(), NoMemory>
    ensures { OnOk result (out.new.items ≡ out.old.items ++ keys_field keys.now) }
{
    put(out, b" keys")?;
    put_each_key(out, keys)
}

fn put_after_comma(out: &mut Vec<u8>, number: u32) -> Result<(), NoMemory>
    ensures { OnOk result (out.new.items ≡ out.old.items ++ after_comma number) }
{
    put(out, b",")?;
    put_number(out, u64::from(number))
}

fn put_each_after_comma(out: &mut Vec<u8>, numbers: &[u32]) -> Result<(), NoMemory>
    ensures { OnOk result (out.new.items ≡ out.old.items ++ flat_map after_comma numbers.now) }
{
    for number in numbers {
        put_after_comma(out, *number)?;
    }
    Ok(())
}

fn put_counters(out: &mut Vec<u8>, counters: &[u32]) -> Result<(), NoMemory>
    ensures { OnOk result (out.new.items ≡ out.old.items ++ vector_word counters.now) }
{
    match counters {
        [] => Ok(()),
        [first, rest @ ..] => {
            put_number(out, u64::from(*first))?;
            put_each_after_comma(out, rest)
        }
    }
}

/// Writes a crash vector.
pub fn put_vector(out: &mut Vec<u8>, vector: &CrashVector) -> Result<(), NoMemory>
    ensures { OnOk result (out.new.items ≡ out.old.items ++ vector_field vector.now) }
{
    put(out, b" vector ")?;
    put_counters(out, vector.as_slice())
}

/// The digits take no memory but that of `out`.
pub fn put_digest(out: &mut Vec<u8>, digest: &Digest) -> Result<(), NoMemory>
    ensures { OnOk result (out.new.items ≡ out.old.items ++ digest_field digest.now) }
{
    let mut digits = [0; 40];
    match encode_to_slice(digest.as_bytes().as_slice(), &mut digits) {
        Ok(()) => {
            put(out, b" digest ")?;
            put(out, &digits)
        }
        Err(_) => unreachable!(),
    }
}

/// Writes how many entries there are.
pub fn put_entries(out: &mut Vec<u8>, count: u32) -> Result<(), NoMemory>
    ensures { OnOk result (out.new.items ≡ out.old.items ++ number_field (codes "entries") count) }
{
    put_number_field(out, b"entries", u64::from(count))
}
