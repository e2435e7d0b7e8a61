//! The lines of a report, one by one.

ghost use Rattle.std.specs.Prelude.{◌≡◌, ◌++◌, ◌∷◌, [], codes, OnErr, OnOk};
ghost use Rattle.std.specs.List.{flat_map};
ghost use Rattle.schedule_text.specs.Spelling.{key_token};
ghost use Rattle.report_lines.specs.Lines.{end_line, fate_line, fate_token, key_line};

use basil_types::memory::NoMemory;
use basil_types::party::Decision;
use itoa::Buffer;
use schedule_text::writing::{spell_key, spell_value};
use serial_audit::maps::Pair;

/// Appends a text. Where memory is wanting, `out` is as before, here and below.
pub fn put(out: &mut Vec<u8>, text: &[u8]) -> Result<(), NoMemory>
    ensures appended { OnOk result (out.new.items ≡ out.old.items ++ text.now) }
    ensures as_before { OnErr result (out.new.items ≡ out.old.items) }
{
    out.extend_from_slice(text)?;
    Ok(())
}

/// What became of a transaction, as the report says it.
fn fate_of(fate: Option<Decision>) -> &'static [u8]
    ensures { result.now ≡ fate_token fate }
{
    match fate {
        Some(Decision::Commit) => b"commit",
        Some(Decision::Abort) => b"abort",
        None => b"open",
    }
}

/// `tx NAME commit`, `tx NAME abort` or `tx NAME open`
pub fn put_fate(out: &mut Vec<u8>, name: &[u8], fate: Option<Decision>) -> Result<(), NoMemory>
    ensures appended { OnOk result (out.new.items ≡ out.old.items ++ fate_line name.now fate) }
    ensures as_before { OnErr result (out.new.items ≡ out.old.items) }
{
    let mut line = Vec::new(*out.allocator());
    put(&mut line, b"tx ")?;
    put(&mut line, name)?;
    put(&mut line, b" ")?;
    put(&mut line, fate_of(fate))?;
    put(&mut line, b"\n")?;
    put(out, &line)
}

/// `read NAME KEY` and a space.
pub fn put_asked(out: &mut Vec<u8>, name: &[u8], key: &[u8]) -> Result<(), NoMemory>
    ensures appended { OnOk result
        (out.new.items ≡ out.old.items ++ (codes "read " ++ name.now ++ 32 ∷ key_token key.now ++ 32 ∷ [])) }
    ensures as_before { OnErr result (out.new.items ≡ out.old.items) }
{
    let key = spell_key(*out.allocator(), key)?;
    let mut line = Vec::new(*out.allocator());
    put(&mut line, b"read ")?;
    put(&mut line, name)?;
    put(&mut line, b" ")?;
    put(&mut line, &key)?;
    put(&mut line, b" ")?;
    put(out, &line)
}

/// `key KEY VALUE`, or nothing for a deleted key.
pub fn put_key(out: &mut Vec<u8>, pair: &Pair) -> Result<(), NoMemory>
    ensures appended { OnOk result (out.new.items ≡ out.old.items ++ key_line pair.now) }
    ensures as_before { OnErr result (out.new.items ≡ out.old.items) }
{
    if pair.deleted {
        return Ok(());
    }
    let key = spell_key(*out.allocator(), pair.key.as_slice())?;
    let value = spell_value(*out.allocator(), pair.value.as_slice())?;
    let mut line = Vec::new(*out.allocator());
    put(&mut line, b"key ")?;
    put(&mut line, &key)?;
    put(&mut line, b" ")?;
    put(&mut line, &value)?;
    put(&mut line, b"\n")?;
    put(out, &line)
}

/// A line for each of these pairs, but for deleted keys.
pub fn put_pairs(out: &mut Vec<u8>, pairs: &[Pair]) -> Result<(), NoMemory>
    ensures appended { OnOk result (out.new.items ≡ out.old.items ++ flat_map key_line pairs.now) }
    ensures as_before { OnErr result (out.new.items ≡ out.old.items) }
{
    let before = out.len();
    for pair in pairs {
        if put_key(out, pair).is_err() {
            out.truncate(before);
            return Err(NoMemory);
        }
    }
    Ok(())
}

/// `end N`
pub fn put_end(out: &mut Vec<u8>, messages: u64) -> Result<(), NoMemory>
    ensures appended { OnOk result (out.new.items ≡ out.old.items ++ end_line messages) }
    ensures as_before { OnErr result (out.new.items ≡ out.old.items) }
{
    let mut buffer = Buffer::new();
    let mut line = Vec::new(*out.allocator());
    put(&mut line, b"end ")?;
    put(&mut line, buffer.format(messages).as_bytes())?;
    put(&mut line, b"\n")?;
    put(out, &line)
}
