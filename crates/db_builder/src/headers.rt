//! The header of a file.

ghost use Rattle.std.specs.Prelude.{◌≡◌, ◌≤◌, ◌+◌, ◌++◌, length};
ghost use Rattle.arrayvec.specs.ArrayVec.{array_vec_len};
ghost use Rattle.byteorder.specs.Endian.{big_bytes};
ghost use Rattle.db_builder.specs.Facts.{said};
ghost use Rattle.db_builder.specs.Header.{count_fields, fixed_fields, header_bytes, last_fields, magic, schema_fields, size_field};

use arrayvec::ArrayVec;
use byteorder::{BigEndian, ByteOrder};

/// A header, or its beginning.
pub type Header = ArrayVec<u8, 100>;

/// What a header says of its file.
#[derive(Clone, Copy, Debug)]
pub struct FileFacts {
    pub size: u32,
    pub pages: u32,
    pub user_version: u32,
    pub application_id: u32,
}

fn add(to: &mut Header, piece: &[u8])
    requires { array_vec_len to.old + length piece.now ≤ 100 }
    ensures bytes { to.new.items ≡ to.old.items ++ piece.now }
    ensures len { array_vec_len to.new ≡ array_vec_len to.old + length piece.now }
{
    to.try_extend_from_slice(piece).unwrap();
}

fn add_u16(to: &mut Header, number: u16)
    requires { array_vec_len to.old + 2 ≤ 100 }
    ensures bytes { to.new.items ≡ to.old.items ++ big_bytes 2 number }
    ensures len { array_vec_len to.new ≡ array_vec_len to.old + 2 }
{
    let mut bytes = [0u8; 2];
    BigEndian::write_u16(&mut bytes, number);
    add(to, &bytes);
}

fn add_u32(to: &mut Header, number: u32)
    requires { array_vec_len to.old + 4 ≤ 100 }
    ensures bytes { to.new.items ≡ to.old.items ++ big_bytes 4 number }
    ensures len { array_vec_len to.new ≡ array_vec_len to.old + 4 }
{
    let mut bytes = [0u8; 4];
    BigEndian::write_u32(&mut bytes, number);
    add(to, &bytes);
}

fn size_field(size: u32) -> u16
    requires { size ≤ 65536 }
    ensures { big_bytes 2 result ≡ size_field size }
{
    if size == 65536 { 1 } else { size as u16 }
}

fn add_fixed(to: &mut Header)
    requires { array_vec_len to.old + 10 ≤ 100 }
    ensures bytes { to.new.items ≡ to.old.items ++ fixed_fields }
    ensures len { array_vec_len to.new ≡ array_vec_len to.old + 10 }
{
    add(to, &[1, 1, 0, 64, 32, 32]);
    add_u32(to, 1);
}

fn add_schema(to: &mut Header)
    requires { array_vec_len to.old + 28 ≤ 100 }
    ensures bytes { to.new.items ≡ to.old.items ++ schema_fields }
    ensures len { array_vec_len to.new ≡ array_vec_len to.old + 28 }
{
    add_counts(to);
    add(to, &[0; 8]);
    add_u32(to, 1);
}

fn add_counts(to: &mut Header)
    requires { array_vec_len to.old + 16 ≤ 100 }
    ensures bytes { to.new.items ≡ to.old.items ++ count_fields }
    ensures len { array_vec_len to.new ≡ array_vec_len to.old + 16 }
{
    add(to, &[0; 8]);
    add_u32(to, 1);
    add_u32(to, 4);
}

fn add_last(to: &mut Header)
    requires { array_vec_len to.old + 28 ≤ 100 }
    ensures bytes { to.new.items ≡ to.old.items ++ last_fields }
    ensures len { array_vec_len to.new ≡ array_vec_len to.old + 28 }
{
    add(to, &[0; 20]);
    add_u32(to, 1);
    add_u32(to, 3_037_000);
}

/// The header of a file (fileformat2.html, 1.3).
#[tactic(auto, unfolding(crate::specs::Header::header_bytes))]
pub fn header(facts: FileFacts) -> Header
    requires { facts.size ≤ 65536 }
    ensures bytes { result.items ≡ header_bytes (said facts) }
    ensures len { array_vec_len result ≡ 100 }
{
    let mut to = Header::new();
    add(&mut to, b"SQLite format 3\0");
    add_u16(&mut to, size_field(facts.size));
    add_fixed(&mut to);
    add_u32(&mut to, facts.pages);
    add_schema(&mut to);
    add_u32(&mut to, facts.user_version);
    add(&mut to, &[0; 4]);
    add_u32(&mut to, facts.application_id);
    add_last(&mut to);
    to
}
