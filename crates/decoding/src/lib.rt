// The record whose bytes stand first in a part of a file.
#![tactic(auto)]

ghost use Rattle.std.specs.Prelude.{◌≡◌, ◌<◌};
ghost use Rattle.decoding.specs.Bytes.{byte, two, targets_in, record_of, first_record};

use records::{Kind, Record, UnknownKind};
use std::array;

// Byte i, 0 behind the end.
pub fn byte_at(b: &[u8], i: usize) -> u32
    ensures { (result ≡ byte b.now i) × (result < 256) }
{
    b.get(i).map_or(0, |x| u32::from(*x))
}

// The number of two bytes, low byte first.
// By hand: `u16::from_le_bytes` takes bytes, and these are numbers already.
fn two_of(low: u32, high: u32) -> u32
    requires { (low < 256) × (high < 256) }
    ensures { result ≡ two low high }
{
    low + 256 * high
}

// The sixteen targets of the rename whose bytes b are.
fn targets_in(b: &[u8]) -> [u32; 16]
    ensures { result ≡ targets_in b.now }
{
    array::from_fn(|i| byte_at(b, i + 2))
}

// The record whose bytes b are.
#[tactic(auto, unfolding(crate::specs::Bytes::record_of))]
fn decode(b: &[u8]) -> Record
    ensures { result ≡ record_of b.now }
{
    let x = byte_at(b, 1);
    let y = byte_at(b, 2);
    let z = byte_at(b, 3);
    match Kind::try_from(byte_at(b, 0)) {
        Ok(Kind::Header) => Record::header(x),
        Ok(Kind::Machine) => Record::machine(x),
        Ok(Kind::Step) => Record::step(x, y, z),
        Ok(Kind::Leaf) => Record::leaf(x),
        Ok(Kind::Join) => Record::join(x, y, two_of(z, byte_at(b, 4))),
        Ok(Kind::Hide) => Record::hide(x, two_of(y, z)),
        Ok(Kind::Rename) => Record::rename(x, targets_in(b)),
        Ok(Kind::End) => Record::end(two_of(x, y)),
        Err(UnknownKind(kind)) => Record::other(kind),
    }
}

// The record that stands first in b.
#[tactic(auto, using(std::proofs::lemmas::List::take_min), unfolding(crate::specs::Bytes::first_record))]
pub fn first_record(b: &[u8]) -> Record
    ensures { result ≡ first_record b.now }
{
    let size = records::size_of(byte_at(b, 0));
    decode(&b[..size.min(b.len())])
}
