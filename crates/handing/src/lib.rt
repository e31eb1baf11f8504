// A record as it is handed in, a kind and seventeen numbers, and as bytes to be stored.
#![tactic(auto)]

ghost use Rattle.std.specs.Prelude.{◌≡◌, ◌++◌, ◌-◌, ◌≤◌, ◌<◌, ◌%◌, ◌^◌, length, replicate};
ghost use Rattle.handing.specs.Handing.{handed_in, numbers_of, record_array};

use records::{Kind, Record};

// The record that a kind and its numbers say; the end's count is filled in.
// By hand: the kind is a number, as it is handed in: it may be no kind's, which test 3 refuses.
#[tactic(auto, unfolding(crate::specs::Handing::handed_in))]
pub fn handed_in(used: u32, kind: u32, numbers: [u32; 17]) -> Record
    ensures { result ≡ handed_in used kind numbers }
{
    let [x, y, z, ..] = numbers;
    match Kind::try_from(kind) {
        Ok(Kind::Header) => Record::header(x),
        Ok(Kind::Machine) => Record::machine(x),
        Ok(Kind::Step) => Record::step(x, y, z),
        Ok(Kind::Leaf) => Record::leaf(x),
        Ok(Kind::Join) => Record::join(x, y, z),
        Ok(Kind::Hide) => Record::hide(x, y),
        Ok(Kind::Rename) => {
            let mut targets = [0; 16];
            targets.copy_from_slice(&numbers[1..]);
            Record::rename(x, targets)
        }
        Ok(Kind::End) => Record::end(used),
        Err(_) => Record::other(kind),
    }
}

// The entries in front, and behind them `fill` as often as there is room.
fn padded<T: Copy, const N: usize>(front: &[T], fill: T) -> [T; N]
    requires { length front.now ≤ N }
    ensures { result ≡ front.now ++ replicate (N - length front.now) fill }
{
    let mut all = [fill; N];
    all[..front.len()].copy_from_slice(front);
    all
}

// The numbers to hand in for a record, beside its kind.
#[tactic(auto, unfolding(crate::specs::Handing::numbers_of))]
pub fn numbers_of(r: Record) -> [u32; 17]
    ensures { result ≡ numbers_of r }
{
    match Kind::try_from(r.kind) {
        Ok(Kind::Step) => padded(&[r.from, r.label, r.to], 0),
        Ok(Kind::Join) => padded(&[r.left, r.right, r.set], 0),
        Ok(Kind::Hide) => padded(&[r.left, r.set], 0),
        Ok(Kind::Rename) => {
            let mut numbers = [r.left; 17];
            numbers[1..].copy_from_slice(&r.targets);
            numbers
        }
        _ => padded(&[r.number], 0),
    }
}

// By hand: of `x.to_le_bytes()` the first would be no plainer.
fn low_byte(x: u32) -> u8
    ensures { result ≡ x % 256 }
{
    (x % 256) as u8
}

// The bytes of a record whose numbers are in range, in front; then zeros.
pub fn record_bytes(r: Record) -> [u8; 18]
    ensures { (result ≡ record_array r) × (r.set < 2 ^ 32) }
{
    let kind = low_byte(r.kind);
    match Kind::try_from(r.kind) {
        Ok(Kind::Header | Kind::Machine | Kind::Leaf) => padded(&[kind, low_byte(r.number)], 0),
        Ok(Kind::Step) => padded(
            &[kind, low_byte(r.from), low_byte(r.label), low_byte(r.to)],
            0,
        ),
        Ok(Kind::Join) => padded(
            &[
                kind,
                low_byte(r.left),
                low_byte(r.right),
                low_byte(r.set),
                low_byte(r.set / 256),
            ],
            0,
        ),
        Ok(Kind::Hide) => padded(
            &[
                kind,
                low_byte(r.left),
                low_byte(r.set),
                low_byte(r.set / 256),
            ],
            0,
        ),
        Ok(Kind::Rename) => {
            let mut bytes = padded(&[kind, low_byte(r.left)], 0);
            bytes[2..].copy_from_slice(&r.targets.map(low_byte));
            bytes
        }
        Ok(Kind::End) => padded(&[kind, low_byte(r.number), low_byte(r.number / 256)], 0),
        Err(_) => padded(&[kind], 0),
    }
}
