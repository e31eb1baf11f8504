// The writer: one record behind a used length in a lent buffer, appended or refused.
#![tactic(auto)]

ghost use Rattle.std.specs.Prelude.{◌≡◌, ◌+◌, ◌≤◌, length, take, IfOk};
ghost use Rattle.reader.specs.Scan.{scan_of};
ghost use Rattle.writer.specs.Append.{tested, after_scan, answer_of, buffer_of};
ghost use Rattle.handing.specs.Handing.{handed_in};

pub mod promises;

use progress::Progress;
use reader::Scan;
use records::Record;
use tests::{Reason, Refusal};

// The record behind what g says: tested, then room; where it ends.
#[tactic(auto, using(records::proofs::Sizes::size_most), unfolding(crate::specs::Append::tested))]
fn tested_record(len: usize, used: usize, r: Record, g: Progress) -> Result<usize, Refusal>
    requires { (used ≤ len) × (used ≤ 4096) }
    ensures said { result ≡ tested len used r g }
    ensures fits { IfOk result (λ end. (used ≤ end) × (end ≤ len) × (end ≤ used + 18)) }
{
    let size = records::size_of(r.kind);
    tests::first_hit(&g, r, size).map_err(|reason| Refusal {
        reason,
        place: used,
    })?;
    if len - used < size {
        return Err(Refusal {
            reason: Reason::NoRoom,
            place: 0,
        });
    }
    Ok(used + size)
}

// The used part again, then the record.
// By hand: the buffer with its used length, as `append` is handed them; the room behind is asked too.
#[tactic(auto, unfolding(crate::specs::Append::after_scan))]
fn answer(buf: &[u8], used: usize, r: Record) -> Result<usize, Refusal>
    requires { (used ≤ length buf.now) × (used ≤ 4096) }
    ensures said { result ≡ after_scan (length buf.now) used r (scan_of (take used buf.now)) }
    ensures fits { IfOk result (λ end. (used ≤ end) × (end ≤ length buf.now) × (end ≤ used + 18)) }
{
    match reader::scan_all(&buf[..used])? {
        Scan::Finished(_) => Err(Refusal {
            reason: Reason::BadEnd,
            place: used,
        }),
        Scan::Stopped(g) => tested_record(buf.len(), used, r, g),
    }
}

// One record behind the used part: the new used length, or the refusal.
// By hand: a buffer and its used length, a kind and its numbers, as document 01 hands them in.
pub fn append(buf: &mut [u8], used: usize, kind: u32, numbers: [u32; 17]) -> Result<usize, Refusal>
    ensures answer { result ≡ answer_of buf.old used (handed_in used kind numbers) }
    ensures buffer { buf.new ≡ buffer_of buf.old used (handed_in used kind numbers) }
{
    if buf.len() < used {
        return Err(Refusal {
            reason: Reason::NoRoom,
            place: 0,
        });
    }
    if 4096 < used {
        return Err(Refusal {
            reason: Reason::TooLong,
            place: 0,
        });
    }
    let r = handing::handed_in(used as u32, kind, numbers);
    let end = answer(buf, used, r)?;
    buf[used..end].copy_from_slice(&handing::record_bytes(r)[..end - used]);
    Ok(end)
}
