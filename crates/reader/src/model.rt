// A file that has been read: its bytes, alone or with how many events and nodes its model has.
#![tactic(auto)]

ghost use Rattle.std.specs.Prelude.{◌≡◌, ◌<◌, ℕ, length, MatchResult, Err};
ghost use Rattle.decoding.specs.Bytes.{byte};
ghost use Rattle.reader.specs.Scan.{readable, says, reading_of};
ghost use Rattle.reader.specs.File.{file_model};

use tests::Refusal;

/// The bytes of a readable file.
#[derive(Clone, Copy, Debug)]
pub struct Readable<'a> {
    pub bytes: &'a [u8],
    pub ghost are_bytes: { (i : ℕ) → byte bytes.now i < 256 },
    pub ghost is_read: { says bytes.now ≡ readable },
}

/// A readable file, and how many events and nodes its model has.
#[derive(Clone, Copy, Debug)]
pub struct ReadFile<'a> {
    pub bytes: &'a [u8],
    pub events: u32,
    pub nodes: u32,
    pub ghost are_bytes: { (i : ℕ) → byte bytes.now i < 256 },
    pub ghost is_read: { says bytes.now ≡ readable },
    pub ghost events_are: { events ≡ (file_model bytes.now).events },
    pub ghost nodes_are: { nodes ≡ length (file_model bytes.now).nodes },
}

impl<'a> ReadFile<'a> {
    /// Reads a file, and keeps what was counted of its model; the refusals are those of `read`.
    pub fn read(bytes: &'a [u8]) -> Result<ReadFile<'a>, Refusal>
        ensures { MatchResult result (λ f. f.bytes.now ≡ bytes.now) (λ e. reading_of bytes.now ≡ Err e) }
    {
        let g = crate::read(bytes)?;
        Ok(ReadFile {
            bytes,
            events: g.n,
            nodes: g.nodes,
        })
    }
}
