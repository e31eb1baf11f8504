// A record of a model file: its kind and its numbers.
#![tactic(auto)]

ghost use Rattle.std.specs.Prelude.{◌≡◌};
ghost use Rattle.records.specs.Kinds.{size_of, is, is_node, has_operand};
ghost use Rattle.records.specs.KindNumbers.{number_of, IsKind};
ghost use Rattle.records.specs.Records.{header_record, machine_record, step_record, leaf_record, join_record};
ghost use Rattle.records.specs.Records.{hide_record, rename_record, end_record, other_record};
ghost use Rattle.records.specs.Records.{record_with, no_targets, key_of};

// The kinds of record, document 01's table.
#[derive(Clone, Copy, Debug, PartialEq, Eq)]
pub enum Kind {
    Header,
    Machine,
    Step,
    Leaf,
    Join,
    Hide,
    Rename,
    End,
}

impl Kind {
    // The number that stands for the kind in a file.
    pub fn number(self) -> u32
        ensures { result ≡ number_of self }
    {
        match self {
            Kind::Header => 1,
            Kind::Machine => 2,
            Kind::Step => 3,
            Kind::Leaf => 4,
            Kind::Join => 5,
            Kind::Hide => 6,
            Kind::Rename => 7,
            Kind::End => 8,
        }
    }

    // Bytes of a record of this kind, the kind's own among them.
    #[tactic(auto, unfolding(crate::specs::Kinds::size_of, crate::specs::Kinds::body_length))]
    pub fn size(self) -> usize
        ensures { result ≡ size_of (number_of self) }
    {
        match self {
            Kind::Header | Kind::Machine | Kind::Leaf => 2,
            Kind::End => 3,
            Kind::Step | Kind::Hide => 4,
            Kind::Join => 5,
            Kind::Rename => 18,
        }
    }
}

// A number that no kind has.
#[derive(Clone, Copy, Debug, PartialEq, Eq)]
pub struct UnknownKind(pub u32);

impl TryFrom<u32> for Kind {
    type Error = UnknownKind;

    ghost try_from_gives = { IsKind };

    fn try_from(number: u32) -> Result<Kind, UnknownKind> {
        match number {
            1 => Ok(Kind::Header),
            2 => Ok(Kind::Machine),
            3 => Ok(Kind::Step),
            4 => Ok(Kind::Leaf),
            5 => Ok(Kind::Join),
            6 => Ok(Kind::Hide),
            7 => Ok(Kind::Rename),
            8 => Ok(Kind::End),
            _ => Err(UnknownKind(number)),
        }
    }
}

pub const SILENT: u32 = 255;

// A kind and its numbers; a number that the kind doesn't use is 0.
// By hand: no enum with a variant a kind, since the clauses and edits of `Record::other` speak of numbers of no kind and
// of fields that a kind doesn't use; a set is the number that is handed in and stored, two bytes of a file.
#[derive(Clone, Copy, Debug, PartialEq, Eq)]
pub struct Record {
    pub kind: u32,
    // header: n; machine: state count; leaf: machine number; end: byte count
    pub number: u32,
    pub from: u32,
    pub label: u32,
    pub to: u32,
    // the left operand of a join; the operand of a hide or a rename
    pub left: u32,
    pub right: u32,
    pub set: u32,
    pub targets: [u32; 16],
}

impl Record {
    // A record of no kind that is listed.
    pub fn other(kind: u32) -> Record
        ensures { result ≡ other_record kind }
    {
        Record {
            kind,
            number: 0,
            from: 0,
            label: 0,
            to: 0,
            left: 0,
            right: 0,
            set: 0,
            targets: [0u32; 16],
        }
    }

    // A record of a kind that has one number.
    fn numbered(kind: Kind, number: u32) -> Record
        ensures { result ≡ record_with (number_of kind) number 0 0 0 0 0 0 no_targets }
    {
        Record {
            number,
            ..Record::other(kind.number())
        }
    }

    pub fn header(n: u32) -> Record
        ensures { result ≡ header_record n }
    {
        Record::numbered(Kind::Header, n)
    }

    pub fn machine(states: u32) -> Record
        ensures { result ≡ machine_record states }
    {
        Record::numbered(Kind::Machine, states)
    }

    pub fn step(from: u32, label: u32, to: u32) -> Record
        ensures { result ≡ step_record from label to }
    {
        Record {
            from,
            label,
            to,
            ..Record::other(Kind::Step.number())
        }
    }

    pub fn leaf(machine: u32) -> Record
        ensures { result ≡ leaf_record machine }
    {
        Record::numbered(Kind::Leaf, machine)
    }

    pub fn join(left: u32, right: u32, set: u32) -> Record
        ensures { result ≡ join_record left right set }
    {
        Record {
            left,
            right,
            set,
            ..Record::other(Kind::Join.number())
        }
    }

    pub fn hide(operand: u32, set: u32) -> Record
        ensures { result ≡ hide_record operand set }
    {
        Record {
            left: operand,
            set,
            ..Record::other(Kind::Hide.number())
        }
    }

    pub fn rename(operand: u32, targets: [u32; 16]) -> Record
        ensures { result ≡ rename_record operand targets }
    {
        Record {
            left: operand,
            targets,
            ..Record::other(Kind::Rename.number())
        }
    }

    pub fn end(bytes: u32) -> Record
        ensures { result ≡ end_record bytes }
    {
        Record::numbered(Kind::End, bytes)
    }

    // Whether the record is of this kind.
    pub fn is(self, kind: Kind) -> bool
        ensures { result ≡ is (number_of kind) self }
    {
        self.kind == kind.number()
    }

    pub fn is_node(self) -> bool
        ensures { result ≡ is_node self }
    {
        self.is(Kind::Leaf) | self.is(Kind::Join) | self.is(Kind::Hide) | self.is(Kind::Rename)
    }

    pub fn has_operand(self) -> bool
        ensures { result ≡ has_operand self }
    {
        self.is(Kind::Join) | self.is(Kind::Hide) | self.is(Kind::Rename)
    }

    // A step as one number: by from, then label, then to.
    pub fn key(self) -> u64
        ensures { result ≡ key_of self }
    {
        (self.from as u64) * 65536 + (self.label as u64) * 256 + (self.to as u64)
    }
}

// Bytes of a record of this kind, the kind's own among them.
// By hand: a number, since the clause is for every number.
pub fn size_of(kind: u32) -> usize
    ensures { result ≡ size_of kind }
{
    match Kind::try_from(kind) {
        Ok(kind) => kind.size(),
        Err(_) => 1,
    }
}
