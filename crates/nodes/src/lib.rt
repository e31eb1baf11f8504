// A node of a readable file: its operands' lists, a leaf's flag, and its list, built and stored.
#![tactic(auto)]

ghost use Rattle.std.specs.Prelude.{◌≡◌, true, ◌&&◌, ◌<◌, [], length, get_or};
ghost use Rattle.network.specs.Network.{leaf};
ghost use Rattle.network.specs.Model.{idle};
ghost use Rattle.network.specs.Loops.{spins};
ghost use Rattle.network.specs.Lists.{list_of};
ghost use Rattle.records.specs.Kinds.{leaf_kind, is};
ghost use Rattle.reader.specs.File.{file_model};
ghost use Rattle.filling.specs.Building.{fits, Gives};
ghost use Rattle.nodes.specs.Nodes.{Placed, list_at, left_of, right_of, list_for};
ghost use Rattle.nodes.specs.Nodes.{NodeReady, built_count, built_in};

use events::EventSet;
use filling::PairList;
use reach::Machine;
use reader::Readable;
use records::{Kind, Record};

// The lists of a node's operands; one that the node hasn't got is empty.
#[derive(Clone, Copy)]
pub struct Operands<'a> {
    pub left: &'a [u32],
    pub right: &'a [u32],
}

// The list of node i: the first pairs of its section, as many as it counts.
fn list_at<'a>(sections: &'a [u32], counts: &[usize; 32], i: u32) -> &'a [u32]
    requires { i < 32 }
    ensures { result.now ≡ list_at counts.now sections.now i }
{
    let start = (256 * i as usize).min(sections.len());
    let section = &sections[start..];
    let count = counts[i as usize].min(section.len());
    &section[..count]
}

// The lists of a node's operands, by the sections of the nodes so far and the counts of their lists.
pub fn operands_of<'a>(r: Record, counts: &[usize; 32], sections: &'a [u32]) -> Operands<'a>
    requires { Placed r 32 }
    ensures left { result.left.now ≡ left_of r counts.now sections.now }
    ensures right { result.right.now ≡ right_of r counts.now sections.now }
{
    Operands {
        left: if r.is(Kind::Leaf) {
            &[]
        } else {
            list_at(sections, counts, r.left)
        },
        right: if r.is(Kind::Join) {
            list_at(sections, counts, r.right)
        } else {
            &[]
        },
    }
}

// Machine m of the file.
fn machine_at(file: Readable<'_>, m: u32) -> Machine<'_>
    requires { m < length (file_model file.bytes.now).machines }
    ensures { result ≡ get_or (file_model file.entry.bytes.now).machines m idle }
{
    let place = places::machine_place(file.bytes, m);
    let start = place + 2;
    let end = start + 4 * places::steps_at(file.bytes, start) as usize;
    Machine::new(
        &file.bytes[start..end],
        places::number_at(file.bytes, place),
    )
}

// Whether the node is a leaf whose flag is up.
pub fn is_spinning_leaf(file: Readable, r: Record) -> bool
    requires { is leaf_kind r ≡ true → r.number < length (file_model file.bytes.now).machines }
    ensures { result ≡ (is leaf_kind r && spins (get_or (file_model file.entry.bytes.now).machines r.number idle)) }
{
    if !r.is(Kind::Leaf) {
        return false;
    }
    leaf::is_spinning(&machine_at(file, r.number))
}

// Offers the node's candidates to its list, which has no pair yet.
// By hand: the list is lent, since one that is returned is copied three times on its way out.
fn offer_node(list: &mut PairList, file: Readable, n: u32, r: Record, o: Operands)
    requires none { list.old ≡ fits [] }
    requires events { n ≡ (file_model file.bytes.now).events }
    requires node { NodeReady (file_model file.bytes.now) r o.left.now o.right.now }
    ensures { Gives (list_for (file_model file.entry.bytes.now) r o.entry.left.now o.entry.right.now) list.new }
{
    let set = EventSet::from_bits(r.set);
    match Kind::try_from(r.kind) {
        Ok(Kind::Leaf) => leaf::offer_leaf(list, &machine_at(file, r.number), n),
        Ok(Kind::Join) => lists::offer_join(list, o.left, o.right, set),
        Ok(Kind::Hide) => lists::offer_hide(list, o.left, set),
        _ => lists::offer_rename(list, o.left, r.targets),
    }
}

// The node's list built and, unless it is over, stored in the section that comes first; its count, none of one that is
// over.
pub fn build(file: Readable, n: u32, r: Record, o: Operands, sections: &mut [u32]) -> Option<usize>
    requires events { n ≡ (file_model file.bytes.now).events }
    requires node { NodeReady (file_model file.bytes.now) r o.left.now o.right.now }
    ensures count { result ≡ built_count (list_for (file_model file.entry.bytes.now) r o.entry.left.now o.entry.right.now) }
    ensures area { sections.new
        ≡ built_in (list_for (file_model file.entry.bytes.now) r o.entry.left.now o.entry.right.now) sections.old }
{
    let mut list = PairList::new();
    offer_node(&mut list, file, n, r, o);
    let t = list.tally();
    if t.over {
        return None;
    }
    list.store(sections);
    Some(t.count)
}
