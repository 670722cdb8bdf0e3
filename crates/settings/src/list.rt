// What a settings list is: an identifier, its data, and so on to the end.
ghost use Rattle.std.specs.Prelude.{◌≡◌, ◌<◌, not, get_or, set, true, false};
ghost use Rattle.settings.specs.List.{width_of, is_list};
ghost use Rattle.settings.specs.Parts.{place_of, marked_from};

// The width of each identifier's data in bytes, 0 where the identifier is unknown.
// Kept: a table, which has each identifier on a line with its width and its name; arms of a match would be no plainer.
const WIDTHS: [u8; 15] = [
    4, // 00: application ID
    4, // 01: channel mask
    2, // 02: retries and transmission power
    1, // 03: logical device ID
    1, // 04: role
    1, // 05: relay layer
    1, // 06: mode of communication
    4, // 07: baud rate
    1, // 08: parity
    1, // 09: encryption
    16, // 0A: encryption key
    0, // 0B
    2, // 0C: delimiter
    1, // FF: error
    0, // any other
];

// Which identifiers came before, each marked at its place in the table.
#[derive(Drop)]
struct Seen {
    marks: [bool; 15],
}

impl Seen {
    // Marks an identifier; gives whether it was not marked before.
    fn insert(&mut self, id: u8) -> bool
        ensures new { result ≡ not (get_or self.old.marks (place_of id) false) }
        ensures marks { self.new.marks ≡ set self.old.marks (place_of id) true }
    {
        let place = place_of(id);
        let is_new = !self.marks[place];
        self.marks[place] = true;
        is_new
    }
}

// The place of an identifier in the table.
#[tactic(auto, unfolding(crate::specs::Parts::place_of))]
fn place_of(id: u8) -> usize
    ensures value { result ≡ place_of id }
    ensures upper_bound { result < 15 }
{
    match id {
        0..=12 => usize::from(id),
        0xFF => 13,
        _ => 14,
    }
}

// The width of an identifier's data in bytes, 0 where the identifier is unknown.
#[tactic(auto, using(crate::proofs::Table::width_at))]
pub(crate) fn width_of(id: u8) -> usize
    ensures { result ≡ width_of id }
{
    usize::from(WIDTHS[place_of(id)])
}

// Whether the rest of a list is good, where an identifier or the end is expected.
// Kept: two functions that call each other, one for each thing that is expected; a loop would have to remember which it is.
#[cycle(identifier_value)]
#[tactic(auto, unfolding(crate::specs::Parts::marked_from))]
fn identifier(rest: &[u8], mut seen: Seen) -> bool
    ensures { result ≡ marked_from 0 seen.marks rest.now }
{
    let Some((&id, rest)) = rest.split_first() else {
        return true;
    };
    let width = width_of(id);
    width != 0 && seen.insert(id) && value(rest, width, seen)
}

// Whether the rest of a list is good, where `width` bytes of data are expected.
#[cycle(identifier_value)]
#[tactic(auto, using(crate::proofs::ListLaws::cut, crate::proofs::ListLaws::past))]
fn value(rest: &[u8], width: usize, seen: Seen) -> bool
    ensures { result ≡ marked_from width seen.marks rest.now }
{
    match rest.get(width..) {
        Some(rest) => identifier(rest, seen),
        None => false,
    }
}

// Whether the bytes are a settings list: known identifiers, none of them twice, each followed by data of its width. An empty list is one.
#[tactic(auto, using(crate::proofs::ListLaws::marked_is_list))]
pub fn is_list(list: &[u8]) -> bool
    ensures { result ≡ is_list list.now }
{
    identifier(list, Seen { marks: [false; 15] })
}
