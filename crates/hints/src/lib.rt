// A table with hints of where its ids are: two slots for each id say where to look first, and behind them stands a
// search from the first place on. A hint is believed only where the place has that id, so the answer is exact whatever
// the words are.
#![tactic(auto)]

ghost use Rattle.std.specs.Prelude.{◌≡◌, ◌*◌, ◌≤◌, ◌<◌, length, MatchOption};
ghost use Rattle.lists.specs.Lists.{find};
ghost use Rattle.hints.specs.Hints.{hint_slots, first_slot, second_slot, ids_of, is_id, Hinted, seek, noted};

use limits::THREAD_PLACES;

// Slots enough that few ids of a full table share one.
pub const HINT_SLOTS: usize = 4 * THREAD_PLACES;

fn first_slot(id: u64) -> usize
    ensures { (result ≡ first_slot id) × (result < hint_slots) }
{
    id as usize % HINT_SLOTS
}

// Ids that share the first slot seldom share this one.
fn second_slot(id: u64) -> usize
    ensures { (result ≡ second_slot id) × (result < hint_slots) }
{
    (id % 2147483648 * 2654435769 / 1048576) as usize % HINT_SLOTS
}

fn note(hints: &mut [u16; HINT_SLOTS], id: u64, place: u16)
    ensures { hints.new ≡ noted hints.old id place }
{
    let slot = first_slot(id);
    if hints[slot] == 0 {
        hints[slot] = place;
    } else {
        hints[second_slot(id)] = place;
    }
}

// The words of a table, so many for each place and the first of them its id (0 for none), with its hints.
#[derive(Clone, Copy)]
pub struct Indexed<'a, const WIDTH: usize, const PLACES: usize> {
    pub words: &'a [u64],
    pub hints: &'a [u16; HINT_SLOTS],
    pub ghost long: { length words.now ≡ PLACES * WIDTH },
    pub ghost wide: { 1 ≤ WIDTH },
    pub ghost hinted: { Hinted PLACES hints.now },
}

impl<'a, const WIDTH: usize, const PLACES: usize> Indexed<'a, WIDTH, PLACES> {
    // With hints that are filled.
    pub fn of(words: &'a [u64], hints: &'a mut [u16; HINT_SLOTS]) -> Self
        requires long { length words.now ≡ PLACES * WIDTH }
        requires sizes { (1 ≤ WIDTH) × (PLACES ≤ 65535) }
        requires hinted { Hinted PLACES hints.old }
        ensures { result.words.now ≡ words.now }
    {
        for place in 0..PLACES {
            let id = words[place * WIDTH];
            if id != 0 {
                note(hints, id, place as u16);
            }
        }
        Self { words, hints }
    }

    // The lowest place with that id.
    fn search(&self, id: u64) -> Option<usize>
        requires { 1 ≤ id }
        ensures { MatchOption result
            (find (is_id id) (ids_of WIDTH PLACES self.now.words.now) ≡ PLACES)
            (λ place. (place < PLACES) × (place ≡ find (is_id id) (ids_of WIDTH PLACES self.now.words.now))) }
    {
        for place in 0..PLACES {
            if self.words[place * WIDTH] == id {
                return Some(place);
            }
        }
        None
    }

    // A place with that id.
    #[inline(always)]
    pub fn place_of(&self, id: u64) -> Option<usize>
        ensures { MatchOption result
            (seek self.now.hints.now (ids_of WIDTH PLACES self.now.words.now) id ≡ PLACES)
            (λ place. (place < PLACES)
            × (place ≡ seek self.now.hints.now (ids_of WIDTH PLACES self.now.words.now) id)) }
    {
        if id == 0 {
            return None;
        }
        let near = self.hints[first_slot(id)] as usize;
        if self.words[near * WIDTH] == id {
            return Some(near);
        }
        let far = self.hints[second_slot(id)] as usize;
        if self.words[far * WIDTH] == id {
            return Some(far);
        }
        self.search(id)
    }
}
