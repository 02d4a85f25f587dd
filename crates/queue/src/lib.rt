// Queued characters with their marks, in one record of 64 places that are used round and round.
// Nothing outside this crate looks at a place: others know a queue by the list that it stands for.
#![tactic(auto)]

ghost use Rattle.std.specs.Prelude.{◌≡◌, ◌≤◌};
ghost use Rattle.bits.specs.Choice.{pick};
ghost use Rattle.queue.specs.Queue.{WellFormed, Fits, empty_queue, none_added, offered_to, takes_from, clears_all, stays_as, oldest_of, any_mark_of, after_of};

use bits::chosen;

#[derive(Clone, Copy)]
pub struct Character {
    pub byte: u8,
    pub mark: u8,
}

// Two arrays and a count beside them: document 01 names this form, and C sees its layout. That a queue is well formed is a clause
// and not a part of its type, since `sc16is752_new` takes a record of which nothing is asked.
#[repr(C)]
#[derive(Clone, Copy)]
pub struct Queue {
    bytes: [u8; 64],
    marks: [u8; 64],
    pub start: u8,
    pub count: u8,
}

// A character and the place that it goes to.
#[derive(Clone, Copy)]
pub struct Put {
    pub place: u8,
    pub character: Character,
}

// What becomes of a queue in an event: where its characters lie, whether one that was offered was kept, and what is put
// somewhere, if something is. Where none is offered none is lost.
#[derive(Clone, Copy)]
pub struct Moved {
    pub start: u8,
    pub count: u8,
    pub kept: bool,
    pub put: Option<Put>,
}

// No character goes to a place: the others lie somewhere.
fn none_added(start: u8, count: u8) -> Moved
    ensures { result ≡ none_added start count }
{
    Moved {
        start,
        count,
        kept: true,
        put: None,
    }
}

impl Queue {
    #[tactic(auto, unfolding(crate::specs::Queue::empty_queue))]
    pub fn empty() -> Queue
        ensures { result ≡ empty_queue }
    {
        Queue {
            bytes: [0u8; 64],
            marks: [0u8; 64],
            start: 0,
            count: 0,
        }
    }

    #[tactic(auto, unfolding(crate::specs::Queue::stays_as))]
    pub fn stays(self) -> Moved
        ensures { result ≡ stays_as self }
    {
        none_added(self.start, self.count)
    }

    // A character offered, if one is: it goes behind the others if fewer than `room` are queued.
    #[tactic(auto, using(crate::proofs::OneWay::kept_last, crate::proofs::OneWay::lost), unfolding(crate::specs::Queue::stays_as))]
    pub fn adds(self, offered: Option<Character>, room: u8) -> Moved
        requires { WellFormed self × (room ≤ 64) }
        ensures { result ≡ offered_to self offered room }
    {
        let Some(character) = offered else {
            return self.stays();
        };
        if room <= self.count {
            return Moved {
                kept: false,
                ..self.stays()
            };
        }
        let place = (self.start + self.count) % 64;
        Moved {
            start: self.start,
            count: self.count + 1,
            kept: true,
            put: Some(Put { place, character }),
        }
    }

    // The oldest character removed, if it is to go and there is one.
    #[tactic(auto, using(bits::specs::Conditions::from_one_if, crate::proofs::OneWay::some_to_take, crate::proofs::OneWay::taken_or_not))]
    pub fn takes(self, goes: bool) -> Moved
        requires { WellFormed self }
        ensures { result ≡ pick goes (takes_from self) (stays_as self) }
    {
        let taken = u8::from(goes & (self.count != 0));
        none_added((self.start + taken) % 64, self.count - taken)
    }

    // All characters removed, if they are to go.
    #[tactic(auto, using(crate::proofs::OneWay::cleared_or_not))]
    pub fn clears(self, goes: bool) -> Moved
        ensures { result ≡ pick goes (clears_all self) (stays_as self) }
    {
        none_added(self.start, chosen(goes, 0, self.count))
    }

    // The oldest character and its mark, 0 and 0 of an empty queue: document 01 reads so, and `oldest_of` says it.
    #[tactic(auto, unfolding(crate::specs::Queue::oldest_of))]
    pub fn oldest(self) -> Character
        requires { WellFormed self }
        ensures { result ≡ oldest_of self }
    {
        if self.count == 0 {
            return Character { byte: 0, mark: 0 };
        }
        // The arrays alone are copied to find a place in: in `self` it would keep the whole record in memory.
        let at = usize::from(self.start);
        let bytes = self.bytes;
        let marks = self.marks;
        Character {
            byte: bytes[at],
            mark: marks[at],
        }
    }

    // Whether some queued mark is not 0. A `for`, since `any` over the range took three parts in a hundred more of the step.
    #[tactic(auto, using(crate::proofs::Search::left_start, crate::proofs::Search::left_found, crate::proofs::Search::left_again, crate::proofs::Search::left_none), unfolding(crate::specs::Queue::any_mark_of))]
    pub fn any_mark(self) -> bool
        requires { WellFormed self }
        ensures { result ≡ any_mark_of self }
    {
        let marks = self.marks;
        for i in 0..self.count {
            if marks[usize::from((self.start + i) % 64)] != 0 {
                return true;
            }
        }
        false
    }

    // The queue by value after what becomes of it. It doesn't go by `settle`: the compiler would then fill the places of a new queue by
    // `memset`, and the archive for C would ask for it from outside.
    #[tactic(auto, unfolding(crate::specs::Queue::after_of))]
    pub fn after(self, moved: Moved) -> Queue
        requires { Fits moved }
        ensures { result ≡ after_of self moved }
    {
        let mut bytes = self.bytes;
        let mut marks = self.marks;
        if let Some(Put { place, character }) = moved.put {
            let place = usize::from(place);
            bytes[place] = character.byte;
            marks[place] = character.mark;
        }
        Queue {
            bytes,
            marks,
            start: moved.start,
            count: moved.count,
        }
    }
}

// The lent queue after what becomes of it: a byte and a mark are stored where they belong, and no place is copied.
#[tactic(auto, unfolding(crate::specs::Queue::after_of))]
pub fn settle(lent: &mut Queue, moved: Moved)
    requires { Fits moved }
    ensures { lent.new ≡ after_of lent.old moved }
{
    lent.start = moved.start;
    lent.count = moved.count;
    if let Some(Put { place, character }) = moved.put {
        let at = usize::from(place);
        lent.bytes[at] = character.byte;
        lent.marks[at] = character.mark;
    }
}
