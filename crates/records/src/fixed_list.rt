// A list in fixed memory: an array and a length. The places past the length hold what it began with. Any length may come in with an answer,
// so it is no invariant that the array has room for it.
ghost use Rattle.std.specs.Prelude.{◌≡◌};
ghost use Rattle.records.specs.FixedLists.{empty, pushed};

#[derive(Clone, Copy)]
pub struct FixedList<T, const MOST: usize> {
    pub items: [T; MOST],
    pub len: usize,
}

impl<T: Copy, const MOST: usize> FixedList<T, MOST> {
    pub fn new(blank: T) -> FixedList<T, MOST>
        ensures { result ≡ empty MOST blank }
    {
        FixedList {
            items: [blank; MOST],
            len: 0,
        }
    }

    // A full list is left alone. No call gives more than it holds, so nothing is lost: law NothingLost of model.
    #[tactic(auto, unfolding(crate::specs::FixedLists::pushed))]
    pub fn push(self, item: T) -> FixedList<T, MOST>
        ensures { result ≡ pushed MOST self item }
    {
        let at = self.len;
        if at < MOST {
            let mut longer = self;
            longer.items[at] = item;
            longer.len = at + 1;
            return longer;
        }
        self
    }
}
