// A list of items, written to a page.
ghost use Rattle.std.specs.Prelude.{◌≤◌, ◌*◌, length};
ghost use Rattle.text.specs.Pages.{Room, Within};

use crate::{Label, Page, Value};

impl Page {
    // The name stands before the first item, and the separator before each other one; a dash stands for none.
    // An item and its label take at most `EACH` bytes. What it writes is said by how much alone, as the fields say it.
    #[tactic(auto, using(crate::proofs::ListRoom::one_more))]
    pub fn list<const MOST: usize, const EACH: usize, T: Copy, F: Fn(&mut Page, Label, T)>(
        &mut self,
        name: Label,
        separator: Label,
        items: &[T],
        write: F,
    )
        requires most { length items.now ≤ MOST }
        requires one { 1 ≤ MOST }
        requires each { 32 ≤ EACH }
        requires room { Room self.old (MOST * EACH) }
        requires callable { (p : _) (l : _) (x : T) → Room p.now EACH → F.pre write p l x }
        requires within { (p : _) (l : _) (x : T) (q : _) → F.post write p l x tt q → Within p.now q.now EACH }
        ensures { Within self.old self.new (MOST * EACH) }
    {
        if items.is_empty() {
            return self.field(name, Value::Absent);
        }
        let mut label = name;
        for item in items {
            write(self, label, *item);
            label = separator;
        }
    }
}
