// The lines of a listing, added at the end of a text.
#![tactic(auto, using(crate::proofs::Lengths::at_most_six_digits))]

ghost use Rattle.std.specs.Prelude.{◌≡◌, ◌+◌, ◌≤◌, ◌++◌, length, codes};
ghost use Rattle.model.specs.OnTime.{AtMost};
ghost use Rattle.listing.specs.Lines.{bound_text, outcome_text, refused_text, verdict_text};
ghost use Rattle.listing.specs.Listings.{task_line, IsSmall};

use crate::text::Text;
use analysis::verdict::TaskBounds;

// Each line needs another room, so every method asks for its own, and the type has only the room of all.
impl Text {
    // The line of a task.
    pub(crate) fn put_line(&mut self, name: &[u8], bounds: &TaskBounds)
        requires short { length name.now ≤ 12 }
        requires small { IsSmall bounds.now }
        requires room { length self.old + 46 ≤ 768 }
        ensures text { self.new ≡ self.old ++ task_line name.now bounds.now }
        ensures len { length self.new ≤ length self.old + 46 }
    {
        self.put(name);
        self.put_bound(bounds.time.window);
        self.put_bound(bounds.greater.window);
        self.put_bound(bounds.safe.window);
        self.put(b" ");
        self.put_number(bounds.safe.rounds);
        self.put_outcome(bounds.safe.window);
    }

    // A space, and then the bound or a minus sign.
    fn put_bound(&mut self, bound: Option<u32>)
        requires limit { AtMost 100000 bound }
        requires room { length self.old + 7 ≤ 768 }
        ensures text { self.new ≡ self.old ++ codes " " ++ bound_text bound }
        ensures len { length self.new ≤ length self.old + 7 }
    {
        self.put(b" ");
        match bound {
            Some(n) => self.put_number(n),
            None => self.put(b"-"),
        }
    }

    // A space, then the outcome of a task with this safe bound, and the end of the line.
    fn put_outcome(&mut self, safe: Option<u32>)
        requires room { length self.old + 6 ≤ 768 }
        ensures text { self.new ≡ self.old ++ codes " " ++ outcome_text safe ++ codes "\n" }
        ensures len { length self.new ≤ length self.old + 6 }
    {
        match safe {
            Some(_) => self.put(b" ok\n"),
            None => self.put(b" late\n"),
        }
    }

    // The last line of a listing.
    pub(crate) fn put_verdict(&mut self, accepted: bool)
        requires { length self.old + 13 ≤ 768 }
        ensures { self.new ≡ self.old ++ verdict_text accepted }
    {
        if accepted {
            self.put(b"accepted\n");
        } else {
            self.put(b"not accepted\n");
        }
    }

    // The only line for a file that is refused, for the reason of this number, at this place.
    pub(crate) fn put_refused(&mut self, number: u8, at: usize)
        requires { length self.old + 36 ≤ 768 }
        ensures { self.new ≡ self.old ++ refused_text number at }
    {
        self.put(b"refused ");
        self.put_number(number);
        self.put(b" at ");
        self.put_number(at);
        self.put(b"\n");
    }
}
