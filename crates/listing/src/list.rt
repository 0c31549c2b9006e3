// The listing of a table file.
ghost use Rattle.std.specs.Prelude.{◌≡◌, ◌≤◌, [], length};
ghost use Rattle.table.specs.Tables.{task_list, name_list};
ghost use Rattle.analysis.specs.Verdicts.{VerdictOf, bounds_list};
ghost use Rattle.listing.specs.Laws.{OnlyText};
ghost use Rattle.listing.specs.Listings.{Listing, ListedInto, lines_text};
ghost use Rattle.listing.specs.Puts.{TablePut};

use crate::text::Text;
use analysis::assess::assess;
use analysis::verdict::Verdict;
use model::refusal::Refusal;
use table::fault::LoadFault;
use table::load::load;
use table::table::Table;

// A listing that was written: the length of its text, and whether the table is accepted.
// A length, since the text stands in what the caller lends and nothing is allocated.
#[derive(Clone, Copy, Debug, PartialEq, Eq)]
pub struct Listed {
    pub length: usize,
    pub accepted: bool,
}

// A text is lent to each of these, since one that is answered takes its room on the stack in every function that it passes through.
impl Text {
    // The line of each task of an assessed table, into an empty text.
    fn put_lines(&mut self, table: &Table, verdict: &Verdict)
        requires empty { self.old ≡ [] }
        requires bounds { VerdictOf table.now.rate (task_list table.now) verdict.now }
        ensures text { self.new ≡ lines_text (name_list table.now) (bounds_list verdict.now) }
        ensures len { length self.new ≤ 736 }
    {
        for (name, bounds) in table.names().iter().zip(&verdict.bounds[..verdict.count]) {
            self.put_line(name.as_bytes(), bounds);
        }
    }

    // Loads a file and assesses its table: the listing of that table, into an empty text, and whether it is accepted.
    fn put_table(&mut self, file: &[u8]) -> Result<bool, LoadFault>
        requires { self.old ≡ [] }
        ensures { TablePut file.now self.old result self.new }
    {
        let mut table = Table::empty();
        load(file, &mut table)?;
        let verdict = assess(&table);
        self.put_lines(&table, &verdict);
        self.put_verdict(verdict.accepted);
        Ok(verdict.accepted)
    }

    // The listing of a file, into an empty text, and whether its table is accepted.
    fn put_listing(&mut self, file: &[u8]) -> bool
        requires { self.old ≡ [] }
        ensures { Listing file.now self.new result }
    {
        match self.put_table(file) {
            Ok(accepted) => accepted,
            Err(fault) => {
                self.put_refused(fault.refusal.number(), fault.at);
                false
            }
        }
    }
}

// Writes the listing of a file into the front of the output, or leaves the output as it was.
pub fn listing(file: &[u8], output: &mut [u8]) -> Result<Listed, Refusal>
    ensures listed { ListedInto file.now output.old result output.new }
    ensures only { OnlyText file.now output.old result output.new }
{
    let mut text = Text::new();
    let accepted = text.put_listing(file);
    let length = text.copy_out(output).ok_or(Refusal::OutputTooShort)?;
    Ok(Listed { length, accepted })
}
