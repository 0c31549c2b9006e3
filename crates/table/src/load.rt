// The loader: from a file's bytes to a table.
ghost use Rattle.std.specs.Prelude.{◌≡◌, OnOk, OnErr};
ghost use Rattle.table.specs.Files.{file_bytes};
ghost use Rattle.table.specs.Loading.{Loaded, Tasks, Loads};
ghost use Rattle.table.specs.Outcomes.{loaded_table, loaded_into};
ghost use Rattle.table.specs.Tables.{contents_of};

use crate::fault::LoadFault;
use crate::read::{Placed, Reader, Record};
use crate::table::Table;
use model::refusal::Refusal;

// The tasks from the reader's place on, added to a table.
fn load_tasks(reader: &mut Reader<'_>, start: Table) -> Result<Table, LoadFault>
    ensures { Tasks reader.old.file.now reader.old.at (contents_of start) (loaded_table result) }
{
    let mut table = start;
    while let Some(Placed { record, at }) = reader.next()? {
        let Record::Task { task, name } = record else {
            return Err(LoadFault {
                refusal: Refusal::WrongPlace,
                at,
            });
        };
        table = table
            .with_task(task, name)
            .map_err(|refusal| LoadFault { refusal, at })?;
    }
    Ok(table)
}

// The table that a file holds.
fn read_table(file: &[u8]) -> Result<Table, LoadFault>
    ensures { Loads file.now (loaded_table result) }
{
    let mut reader = Reader::new(file);
    let Some(
        Placed {
            record: Record::Node { rate, floor, cap },
            ..
        },
    ) = reader.next()?
    else {
        return Err(LoadFault {
            refusal: Refusal::WrongPlace,
            at: 0,
        });
    };
    let start = Table::new(rate, floor, cap).map_err(|refusal| LoadFault { refusal, at: 0 })?;
    load_tasks(&mut reader, start)
}

// Fills the table that the caller lends, or refuses the file and leaves the table as it was.
pub fn load(file: &[u8], table: &mut Table) -> Result<(), LoadFault>
    ensures loads { Loads file.now (loaded_into result table.new) }
    ensures only { (other : Loaded) → Loads file.now other → other ≡ loaded_into result table.new }
    ensures laid { OnOk result (file.now ≡ file_bytes (contents_of table.new)) }
    ensures same { OnErr result (table.new ≡ table.old) }
{
    *table = read_table(file)?;
    Ok(())
}
