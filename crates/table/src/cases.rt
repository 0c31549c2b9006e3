// Records and files that are known by hand, as theorems.
ghost use Rattle.table.specs.Cases.{WorkedFiles};

pub fn worked_files()
    ensures { WorkedFiles }
{}
