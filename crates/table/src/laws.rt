// The laws of the layout of table files, each named by a clause, so that the crate stands only with their proofs.
ghost use Rattle.table.specs.Laws.{ReadsWhatIsWritten, WrittenAsRead, OneLoad, FileOfItsTable, NameForEachTask, TableOfItsFile};

pub fn layout_laws()
    ensures written { ReadsWhatIsWritten }
    ensures read { WrittenAsRead }
    ensures one { OneLoad }
    ensures file { FileOfItsTable }
    ensures names { NameForEachTask }
    ensures table { TableOfItsFile }
{}
