// The worked records, proved as one table.
ghost use Rattle.cases.specs.Records.{WorkedRecordsAgree};

// Each of the worked records gets the answers that stand beside it.
pub fn worked_records_agree()
    ensures { WorkedRecordsAgree }
{}
