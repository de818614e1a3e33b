ghost use Rattle.records.specs.Order.{CleanInOrder};

/// Where nothing stands against the records, the value records come first, and there are at most 1,024 of each kind.
pub fn records_stand()
    ensures { CleanInOrder }
{}
