ghost use Rattle.script.specs.Spelled.{ReadsBack};

/// Every list of calls whose numbers fit their types can be written as a script, and reads as itself.
#[tactic(auto, using(crate::proofs::ReadBack::reads_back))]
pub fn script_stands()
    ensures { ReadsBack }
{}
