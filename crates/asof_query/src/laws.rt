//! The law of the answers, as the contract of a function that does nothing.

ghost use Rattle.std.specs.Prelude.{List};
ghost use Rattle.tuple_bytes.specs.declared.item.Txn.{Txn as ATxn};
ghost use Rattle.tt_table.specs.Stands.{StandsFor};
ghost use Rattle.tt_table.specs.Versions.{TablesVersions, AreTables};
ghost use Rattle.asof_query.specs.Told.{AnswersStand};

/// Tables that stand for transactions answer as these say: a row and a scan by the state at the moment,
/// a history by the changes of the key.
pub fn answers_stand_for_transactions()
    ensures value { (all : TablesVersions) (txns : List ATxn) → AreTables all → StandsFor all txns → AnswersStand all txns }
{}
