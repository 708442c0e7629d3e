//! The laws of answers over a span, each the contract of a function that does nothing.

ghost use Rattle.std.specs.Prelude.{List};
ghost use Rattle.tuple_bytes.specs.declared.item.Txn.{Txn as ATxn};
ghost use Rattle.tt_table.specs.Stands.{StandsFor};
ghost use Rattle.tt_table.specs.Tables.{TablesVersions};
ghost use Rattle.tt_table.specs.Versions.{AreTables};
ghost use Rattle.sequenced_query.specs.Laws.{CutsAreOne, OverStands, PlainIsCut};

/// A query has one answer over a span: two lists of pieces that are the answer are one.
pub fn cuts_are_one()
    ensures value { CutsAreOne }
{}

/// Tables that stand for transactions answer over a span as the transactions say.
pub fn answers_over_spans_stand_for_transactions()
    ensures value { (all : TablesVersions) (txns : List ATxn) → AreTables all → StandsFor all txns → OverStands all txns }
{}

/// There always is an answer: the pieces that are made moment by moment. So each query answers these.
pub fn plain_pieces_are_the_answer()
    ensures value { (all : TablesVersions) → AreTables all → PlainIsCut all }
{}
