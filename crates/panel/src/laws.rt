// Names the laws of the two makes of panel, so that they are proved; the functions do nothing.
ghost use Rattle.panel.specs.History.{HistoryLaws, TableLaws};
ghost use Rattle.panel.specs.Scripted.{ScriptLaws};

#[tactic(auto, using(crate::proofs::Histories::history_laws, crate::proofs::Histories::table_laws))]
pub fn chain_laws()
    ensures history { HistoryLaws }
    ensures table { TableLaws }
{}

#[tactic(auto, using(crate::proofs::Scripting::script_laws))]
pub fn script_laws()
    ensures { ScriptLaws }
{}
