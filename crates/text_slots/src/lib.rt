// Which slot a name of a LanQ text means (Paper 1): the variables in scope stand in a lent table, by the places of
// their names in the text. The innermost variable of a name counts.
#![tactic(auto)]

pub mod slots;
