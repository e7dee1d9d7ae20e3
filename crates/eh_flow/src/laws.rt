ghost use Rattle.eh_flow.specs.Laws.{HasRow, KeepsPlace, AsksNothingFrozen};

/// Every phase and observation has a row: the table is whole. It is one, since the first that fits is taken.
pub fn every_state_has_a_row()
    ensures { HasRow }
{}

/// A row goes on with the task of the place at which recovery stands; where it stands at none, with that of none.
pub fn rows_keep_to_their_place()
    ensures { KeepsPlace }
{}

/// On a frozen port no identity is asked for, read or waited for.
pub fn frozen_ports_ask_no_identity()
    ensures { AsksNothingFrozen }
{}
