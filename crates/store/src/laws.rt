// What is true of the definitions. Each function stands here for the theorems in its contract; it does nothing.
ghost use Rattle.store.specs.Laws.{FaultNumbers};
ghost use Rattle.store.specs.Laws.{AddedIs, RemovedIs, DroppedIs};
ghost use Rattle.store.specs.Laws.{OneMore, NoneMore, OneFewer, NoneFewer, SameNumber, AtMostAll};
ghost use Rattle.store.specs.Laws.{EmptyWord, RightInWord};

fn faults()
    ensures { FaultNumbers }
{}

fn membership()
    ensures added_is { AddedIs }
    ensures removed_is { RemovedIs }
    ensures dropped_is { DroppedIs }
{}

fn numbers()
    ensures one_more { OneMore }
    ensures none_more { NoneMore }
    ensures one_fewer { OneFewer }
    ensures none_fewer { NoneFewer }
    ensures same_number { SameNumber }
    ensures at_most_all { AtMostAll }
{}

fn words()
    ensures empty_word { EmptyWord }
    ensures right_in_word { RightInWord }
{}
