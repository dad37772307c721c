// What is true of the definitions. The function stands here for the theorems in its contract; it does nothing.
ghost use Rattle.roll.specs.Laws.{NoneTwice, AllInRange};

fn apart()
    ensures none_twice { NoneTwice }
    ensures all_in_range { AllInRange }
{}
