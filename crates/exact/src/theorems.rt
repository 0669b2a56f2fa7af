// What exact answers rest on.
ghost use Rattle.kind.specs.Kinds.{Laws};
ghost use Rattle.exact.specs.Theorems.{RangeIsWidest, TicksAndSizes, TicksAreImages};
ghost use Rattle.exact.specs.Wholes.{whole_operations};

// The whole numbers keep the laws of a kind. For every tape, ticks are the whole numbers modulo 2^64, and sizes bound them.
// Step ranges are as wide as can be.
pub fn ticks_and_sizes()
    ensures laws { Laws whole_operations }
    ensures bounds { TicksAndSizes }
    ensures images { TicksAreImages }
    ensures range { RangeIsWidest }
{}
