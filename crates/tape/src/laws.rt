// The laws of the definitions that every query is answered by.
ghost use Rattle.std.specs.Prelude.{List};
ghost use Rattle.tape.specs.Derivatives.{differential, second_differential};
ghost use Rattle.tape.specs.Laws.{Determined};
ghost use Rattle.tape.specs.Rows.{at};
ghost use Rattle.tape.specs.Values.{applied};

use kind::Kind;

// In every kind the rows of values, of derivatives and of second derivatives are each the only row in which every line holds
// what its rule says of the registers that it reads.
pub fn rows_are_determined<K: Kind>()
    ensures values { Determined K.Kind.ops (applied K.Kind.ops) }
    ensures derivatives { (vs : List K.Kind.Meaning) → Determined K.Kind.ops (differential K.Kind.ops (at K.Kind.ops vs)) }
    ensures second { (vs ds es : List K.Kind.Meaning) → Determined K.Kind.ops (second_differential K.Kind.ops (at K.Kind.ops vs) (at K.Kind.ops ds) (at K.Kind.ops es)) }
{}
