// Who answers a query: a session, or an exporter.
ghost use Rattle.std.specs.Prelude.{Result};
ghost use Rattle.replay.specs.declared.findings.Finding.{Finding as TheFinding};
ghost use Rattle.replay.specs.declared.queries.Query.{Query as TheQuery};
ghost use Rattle.replay.specs.declared.queries.Query.TheVariants.{Value, Gradient, Slope, Bend};

use crate::findings::Finding;
use crate::queries::Query;
use crate::rows::Rows;
use kind::Kind;

// A party answers in working rows that it is handed.
pub(crate) trait Party<K: Kind> {
    type Fault;

    // What the party may answer to a query.
    ghost answers: { Self → TheQuery K → Result (TheFinding K) Self.Fault → Type 0 };

    fn ask_value(&mut self, r: usize, rows: Rows<K>) -> Result<Finding<K>, Self::Fault>
        ensures { answers self.old (Value r) result };

    fn ask_gradient(&mut self, r: usize, rows: Rows<K>) -> Result<Finding<K>, Self::Fault>
        ensures { answers self.old (Gradient r) result };

    fn ask_slope(
        &mut self,
        r: usize,
        direction: &[K],
        rows: Rows<K>,
    ) -> Result<Finding<K>, Self::Fault>
        ensures { answers self.old (Slope r direction.entry) result };

    fn ask_bend(
        &mut self,
        r: usize,
        direction: &[K],
        rows: Rows<K>,
    ) -> Result<Finding<K>, Self::Fault>
        ensures { answers self.old (Bend r direction.entry) result };
}

pub(crate) fn ask<K: Kind, P: Party<K>>(
    party: &mut P,
    query: &Query<K>,
    rows: Rows<K>,
) -> Result<Finding<K>, P::Fault>
    ensures { P.Party.answers party.old query.now result }
{
    match query {
        Query::Value(r) => party.ask_value(*r, rows),
        Query::Gradient(r) => party.ask_gradient(*r, rows),
        Query::Slope(r, direction) => party.ask_slope(*r, direction, rows),
        Query::Bend(r, direction) => party.ask_bend(*r, direction, rows),
    }
}
