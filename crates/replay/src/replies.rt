// What a replayed run keeps of an answer: rows of a fixed length, so that it can be copied. A tape has at most 128 controls.
ghost use Rattle.replay.specs.Replies.{ReplyOf};

use crate::findings::Finding;
use crate::rows::front;
use export::ExportFault;
use kind::Kind;
use packed::FileFault;
use tape::Refusal;

#[derive(Clone, Copy, PartialEq, Eq)]
pub enum Reply<K> {
    Value(K),
    // the value, the gradient in the first entries with zeros after them, and the backward operations
    Gradient(K, [K; 128], usize),
    Slope(K),
    // the bend in the first entries, with zeros after them
    Bend([K; 128]),
    Declined(Refusal),
    // the file is no packed tape
    Broken(FileFault),
}

impl<K: Kind> Reply<K> {
    // The reply that an answer is; of a row of more than 128 entries the first 128.
    pub fn of(answer: Result<Finding<K>, ExportFault>) -> Reply<K>
        ensures { ReplyOf K.Kind.ops K.Kind.means answer result }
    {
        match answer {
            Ok(Finding::Value(x)) => Reply::Value(x),
            Ok(Finding::Gradient(x, entries, operations)) => {
                Reply::Gradient(x, front(&entries), operations)
            }
            Ok(Finding::Slope(x)) => Reply::Slope(x),
            Ok(Finding::Bend(entries)) => Reply::Bend(front(&entries)),
            Err(ExportFault::Query(refusal)) => Reply::Declined(refusal),
            Err(ExportFault::File(fault)) => Reply::Broken(fault),
        }
    }
}
